// The kind of a list of commands: none or one SET alone, a block, SETs only, with a MOVE.
ghost use Rattle.std.specs.Prelude.{◌≡◌, ◌<◌};
ghost use Rattle.ground.specs.Pick.{pick};
ghost use Rattle.card.specs.Decode.{cmds_at};
ghost use Rattle.image.specs.Image.{first_from, all_sets};
ghost use Rattle.image.specs.Need.{kind_number, Begins, Inside, Stretched, Sorted};

use card::Order;
use run::lists;

// A kind of list, with its number in an entry.
#[derive(Clone, Copy)]
pub enum Kind {
    Alone = 0,
    Block = 1,
    Sets = 2,
    Moves = 3,
}

// The kind of a list of commands, and where it stands or the numbers of its block.
#[derive(Clone, Copy)]
pub struct Sort {
    pub kind: Kind,
    pub points: usize,
}

// What stands for no command in the place of a register's number.
const NONE: usize = 64;

// As many SETs as a block's five bits count.
const SETS_MAX: usize = 32;

// A block's numbers in their bits: below these the first register, then the SETs but one, the MOVEs, and the first MOVE's source.
const SETS: usize = 1 << 6;

const MOVES: usize = 1 << 11;

const FROM: usize = 1 << 17;

// How many commands of one stretch stand at a place, and the place after them.
#[derive(Clone, Copy)]
struct Stretch {
    many: usize,
    after: usize,
}

// Whether the list at a place has no MOVE.
#[tactic(auto, using(run::proofs::Carrying::commands))]
fn all_sets(s: &[u8], at: usize) -> bool
    ensures { result ≡ all_sets (cmds_at s.now at) }
{
    let mut i = at;
    // A loop: the list's end is known only at the command there.
    loop {
        match card::read_cmd(s, i) {
            Order::Put(_) => i += 2,
            Order::Move(_, _) => return false,
            Order::Stop => return true,
        }
    }
}

// The commands that the list at a place begins with: the first, and others of its kind, each of the registers after the last one's.
// That the first one's registers are no more than 64 `block_sort` shows.
#[tactic(auto, using(crate::proofs::Entries::stretches))]
fn stretch_at(s: &[u8], at: usize, first: Order) -> Stretch
    requires { Inside first 0 }
    ensures { Stretched s.now at first result.many result.after }
{
    let mut i = at;
    let mut n = 0;
    // A loop: commands differ in length, so the next place is known only after the command.
    loop {
        match (card::read_cmd(s, i), first) {
            (Order::Put(to), Order::Put(a)) if to == a + n => i += 2,
            (Order::Move(to, from), Order::Move(a, f)) if to == a + n && from == f + n => i += 3,
            _ => return Stretch { many: n, after: i },
        }
        n += 1;
    }
}

// The source of a MOVE that stands at a place, or 0.
#[tactic(auto, using(run::proofs::Carrying::commands))]
fn first_from(s: &[u8], at: usize) -> usize
    ensures { (result ≡ first_from (cmds_at s.now at)) × (result < 64) }
{
    match card::read_cmd(s, at) {
        Order::Move(_, from) => from,
        Order::Put(_) | Order::Stop => 0,
    }
}

// A list that is no block.
#[tactic(auto, unfolding(ground::specs::Pick::pick))]
fn plain_sort(s: &[u8], at: usize) -> Sort
    ensures { (kind_number result.kind ≡ pick (all_sets (cmds_at s.now at)) 2 3) × (result.points ≡ at) }
{
    let kind = if all_sets(s, at) {
        Kind::Sets
    } else {
        Kind::Moves
    };
    Sort { kind, points: at }
}

// A list that begins with a SET of a, as `list_sort` read it: a block, if the MOVEs lead upward and nothing follows them.
// The numbers of a block are below 64 if it is one SET alone.
fn block_sort(s: &[u8], at: usize, a: usize) -> Sort
    requires { Begins s.now at a }
    ensures { Sorted s.now at (kind_number result.kind) result.points }
{
    let sets = stretch_at(s, at, Order::Put(a));
    let k = sets.many;
    let f = first_from(s, sets.after);
    let moves = stretch_at(s, sets.after, Order::Move(a + k, f));
    if SETS_MAX < k || a + k < f || !lists::alone(s, moves.after) {
        return plain_sort(s, at);
    }
    let w = a + SETS * (k - 1) + MOVES * moves.many + FROM * f;
    let kind = if w < SETS { Kind::Alone } else { Kind::Block };
    Sort { kind, points: w }
}

// The kind of the list at a place, and what its entry points to.
pub fn list_sort(s: &[u8], at: usize) -> Sort
    ensures { Sorted s.now at (kind_number result.kind) result.points }
{
    match card::read_cmd(s, at) {
        Order::Stop => Sort {
            kind: Kind::Alone,
            points: NONE,
        },
        Order::Move(_, _) => Sort {
            kind: Kind::Moves,
            points: at,
        },
        Order::Put(a) => block_sort(s, at, a),
    }
}
