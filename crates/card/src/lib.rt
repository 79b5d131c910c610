// The table file: its items read at a place.
#![tactic(auto)]

pub mod form;

ghost use Rattle.std.specs.Prelude.{◌≡◌, ◌≤◌, get_or};
ghost use Rattle.card.specs.Decode.{cmd_at, row_at, after_at, after_rows};
ghost use Rattle.card.specs.Places.{noted};

// The kinds of item, each by its first byte.
pub const HEAD: u8 = 0x21;

pub const SITUATION: u8 = 0x22;

pub const ROW: u8 = 0x23;

pub const MOVE: u8 = 0x24;

pub const SET: u8 = 0x25;

// The most registers that a table has.
const REGISTERS: u8 = 64;

// The command at a place. Anything that is no whole legal command ends the list.
#[derive(Clone, Copy)]
pub enum Order {
    Move(usize, usize),
    Put(usize),
    Stop,
}

#[tactic(auto, using(std::proofs::lemmas::Bool::Decides::nat_tests), unfolding(ground::specs::Pick::pick, crate::specs::Decode::cmd_at))]
pub fn read_cmd(s: &[u8], at: usize) -> Order
    ensures { result ≡ cmd_at s.now at }
{
    if s.len() <= at {
        return Order::Stop;
    }
    let left = s.len() - at;
    // By index: a slice pattern over `s.get(at..)` measured a quarter slower where a run reads rows and commands.
    match s[at] {
        MOVE if 3 <= left && s[at + 1] < REGISTERS && s[at + 2] < REGISTERS => Order::Move(
            usize::from(s[at + 1]),
            usize::from(s[at + 2]),
        ),
        SET if 2 <= left && s[at + 1] < REGISTERS => Order::Put(usize::from(s[at + 1])),
        _ => Order::Stop,
    }
}

// The ROW at a place: the bytes from and to, and where it leads.
#[tactic(auto, using(std::proofs::lemmas::Bool::Decides::nat_tests), unfolding(ground::specs::Pick::pick, crate::specs::Decode::row_at))]
pub fn read_row(s: &[u8], at: usize) -> Option<(u8, u8, u8)>
    ensures { result ≡ row_at s.now at }
{
    // By index, as in `read_cmd`.
    if at < s.len() && s[at] == ROW && 4 <= s.len() - at {
        return Some((s[at + 1], s[at + 2], s[at + 3]));
    }
    None
}

// The place after the commands at a place.
#[tactic(auto, using(crate::proofs::Laws::move_facts, crate::proofs::Laws::put_facts))]
pub fn skip_cmds(s: &[u8], at: usize) -> usize
    ensures { (result ≡ after_at s.now at) × (at ≤ result) }
{
    let mut i = at;
    // A loop: commands differ in length, so the next place is known only after the command.
    loop {
        match read_cmd(s, i) {
            Order::Move(_, _) => i += 3,
            Order::Put(_) => i += 2,
            Order::Stop => return i,
        }
    }
}

// The place after the rows at a place, their commands included.
#[tactic(auto, using(crate::proofs::Rows::row_whole))]
pub fn skip_rows(s: &[u8], at: usize) -> usize
    ensures { (result ≡ after_rows s.now at) × (at ≤ result) }
{
    let mut i = at;
    // A loop: rows differ in length, so the next place is known only after the row's commands.
    while let Some((_, _, _)) = read_row(s, i) {
        i = skip_cmds(s, i + 4);
    }
    i
}

// How many situations the HEAD counts.
pub fn sit_count(s: &[u8]) -> usize
    ensures { (result ≡ get_or s.now 4 0) × (result ≤ 255) }
{
    match s {
        [_, _, _, _, sits, ..] => usize::from(*sits),
        _ => 0,
    }
}

// The places of the situations, as many as `at` has room for. What lies past them in `at` stays as it was.
pub fn places(s: &[u8], at: &mut [usize])
    ensures { at.new ≡ noted at.old s.now }
{
    let count = sit_count(s).min(at.len());
    let mut p = skip_cmds(s, 5);
    for place in at[..count].iter_mut() {
        *place = p;
        p = skip_rows(s, p + 10);
    }
}
