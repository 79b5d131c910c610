// A list of commands carried out on a bank: "One list reads all its sources before it writes."
ghost use Rattle.std.specs.Prelude.{◌≡◌, ◌≤◌, ◌<◌, length, set, take};
ghost use Rattle.card.specs.Decode.{cmds_at};
ghost use Rattle.card.specs.Run.{line_max};
ghost use Rattle.run.specs.Carry.{carry, Alone, Tried};

use card::Order;

// Whether no command stands at a place.
#[tactic(auto, using(crate::proofs::Carrying::commands))]
pub fn alone(s: &[u8], at: usize) -> bool
    ensures { Alone s.now at result }
{
    matches!(card::read_cmd(s, at), Order::Stop)
}

// The whole list at a place: all sources are read from the old bank.
#[tactic(auto, using(crate::proofs::Carrying::commands), unfolding(crate::specs::Carry::carry))]
fn move_list(s: &[u8], at: usize, place: usize, old: &[i16; 64], bank: &mut [i16])
    requires { (place ≤ line_max) × (64 ≤ length bank.old) }
    ensures { bank.new ≡ carry (cmds_at s.now at) place old.now bank.old }
{
    let v = ground::held(place);
    let mut i = at;
    // A loop: commands differ in length, so the next place is known only after the command.
    loop {
        match card::read_cmd(s, i) {
            Order::Move(to, from) => {
                bank[to] = old[from];
                i += 3;
            }
            Order::Put(to) => {
                bank[to] = v;
                i += 2;
            }
            Order::Stop => return,
        }
    }
}

// A list whose first command, which `pair` read, stores x to a register, and whose other commands stand at a place.
// False, with nothing stored, if there are two of them or more.
#[tactic(auto, using(crate::proofs::Carrying::commands), unfolding(crate::specs::Carry::carry))]
fn pair_rest(s: &[u8], at: usize, place: usize, to: usize, x: i16, bank: &mut [i16]) -> bool
    requires { (place ≤ line_max) × (to < 64) × (64 ≤ length bank.old) }
    ensures { Tried s.now at place bank.old (set bank.old to x) bank.new result }
{
    match card::read_cmd(s, at) {
        Order::Stop => {
            bank[to] = x;
            true
        }
        Order::Put(u) if alone(s, at + 2) => {
            bank[to] = x;
            bank[u] = ground::held(place);
            true
        }
        Order::Move(u, f) if alone(s, at + 3) => {
            let y = bank[f];
            bank[to] = x;
            bank[u] = y;
            true
        }
        _ => false,
    }
}

// The list at a place, if it has no more than two commands: what is stored is read before anything is stored, so there is no
// old bank to keep. Else false, with nothing stored.
#[tactic(auto, using(crate::proofs::Carrying::commands), unfolding(crate::specs::Carry::carry))]
fn pair(s: &[u8], at: usize, place: usize, bank: &mut [i16]) -> bool
    requires { (place ≤ line_max) × (64 ≤ length bank.old) }
    ensures { Tried s.now at place bank.old bank.old bank.new result }
{
    let (to, x, rest) = match card::read_cmd(s, at) {
        Order::Stop => return true,
        Order::Put(to) => (to, ground::held(place), at + 2),
        Order::Move(to, from) => (to, bank[from], at + 3),
    };
    pair_rest(s, rest, place, to, x, bank)
}

// The registers kept, for what a list reads: its sources are below 64.
fn kept(bank: &[i16]) -> [i16; 64]
    requires { 64 ≤ length bank.now }
    ensures { result ≡ take 64 bank.now }
{
    let mut out = [0; 64];
    out.copy_from_slice(&bank[..64]);
    out
}

// The list at a place, on a bank whose first 64 cells are the registers. That the place fits is shown by whoever counted to it.
#[tactic(auto, using(crate::proofs::Cells::carry_registers))]
pub fn carry_list(s: &[u8], at: usize, place: usize, bank: &mut [i16])
    requires { (place ≤ line_max) × (64 ≤ length bank.old) }
    ensures { bank.new ≡ carry (cmds_at s.now at) place bank.old bank.old }
{
    if !pair(s, at, place, bank) {
        let old = kept(bank);
        move_list(s, at, place, &old, bank);
    }
}
