// A block of commands carried out in place: registers that shift upward as one, and registers that are set to one place.
#![tactic(auto)]

ghost use Rattle.std.specs.Prelude.{◌≡◌, ℕ, ◌+◌, ◌≤◌};
ghost use Rattle.card.specs.Run.{Bank, line_max};
ghost use Rattle.run.specs.Carry.{carry};
ghost use Rattle.image.specs.Image.{puts, moves};
ghost use Rattle.blocks.specs.Blocked.{Blocked};

// How many registers the bank has: a block that goes past them is none.
const BANK: usize = 64;

// Eight MOVEs. All sources are read before a target is stored, so that the compiler makes one load and one store of them.
fn move_eight(bank: &mut [i16; 128], a: usize, f: usize)
    requires { (a + 8 ≤ 64) × (f + 8 ≤ 64) }
    ensures { (p : ℕ) → bank.new ≡ carry (moves a f 8) p bank.old bank.old }
{
    let v: [i16; 8] = *bank[f..].first_chunk().unwrap();
    // A loop: with `copy_from_slice` a line with 64 registers took 1.3 times as long.
    for (t, x) in v.iter().enumerate() {
        bank[a + t] = *x;
    }
}

// MOVEs of n registers one by one. Those above are done first, since no source stands above its target.
fn shift_few(bank: &mut [i16; 128], a: usize, f: usize, n: usize)
    requires { (a + n ≤ 64) × (f ≤ a) }
    ensures { (p : ℕ) → bank.new ≡ carry (moves a f n) p bank.old bank.old }
{
    for i in (0..n).rev() {
        bank[a + i] = bank[f + i];
    }
}

// The same by eights, the lowest one by one. `obey_block` tests that no source stands above its target.
// A line with 64 registers took 1.3 times as long with `copy_within` for all of it, and with a `for` over the eights.
fn shift(bank: &mut [i16; 128], a: usize, f: usize, n: usize)
    requires { (a + n ≤ 64) × (f ≤ a) }
    ensures { (p : ℕ) → bank.new ≡ carry (moves a f n) p bank.old bank.old }
{
    let mut i = n;
    while 8 <= i {
        i -= 8;
        move_eight(bank, a + i, f + i);
    }
    shift_few(bank, a, f, i);
}

// SETs of the k registers from a on.
fn fill(bank: &mut [i16; 128], a: usize, k: usize, place: usize)
    requires { (a + k ≤ 64) × (place ≤ line_max) }
    ensures { bank.new ≡ carry (puts a k) place bank.old bank.old }
{
    let v = ground::held(place);
    // A loop: with the slice's `fill` a line with 64 registers took 1.1 times as long.
    for x in bank[a..a + k].iter_mut() {
        *x = v;
    }
}

// The block that the bits w name; false if they name none. The MOVEs come first, since a SET may store to a source. That
// the place fits `ride_rest` shows, which counts to it.
pub fn obey_block(w: usize, place: usize, bank: &mut [i16; 128]) -> bool
    requires { place ≤ line_max }
    ensures { Blocked w place bank.old bank.new result }
{
    let a = w % 64;
    let k = w / 64 % 32 + 1;
    let f = w / 131072;
    let n = w / 2048 % 64;
    let to = a + k;
    if BANK < to + n {
        return false;
    }
    // the highest source that the MOVEs may have: above it they would read what they stored
    let highest = to;
    if highest < f {
        return false;
    }
    shift(bank, to, f, n);
    fill(bank, a, k, place);
    true
}
