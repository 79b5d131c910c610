// The bank of 64 registers, handed in and handed back by value. That a register's number is below 64 is shown by the caller, who
// has it out of a table that was judged; that a place is no larger than a position holds, by the caller too, who let the line in.
#![tactic(auto)]

ghost use Rattle.std.specs.Prelude.{◌≡◌, ◌≤◌, ◌<◌, pos, get_or, set, replicate};
ghost use Rattle.ground.specs.Place.{place_max, absent};

// What an empty register holds.
const ABSENT: i16 = -1;

#[derive(Clone, Copy)]
pub struct Bank {
    pub r: [i16; 64],
}

impl Bank {
    // All registers empty.
    pub fn empty() -> Self
        ensures { result.r ≡ replicate 64 absent }
    {
        Bank { r: [ABSENT; 64] }
    }

    // A place is stored. The caller shows both bounds.
    pub fn store(mut self, to: usize, place: usize) -> Self
        requires { (to < 64) × (place ≤ place_max) }
        ensures { result.r ≡ set self.r to (pos place) }
    {
        self.r[to] = ground::held(place);
        self
    }

    // A register is copied from an old bank: one list reads all its sources before it writes. The caller shows both bounds.
    pub fn copied(mut self, old: Bank, to: usize, from: usize) -> Self
        requires { (to < 64) × (from < 64) }
        ensures { result.r ≡ set self.r to (get_or old.r from (pos 0)) }
    {
        self.r[to] = old.r[from];
        self
    }

    // What a register holds. The caller shows the bound.
    pub fn read(self, from: usize) -> i16
        requires { from < 64 }
        ensures { result ≡ get_or self.r from (pos 0) }
    {
        self.r[from]
    }
}
