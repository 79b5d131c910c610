// The form of a table file: one pass over its items, with a cursor by value. The pass knows the kind of the first fault
// and the offset of its item. Within an item the order is: no kind byte, a kind not allowed there, a cut body, a field
// out of range, a gap or overlap of rows.
ghost use Rattle.std.specs.Prelude.{◌≡◌, ◌+◌, ◌<◌, ◌≤◌, length};
ghost use Rattle.card.specs.Form.{head_at, field_ok, fields_ok, kind_fault, sit_step, row_step, move_step, set_step, whole, step_form, end_form, begin, form_from, form_of};
ghost use Rattle.card.specs.FormOk.{FormOk};

use crate::{HEAD, MOVE, ROW, SET, SITUATION};

// What is wrong with an item: it may not stand there, is cut, has a field out of range, leaves a gap or an overlap of
// rows, or comes after the whole.
#[derive(Clone, Copy, PartialEq, Eq)]
pub enum Kind {
    Misplaced,
    Short,
    Field,
    Rows,
    Extra,
}

// The first fault: its kind and the offset of its item.
#[derive(Clone, Copy, PartialEq, Eq)]
pub struct Fault {
    pub kind: Kind,
    pub at: usize,
}

// What the HEAD says.
#[derive(Clone, Copy)]
pub struct Head {
    pub tags: usize,
    pub regs: usize,
    pub sits: usize,
}

// Where a pass stands: the place; how many situations have begun; how many bytes the rows of the last one cover, which is
// the byte that its next row starts with; and the least target that the next command may have.
#[derive(Clone, Copy)]
pub struct Cursor {
    pub at: usize,
    pub begun: usize,
    pub lo: usize,
    pub low: usize,
}

const EDITION: u8 = 1;

// A field that is absent, and the answer of a situation that has none.
const NONE: u8 = 255;

// What the rows of a situation cover when they are whole.
const ALL: usize = 256;

#[tactic(auto, using(std::proofs::lemmas::Bool::Decides::nat_tests), unfolding(ground::specs::Pick::pick, crate::specs::Form::head_at))]
fn read_head(s: &[u8]) -> Result<Head, Kind>
    ensures { result ≡ head_at s.now }
{
    match s {
        [HEAD, EDITION, tags @ ..=8, regs @ ..=64, sits @ 1..=96, ..] => Ok(Head {
            tags: usize::from(*tags),
            regs: usize::from(*regs),
            sits: usize::from(*sits),
        }),
        [HEAD, _, _, _, _, ..] => Err(Kind::Field),
        [] | [HEAD, ..] => Err(Kind::Short),
        _ => Err(Kind::Misplaced),
    }
}

// Whether one of the eight fields of a situation is right.
#[tactic(auto, using(std::proofs::lemmas::Bool::Decides::nat_tests), unfolding(ground::specs::Pick::pick, crate::specs::Form::field_ok))]
fn field_ok(x: u8, t: usize, answer: u8, h: Head) -> bool
    ensures { result ≡ field_ok x t answer h.tags h.regs }
{
    x == NONE || answer != NONE && t < h.tags && usize::from(x) < h.regs
}

// Whether the eight are.
fn fields_ok(s: &[u8], at: usize, answer: u8, h: Head) -> bool
    requires { at + 8 ≤ length s.now }
    ensures { result ≡ fields_ok s.now at answer h.tags h.regs }
{
    (0..8).all(|t| field_ok(s[at + t], t, answer, h))
}

// Whether every situation has begun, and the last one has its row to 255.
#[tactic(auto, using(std::proofs::lemmas::Bool::Decides::nat_tests), unfolding(ground::specs::Pick::pick, crate::specs::Form::whole))]
fn complete(f: Cursor, h: Head) -> bool
    ensures { result ≡ whole f.begun f.lo h.sits }
{
    h.sits <= f.begun && f.lo == ALL
}

// Whether a kind of item is allowed where the pass stands.
#[tactic(auto, using(std::proofs::lemmas::Bool::Decides::nat_tests), unfolding(ground::specs::Pick::pick, crate::specs::Form::kind_fault))]
fn kind_fault(kind: u8, f: Cursor, h: Head) -> Result<(), Kind>
    ensures { result ≡ kind_fault kind f.begun f.lo h.sits }
{
    match kind {
        MOVE if f.begun == 0 || f.lo == 0 => Err(Kind::Misplaced),
        SET if f.lo == 0 => Err(Kind::Misplaced),
        MOVE | SET => Ok(()),
        _ if complete(f, h) => Err(Kind::Extra),
        ROW if f.begun == 0 => Err(Kind::Misplaced),
        ROW if f.lo == ALL => Err(Kind::Rows),
        SITUATION if f.lo != ALL => Err(Kind::Rows),
        ROW | SITUATION => Ok(()),
        _ => Err(Kind::Misplaced),
    }
}

// A SITUATION item.
#[tactic(auto, using(std::proofs::lemmas::Bool::Decides::nat_tests), unfolding(ground::specs::Pick::pick, crate::specs::Form::sit_step))]
fn sit_step(f: Cursor, s: &[u8], h: Head) -> Result<Cursor, Kind>
    requires { (f.at < length s.now) × (f.begun < h.sits) }
    ensures { result ≡ sit_step s.now h f }
{
    if s.len() - f.at < 10 {
        return Err(Kind::Short);
    }
    if !fields_ok(s, f.at + 2, s[f.at + 1], h) {
        return Err(Kind::Field);
    }
    Ok(Cursor {
        at: f.at + 10,
        begun: f.begun + 1,
        lo: 0,
        low: 0,
    })
}

// A ROW item.
#[tactic(auto, using(std::proofs::lemmas::Bool::Decides::nat_tests), unfolding(ground::specs::Pick::pick, crate::specs::Form::row_step))]
fn row_step(f: Cursor, s: &[u8], h: Head) -> Result<Cursor, Kind>
    requires { f.at < length s.now }
    ensures { result ≡ row_step s.now h f }
{
    let [_, from, hi, next, ..] = &s[f.at..] else {
        return Err(Kind::Short);
    };
    if hi < from || h.sits <= usize::from(*next) {
        return Err(Kind::Field);
    }
    if usize::from(*from) != f.lo {
        return Err(Kind::Rows);
    }
    Ok(Cursor {
        at: f.at + 4,
        lo: usize::from(*hi) + 1,
        low: 0,
        ..f
    })
}

// A MOVE item.
#[tactic(auto, using(std::proofs::lemmas::Bool::Decides::nat_tests), unfolding(ground::specs::Pick::pick, crate::specs::Form::move_step))]
fn move_step(f: Cursor, s: &[u8], h: Head) -> Result<Cursor, Kind>
    requires { f.at < length s.now }
    ensures { result ≡ move_step s.now h f }
{
    let [_, to, from, ..] = &s[f.at..] else {
        return Err(Kind::Short);
    };
    let to = usize::from(*to);
    if to < f.low || h.regs <= to || h.regs <= usize::from(*from) {
        return Err(Kind::Field);
    }
    Ok(Cursor {
        at: f.at + 3,
        low: to + 1,
        ..f
    })
}

// A SET item.
#[tactic(auto, using(std::proofs::lemmas::Bool::Decides::nat_tests), unfolding(ground::specs::Pick::pick, crate::specs::Form::set_step))]
fn set_step(f: Cursor, s: &[u8], h: Head) -> Result<Cursor, Kind>
    requires { f.at < length s.now }
    ensures { result ≡ set_step s.now h f }
{
    let [_, to, ..] = &s[f.at..] else {
        return Err(Kind::Short);
    };
    let to = usize::from(*to);
    if to < f.low || h.regs <= to {
        return Err(Kind::Field);
    }
    Ok(Cursor {
        at: f.at + 2,
        low: to + 1,
        ..f
    })
}

// The item at the cursor's place.
#[tactic(auto, using(crate::proofs::Allowed::kind_told, crate::proofs::Allowed::step_bad, crate::proofs::Allowed::step_sit, crate::proofs::Allowed::step_row, crate::proofs::Allowed::step_move, crate::proofs::Allowed::step_set))]
fn step(f: Cursor, s: &[u8], h: Head) -> Result<Cursor, Kind>
    requires { f.at < length s.now }
    ensures { result ≡ step_form s.now h f }
{
    let kind = s[f.at];
    kind_fault(kind, f, h)?;
    match kind {
        SITUATION => sit_step(f, s, h),
        ROW => row_step(f, s, h),
        MOVE => move_step(f, s, h),
        _ => set_step(f, s, h),
    }
}

// The end of the file: no kind byte may be missing.
#[tactic(auto, unfolding(ground::specs::Pick::pick, crate::specs::Form::end_form))]
fn ended(f: Cursor, h: Head) -> Result<(), Fault>
    ensures { result ≡ end_form h f }
{
    if complete(f, h) {
        return Ok(());
    }
    Err(Fault {
        kind: Kind::Short,
        at: f.at,
    })
}

// The items after the HEAD.
#[tactic(auto, using(crate::proofs::Passing::pass_begins, crate::proofs::Passing::pass_moves, crate::proofs::Passing::pass_on, crate::proofs::Passing::pass_bad, crate::proofs::Passing::pass_ends))]
fn items(s: &[u8], h: Head) -> Result<(), Fault>
    ensures { result ≡ form_from (length s.now) s.now h begin }
{
    let mut f = Cursor {
        at: 5,
        begun: 0,
        lo: ALL,
        low: 0,
    };
    // A loop: items differ in length, so the next place is known only after the item.
    while f.at < s.len() {
        f = step(f, s, h).map_err(|kind| Fault { kind, at: f.at })?;
    }
    ended(f, h)
}

// The first fault of a table file, or that its form is right.
#[tactic(auto, using(crate::proofs::Formed::verdict_of, crate::proofs::Formed::verdict_wrong))]
pub fn first_fault(s: &[u8]) -> Result<(), Fault>
    ensures { result ≡ form_of s.now }
{
    let h = read_head(s).map_err(|kind| Fault { kind, at: 0 })?;
    items(s, h)
}

// Whether the form of a table file is right.
#[tactic(auto, using(crate::proofs::Formed::ok_right, crate::proofs::Formed::ok_wrong))]
pub fn form_ok(s: &[u8]) -> bool
    ensures { FormOk s.now result }
{
    first_fault(s).is_ok()
}
