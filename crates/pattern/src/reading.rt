// Measuring a pattern text: alternatives, sequences and atoms call each other; the bytes left, paired with the grammar level, fall.
// Alternatives and sequences are loops, so that the stack grows with the open groups alone. Their parts differ in length: where the next
// stands is known only after the one before. Text, place and depth are no struct: each call has another place or depth.
ghost use Rattle.std.specs.Prelude.{◌≡◌, ◌≤◌, ◌<◌, ◌+◌, [], length};
ghost use Rattle.pattern.specs.Reader.{read, alts, seq, piece, atom};
ghost use Rattle.pattern.specs.Atoms.{Found, Small, pat_of};
ghost use Rattle.pattern.specs.Measured.{measured, sum_of, seq_sum, rep_sum};

use crate::Fault;
use crate::sets::bracket;
use crate::text::{byte_at, repeat_of, stops_at};

// How many groups may be open.
pub const GROUPS: usize = 16;

// How many bytes a record is, with its kind.
const RANGE_BYTES: usize = 4;

const MASK_BYTES: usize = 34;

const FORK_BYTES: usize = 3;

const TAG_BYTES: usize = 3;

// How many records a pattern is, how many bytes they are, and its highest tag plus one.
#[derive(Clone, Copy)]
pub struct Sum {
    pub size: usize,
    pub width: usize,
    pub tags: u8,
}

impl Sum {
    // The measures of nothing.
    const NONE: Sum = Sum {
        size: 0,
        width: 0,
        tags: 0,
    };

    // The measures of one record.
    fn one(width: usize, tags: u8) -> Sum
        ensures { result ≡ record { size = 1; width = width; tags = tags } }
    {
        Sum {
            size: 1,
            width,
            tags,
        }
    }

    // The measures of a part and what follows it.
    fn then(self, next: Sum) -> Sum
        requires { (self.size + next.size < 65536) × (self.width + next.width < 65536) }
        ensures { result ≡ seq_sum self next }
    {
        Sum {
            size: self.size + next.size,
            width: self.width + next.width,
            tags: self.tags.max(next.tags),
        }
    }

    // The measures of a part and its FORK.
    fn forked(self) -> Sum
        requires { (self.size < 65536) × (self.width < 65536) }
        ensures { result ≡ rep_sum self }
    {
        Sum {
            size: self.size + 1,
            width: self.width + FORK_BYTES,
            ..self
        }
    }
}

// What reading a part of a pattern finds: the place after it and its measures, or the fault in it.
pub type Read = Result<(usize, Sum), Fault>;

// One atom that is no group: a byte, any byte, a tag, or the set whose `[` stands where it was read.
#[derive(Clone, Copy)]
pub enum Atom {
    Byte(u8),
    Any,
    Tag(u8),
    Set,
}

impl Atom {
    // The measures of its record.
    fn sum(self) -> Sum
        requires { Small self }
        ensures { result ≡ sum_of (pat_of [] self) }
    {
        match self {
            Atom::Byte(_) | Atom::Any => Sum::one(RANGE_BYTES, 0),
            Atom::Tag(t) => Sum::one(TAG_BYTES, t + 1),
            Atom::Set => Sum::one(MASK_BYTES, 0),
        }
    }
}

// The atom there, if it is no group, and the place after it. Inlined, as are `sequence`, `repeated` and `atomic`: an open group then
// asks for one frame on the stack.
#[tactic(auto, using(std::proofs::lemmas::Bool::Decides::nat_tests), unfolding(crate::specs::Reader::single, crate::specs::Measured::measured))]
#[inline(always)]
pub fn lone(s: &[u8], at: usize) -> Result<(usize, Atom), Fault>
    requires { at ≤ length s.now }
    ensures { Found s.now at result }
{
    match byte_at(s, at) {
        Some(b'\\') => match byte_at(s, at + 1) {
            None => Err(Fault::Form(at + 1)),
            Some(c) => Ok((at + 2, Atom::Byte(c))),
        },
        Some(b'@') => match byte_at(s, at + 1) {
            Some(t @ b'0'..=b'7') => Ok((at + 2, Atom::Tag(t - b'0'))),
            _ => Err(Fault::Form(at + 1)),
        },
        Some(b'.') => Ok((at + 1, Atom::Any)),
        Some(b'[') => match bracket(s, at) {
            Ok(end) => Ok((end, Atom::Set)),
            Err(q) => Err(Fault::Form(q)),
        },
        None | Some(b'|' | b')' | b'*' | b'+' | b'?' | b']') => Err(Fault::Form(at)),
        Some(c) => Ok((at + 1, Atom::Byte(c))),
    }
}

// Alternatives from that place on, with that many groups open. That the text has at most 255 bytes `pattern` has seen; that the place
// lies in it and at most 16 groups are open, each of the four functions shows to the next.
#[cycle(alternatives_atomic_repeated_sequence)]
pub fn alternatives(s: &[u8], at: usize, depth: usize) -> Read
    requires { (at ≤ length s.now) × (depth ≤ 16) × (length s.now ≤ 255) }
    ensures { result ≡ measured (read s.now alts depth at) }
{
    let mut sum = Sum::NONE;
    let mut i = at;
    // A loop: alternatives differ in length, so the next place is known only after the alternative.
    loop {
        let (end, more) = sequence(s, i, depth)?;
        if byte_at(s, end) != Some(b'|') {
            return Ok((end, sum.then(more)));
        }
        // An alternative that others follow has a FORK before it.
        sum = sum.then(more.forked());
        i = end + 1;
    }
}

// A sequence. What it asks `alternatives` shows.
#[cycle(alternatives_atomic_repeated_sequence)]
#[inline(always)]
pub fn sequence(s: &[u8], at: usize, depth: usize) -> Read
    requires { (at ≤ length s.now) × (depth ≤ 16) × (length s.now ≤ 255) }
    ensures { result ≡ measured (read s.now seq depth at) }
{
    let mut sum = Sum::NONE;
    let mut i = at;
    // A loop: atoms differ in length, so the next place is known only after the atom.
    while !stops_at(byte_at(s, i)) {
        let (end, more) = repeated(s, i, depth)?;
        sum = sum.then(more);
        i = end;
    }
    Ok((i, sum))
}

// An atom, and perhaps one of `* + ?`. What it asks `sequence` shows.
#[cycle(alternatives_atomic_repeated_sequence)]
#[inline(always)]
pub fn repeated(s: &[u8], at: usize, depth: usize) -> Read
    requires { (at ≤ length s.now) × (depth ≤ 16) × (length s.now ≤ 255) }
    ensures { result ≡ measured (read s.now piece depth at) }
{
    let (end, sum) = atomic(s, at, depth)?;
    match repeat_of(byte_at(s, end)) {
        Some(_) => Ok((end + 1, sum.forked())),
        None => Ok((end, sum)),
    }
}

// An atom: a group, or one that is none. What it asks `repeated` shows.
#[cycle(alternatives_atomic_repeated_sequence)]
#[inline(always)]
pub fn atomic(s: &[u8], at: usize, depth: usize) -> Read
    requires { (at ≤ length s.now) × (depth ≤ 16) × (length s.now ≤ 255) }
    ensures { result ≡ measured (read s.now atom depth at) }
{
    if byte_at(s, at) != Some(b'(') {
        let (end, atom) = lone(s, at)?;
        return Ok((end, atom.sum()));
    }
    // how many groups are open here
    let open = depth;
    if open == GROUPS {
        return Err(Fault::Deep(at));
    }
    let (end, sum) = alternatives(s, at + 1, depth + 1)?;
    if byte_at(s, end) != Some(b')') {
        return Err(Fault::Form(end));
    }
    Ok((end + 1, sum))
}
