// Writing a pattern's records: what was measured, written in order with the numbers that follow. What is refused writes nothing, and no
// fault is told: `pattern` has measured the whole text first, and told it.
ghost use Rattle.std.specs.Prelude.{◌≡◌, ◌≤◌, ◌<◌, ◌+◌, length};
ghost use Rattle.ground.specs.Lists.{Wrote};
ghost use Rattle.net.specs.Rec.{range, mask, fork, end};
ghost use Rattle.net.specs.File.{rec_bytes};
ghost use Rattle.pattern.specs.Pat.{start_at};
ghost use Rattle.pattern.specs.Sets.{octet, octets};
ghost use Rattle.pattern.specs.Reader.{read, set_at, alts, seq, piece, atom};
ghost use Rattle.pattern.specs.Measured.{measured};
ghost use Rattle.pattern.specs.Atoms.{Ready, bits_of, record_of};
ghost use Rattle.pattern.specs.Writing.{Room, coded, shown, filed};

use crate::reading::{Atom, GROUPS, Read, Sum, alternatives, atomic, lone, repeated, sequence};
use crate::sets::mark_set;
use crate::text::{Repeat, byte_at, repeat_of, stops_at};

// The kinds of a file's items, as document 01 numbers them.
const HEAD: u8 = 0x10;

const RANGE: u8 = 0x11;

const MASK: u8 = 0x12;

const FORK: u8 = 0x13;

const TAG: u8 = 0x14;

const END: u8 = 0x15;

const EDITION: u8 = 1;

// Where a piece of that many records starts that stands at n and is followed by f.
fn start_at(size: usize, n: usize, f: usize) -> usize
    ensures { result ≡ start_at size n f }
{
    if size == 0 { f } else { n }
}

// Those bytes, from o on; the place after them is handed back.
fn put(out: &mut [u8], o: usize, bytes: &[u8]) -> usize
    requires { o + length bytes.now ≤ length out.old }
    ensures { Wrote out.old out.new o result bytes.now }
{
    let end = o + bytes.len();
    out[o..end].copy_from_slice(bytes);
    end
}

// A FORK's record, from o on.
fn put_fork(out: &mut [u8], o: usize, a: usize, b: usize) -> usize
    requires { (o + 3 ≤ length out.old) × (a < 256) × (b < 256) }
    ensures { Wrote out.old out.new o result (rec_bytes (fork a b)) }
{
    put(out, o, &[FORK, a as u8, b as u8])
}

// A RANGE's record, from o on.
fn put_range(out: &mut [u8], o: usize, lo: u8, hi: u8, next: usize) -> usize
    requires { (o + 4 ≤ length out.old) × (next < 256) }
    ensures { Wrote out.old out.new o result (rec_bytes (range lo hi next)) }
{
    put(out, o, &[RANGE, lo, hi, next as u8])
}

// Whether a set with these marks allows b, after `^` or without it.
fn allows(marks: &[u8], caret: bool, b: usize) -> bool
    requires { b < length marks.now }
    ensures { result ≡ shown caret marks.now b }
{
    (marks[b] == 1) != caret
}

// Eight bits of the set's MASK from byte b on, b's lowest.
fn eight(marks: &[u8], caret: bool, b: usize) -> u8
    requires { (length marks.now ≡ 256) × (b + 8 ≤ 256) }
    ensures { result ≡ octet (shown caret marks.now) 8 b }
{
    let mut bits = 0u8;
    for j in (0..8).rev() {
        bits = 2 * bits + u8::from(allows(marks, caret, b + j));
    }
    bits
}

// The record of a set with these marks.
fn put_mask(marks: &[u8], caret: bool, out: &mut [u8], o: usize, next: usize) -> usize
    requires { (length marks.now ≡ 256) × (o + 34 ≤ length out.old) × (next < 256) }
    ensures { Wrote out.old out.new o result (rec_bytes (mask (octets (shown caret marks.now) 32 0) next)) }
{
    let mut p = put(out, o, &[MASK]);
    for k in 0..32 {
        p = put(out, p, &[eight(marks, caret, 8 * k)]);
    }
    put(out, p, &[next as u8])
}

// The record of the set whose `[` stands there. Its caller has read it.
fn put_set(s: &[u8], at: usize, out: &mut [u8], o: usize, next: usize) -> usize
    requires { Ready s.now at Atom.Set × (o + length (rec_bytes (mask (bits_of (set_at s.now at)) next)) ≤ length out.old) × (next < 256) }
    ensures { Wrote out.old out.new o result (rec_bytes (mask (bits_of (set_at s.now at)) next)) }
{
    let mut marks = [0u8; 256];
    mark_set(s, at, &mut marks);
    let caret = byte_at(s, at + 1) == Some(b'^');
    put_mask(&marks, caret, out, o, next)
}

// The record of an atom that was read there.
fn put_atom(s: &[u8], at: usize, a: Atom, out: &mut [u8], o: usize, next: usize) -> usize
    requires { Ready s.now at a × (o + length (rec_bytes (record_of (bits_of (set_at s.now at)) a next)) ≤ length out.old) × (next < 256) }
    ensures { Wrote out.old out.new o result (rec_bytes (record_of (bits_of (set_at s.now at)) a next)) }
{
    match a {
        Atom::Byte(c) => put_range(out, o, c, c, next),
        Atom::Any => put_range(out, o, 0, 255, next),
        Atom::Tag(t) => put(out, o, &[TAG, t, next as u8]),
        Atom::Set => put_set(s, at, out, o, next),
    }
}

// A sequence as it was measured, by a call of its own: what is inlined would stand in the frame of each open group's writer.
#[inline(never)]
fn sequence_there(s: &[u8], at: usize, depth: usize) -> Read
    requires { (at ≤ length s.now) × (depth ≤ 16) × (length s.now ≤ 255) }
    ensures { result ≡ measured (read s.now seq depth at) }
{
    sequence(s, at, depth)
}

// Here and below: what a writer is given is no struct, since each call has another place, depth, number and follower.
// Alternatives: the first record has number n and stands at o, and f is what follows. They are measured as a whole first: so none is
// refused in the loop, and `last` tells whether records are left.
#[cycle(emit_alternatives_emit_atomic_emit_repeated_emit_sequence)]
fn emit_alternatives(
    s: &[u8],
    at: usize,
    depth: usize,
    out: &mut [u8],
    o: usize,
    n: usize,
    f: usize,
) -> usize
    requires { (at ≤ length s.now) × (depth ≤ 16) × (length s.now ≤ 255) × Room (read s.now alts depth at) n f o (length out.old) }
    ensures { Wrote out.old out.new o result (coded (read s.now alts depth at) n f) }
{
    let Ok((_, sum)) = alternatives(s, at, depth) else {
        return o;
    };
    let last = n + sum.size;
    let mut i = at;
    let mut k = n;
    let mut p = o;
    // A loop: alternatives differ in length, so the next place is known only after the alternative.
    loop {
        let Ok((end, more)) = sequence_there(s, i, depth) else {
            return p;
        };
        if byte_at(s, end) != Some(b'|') {
            return emit_sequence(s, i, depth, out, p, k, f);
        }
        let size = more.size;
        let x = start_at(size, k + 1, f);
        let next = k + 1 + size;
        let y = start_at(last - next, next, f);
        let a = put_fork(out, p, x, y);
        p = emit_sequence(s, i, depth, out, a, k + 1, f);
        k = next;
        i = end + 1;
    }
}

// A sequence, in the same way.
#[cycle(emit_alternatives_emit_atomic_emit_repeated_emit_sequence)]
fn emit_sequence(
    s: &[u8],
    at: usize,
    depth: usize,
    out: &mut [u8],
    o: usize,
    n: usize,
    f: usize,
) -> usize
    requires { (at ≤ length s.now) × (depth ≤ 16) × (length s.now ≤ 255) × Room (read s.now seq depth at) n f o (length out.old) }
    ensures { Wrote out.old out.new o result (coded (read s.now seq depth at) n f) }
{
    let Ok((_, sum)) = sequence(s, at, depth) else {
        return o;
    };
    let last = n + sum.size;
    let mut i = at;
    let mut k = n;
    let mut p = o;
    // A loop: atoms differ in length, so the next place is known only after the atom.
    while !stops_at(byte_at(s, i)) {
        let Ok((end, more)) = repeated(s, i, depth) else {
            return p;
        };
        let next = k + more.size;
        let x = start_at(last - next, next, f);
        p = emit_repeated(s, i, depth, out, p, k, x);
        k = next;
        i = end;
    }
    p
}

// An atom, and the FORK that repeats it.
#[cycle(emit_alternatives_emit_atomic_emit_repeated_emit_sequence)]
fn emit_repeated(
    s: &[u8],
    at: usize,
    depth: usize,
    out: &mut [u8],
    o: usize,
    n: usize,
    f: usize,
) -> usize
    requires { (at ≤ length s.now) × (depth ≤ 16) × (length s.now ≤ 255) × Room (read s.now piece depth at) n f o (length out.old) }
    ensures { Wrote out.old out.new o result (coded (read s.now piece depth at) n f) }
{
    let Ok((end, sum)) = atomic(s, at, depth) else {
        return o;
    };
    let size = sum.size;
    match repeat_of(byte_at(s, end)) {
        Some(Repeat::Star) => {
            let a = put_fork(out, o, start_at(size, n + 1, n), f);
            emit_atomic(s, at, depth, out, a, n + 1, n)
        }
        Some(Repeat::Plus) => {
            let a = emit_atomic(s, at, depth, out, o, n, n + size);
            put_fork(out, a, start_at(size, n, n + size), f)
        }
        Some(Repeat::Query) => {
            let a = put_fork(out, o, start_at(size, n + 1, f), f);
            emit_atomic(s, at, depth, out, a, n + 1, f)
        }
        None => emit_atomic(s, at, depth, out, o, n, f),
    }
}

// An atom.
#[cycle(emit_alternatives_emit_atomic_emit_repeated_emit_sequence)]
fn emit_atomic(
    s: &[u8],
    at: usize,
    depth: usize,
    out: &mut [u8],
    o: usize,
    n: usize,
    f: usize,
) -> usize
    requires { (at ≤ length s.now) × (depth ≤ 16) × (length s.now ≤ 255) × Room (read s.now atom depth at) n f o (length out.old) }
    ensures { Wrote out.old out.new o result (coded (read s.now atom depth at) n f) }
{
    if byte_at(s, at) != Some(b'(') {
        let Ok((_, a)) = lone(s, at) else {
            return o;
        };
        return put_atom(s, at, a, out, o, f);
    }
    if depth == GROUPS {
        return o;
    }
    let Ok((end, _)) = alternatives(s, at + 1, depth + 1) else {
        return o;
    };
    if byte_at(s, end) != Some(b')') {
        return o;
    }
    emit_alternatives(s, at + 1, depth + 1, out, o, n, f)
}

// The automaton file of a text that was measured so, where END has that answer. `pattern` has compared the measures with the limits
// and with the room.
pub fn put_file(s: &[u8], out: &mut [u8], sum: Sum, answer: u8) -> usize
    requires { (length s.now ≤ 255) × (sum.size < 64) × Room (read s.now alts 0 0) 0 sum.size 4 (length out.old) × (4 + length (coded (read s.now alts 0 0) 0 sum.size) + 2 ≤ length out.old) }
    ensures { Wrote out.old out.new 0 result (filed (read s.now alts 0 0) sum.size sum.tags answer) }
{
    let count = sum.size + 1;
    let o = put(out, 0, &[HEAD, EDITION, sum.tags, count as u8]);
    let o = emit_alternatives(s, 0, 0, out, o, 0, sum.size);
    put(out, o, &[END, answer])
}
