#![tactic(auto)]

ghost use Rattle.std.specs.Prelude.{◌≡◌, false, ℕ, suc, ◌+◌, ◌*◌, ◌<◌, ◌≤◌, length, get_or, set};
ghost use mathlib.Core.List.{[], ◌∷◌, foldl};
ghost use Rattle.paths.specs.Situation.{bite, on_byte};
ghost use Rattle.paths.specs.Registers.{Tags, tagged, step, index, held_by, holds};
ghost use Rattle.paths.specs.Equal.{same_situation};
ghost use Rattle.explore.specs.Slots.{thread_at, slot, PutAt, Stored, Loaded, Fit, Placed};
ghost use Rattle.explore.specs.Explore.{Holds, Kept, Tries, Expands, Explores, Alike, Told};
ghost use Rattle.explore.specs.Keys.{keys_at, Finds, Gathers, names, Named, Numbers, Stepped, Begun};
ghost use Rattle.paths.specs.Marks.{Marked, marking};
ghost use Rattle.net.specs.Items.{net_at};
ghost use Rattle.explore.specs.Items.{Formed, lands};
ghost use Rattle.net.specs.Rec.{rec};
ghost use Rattle.explore.specs.Onward.{onward_of, closing_of};
ghost use Rattle.explore.specs.States.{thread_of, marked, MarkedBy, tags_of};
ghost use Rattle.explore.specs.Visit.{Ready, Means};

use answers::Refusal;

// From the records of an automaton file to its situations, in the lent work memory. A situation under way is a list of its
// own in the shape of a slot: 578 bytes, changed in place, as the marks and the registers are.
// What the public functions ask is shown by `build`: `Formed` comes from the reader of the file, `Kept` from the exploration.

// The most situations that a table has.
const MOST_SITUATIONS: usize = 96;

// The most registers that a situation has.
const MOST_REGISTERS: usize = 64;

// For a tag without a place, as document 01 writes it in a table.
const ABSENT: u8 = 255;

// The kinds of an automaton file's records that are not the END's.
const RANGE: u8 = 0x11;

const MASK: u8 = 0x12;

const FORK: u8 = 0x13;

const TAG: u8 = 0x14;

// A situation in its bytes: two counts, then an entry of nine bytes for each of at most 64 records.
const HEAD: usize = 2;

const ENTRY: usize = 9;

const SLOT: usize = HEAD + 64 * ENTRY;

// One thread: the record that it stands on, and for each tag 255 or where its place comes from.
// Bytes as a slot and a table have them, so that a tag without a place is 255 and not None.
#[derive(Clone, Copy)]
pub struct Entry {
    pub on: u8,
    pub had: [u8; 8],
}

impl Entry {
    // The same places, on another record.
    fn moved(self, r: u8) -> Entry
        ensures { (result.on ≡ r) × (result.had ≡ self.had) }
    {
        Entry { on: r, ..self }
    }

    // The same places but for tag t.
    fn tagged(mut self, t: u8, stamp: u8) -> Entry
        requires { t < 8 }
        ensures { (result.on ≡ self.on) × (result.had ≡ set self.had t stamp) }
    {
        self.had[usize::from(t)] = stamp;
        self
    }
}

// Which records have been visited since the last byte.
fn seen(marks: &[bool; 64], r: u8) -> bool
    requires { r < 64 }
    ensures { result ≡ marked marks.now r }
{
    marks[usize::from(r)]
}

fn mark(marks: &mut [bool; 64], r: u8)
    requires { (length marks.old ≡ 64) × (r < 64) }
    ensures { MarkedBy marks.old r marks.new }
{
    marks[usize::from(r)] = true;
}

// What may follow a record with no byte: nothing, either of two records, or one with a tag.
#[derive(Clone, Copy)]
pub enum Onward {
    Stay,
    Both(u8, u8),
    Store(u8, u8),
}

#[tactic(auto, using(crate::proofs::Reading::onward_is, std::proofs::lemmas::Bool::Decides::nat_tests))]
fn onward_at(file: &[u8], offs: &[usize], r: u8) -> Onward
    requires formed { Formed file.now offs.now }
    requires r_in_bounds { r < length offs.now }
    ensures { result ≡ onward_of (rec (net_at file.now offs.now) r) }
{
    let at = offs[usize::from(r)];
    match file[at] {
        FORK => Onward::Both(file[at + 1], file[at + 2]),
        TAG => Onward::Store(file[at + 1], file[at + 2]),
        _ => Onward::Stay,
    }
}

fn put_entry(work: &mut [u8], at: usize, e: Entry)
    requires { at + 9 ≤ length work.old }
    ensures { PutAt work.old work.new at e }
{
    work[at] = e.on;
    work[at + 1..at + ENTRY].copy_from_slice(&e.had);
}

// The entry at a place. Its callers have the place from a list, with its nine bytes.
pub fn entry_at(work: &[u8], at: usize) -> Entry
    requires { at + 9 ≤ length work.now }
    ensures { thread_of result ≡ thread_at work.now at }
{
    let mut had = [0u8; 8];
    had.copy_from_slice(&work[at + 1..at + ENTRY]);
    Entry { on: work[at], had }
}

// Depth first from e. The marks and the n entries of the list are changed in place; the list has the shape of a slot.
fn visit(
    file: &[u8],
    offs: &[usize],
    stamp: u8,
    e: Entry,
    fuel: usize,
    marks: &mut [bool; 64],
    list: &mut [u8],
    n: usize,
) -> usize
    requires formed { Formed file.now offs.now }
    requires ready { Ready (length offs.now) marks.old list.old n }
    requires on_in_bounds { (e.on < length offs.now) × (stamp < 255) }
    ensures ready_2 { Ready (length offs.now) marks.new list.new result }
    ensures means { (m : Marked Tags) → Means marks.old list.old n m → Means marks.new list.new result (marking (tagged stamp) (net_at file.now offs.now) fuel m (thread_of e)) }
{
    if fuel == 0 || seen(marks, e.on) {
        return n;
    }
    mark(marks, e.on);
    match onward_at(file, offs, e.on) {
        Onward::Both(x, y) => {
            let k = visit(file, offs, stamp, e.moved(x), fuel - 1, marks, list, n);
            visit(file, offs, stamp, e.moved(y), fuel - 1, marks, list, k)
        }
        Onward::Store(t, x) => {
            visit(
                file,
                offs,
                stamp,
                e.tagged(t, stamp).moved(x),
                fuel - 1,
                marks,
                list,
                n,
            )
        }
        Onward::Stay => {
            put_entry(list, HEAD + ENTRY * n, e);
            n + 1
        }
    }
}

// The answer of an END. `build` shows that r is below the count: it has r from a list of the exploration.
#[tactic(auto, using(crate::proofs::Reading::closing_is, std::proofs::lemmas::Bool::Decides::nat_tests))]
pub fn end_at(file: &[u8], offs: &[usize], r: u8) -> Option<u8>
    requires formed { Formed file.now offs.now }
    requires r_in_bounds { r < length offs.now }
    ensures { result ≡ closing_of (rec (net_at file.now offs.now) r) }
{
    let at = offs[usize::from(r)];
    match file[at] {
        RANGE | MASK | FORK | TAG => None,
        _ => Some(file[at + 1]),
    }
}

// The record that byte b leads to from record r.
#[tactic(auto, using(crate::proofs::Reading::bite_is, std::proofs::lemmas::Bool::Decides::nat_tests))]
fn bite_at(file: &[u8], offs: &[usize], r: u8, b: u8) -> Option<u8>
    requires formed { Formed file.now offs.now }
    requires r_in_bounds { r < length offs.now }
    ensures { result ≡ lands (bite b (rec (net_at file.now offs.now) r)) }
{
    let at = offs[usize::from(r)];
    match file[at] {
        RANGE if file[at + 1] <= b && b <= file[at + 2] => Some(file[at + 3]),
        MASK if (file[at + 1 + usize::from(b / 8)] >> (b % 8)) % 2 == 1 => Some(file[at + 33]),
        _ => None,
    }
}

// What e leads to by byte b, after what has been found.
fn consume(
    file: &[u8],
    offs: &[usize],
    stamp: u8,
    e: Entry,
    b: u8,
    marks: &mut [bool; 64],
    list: &mut [u8],
    n: usize,
) -> usize
    requires formed { Formed file.now offs.now }
    requires ready { Ready (length offs.now) marks.old list.old n }
    requires on_in_bounds { (e.on < length offs.now) × (stamp < 255) }
    ensures ready_2 { Ready (length offs.now) marks.new list.new result }
    ensures means { (m : Marked Tags) → Means marks.old list.old n m → Means marks.new list.new result (foldl (marking (tagged stamp) (net_at file.now offs.now) (suc (length (net_at file.now offs.now)))) m (on_byte (tagged stamp) (net_at file.now offs.now) b (thread_of e))) }
{
    match bite_at(file, offs, e.on, b) {
        Some(x) => visit(
            file,
            offs,
            stamp,
            e.moved(x),
            offs.len() + 1,
            marks,
            list,
            n,
        ),
        None => n,
    }
}

// All threads of s that consume b, in order, and what they lead to, into the list.
fn sweep(file: &[u8], offs: &[usize], stamp: u8, s: &[u8], b: u8, list: &mut [u8])
    requires formed { Formed file.now offs.now }
    requires fit { Fit (length offs.now) s.now × ((stamp < 255) × (length list.old ≡ 578)) }
    ensures { Fit (length offs.now) list.new × (slot list.new 0 ≡ step (net_at file.now offs.now) stamp b (slot s.now 0)) }
{
    let mut marks = [false; 64];
    let mut n = 0;
    for i in 0..usize::from(s[0]) {
        let e = entry_at(s, HEAD + ENTRY * i);
        n = consume(file, offs, stamp, e, b, &mut marks, list, n);
    }
    list[0] = n as u8;
}

// ---- registers: two bytes for each, a tag and where its place comes from; 64 fit

// The number of tag t's register from o among the first n.
fn find(regs: &[u8], n: usize, t: u8, o: u8) -> Option<usize>
    requires { 2 * n ≤ length regs.now }
    ensures { Finds (keys_at regs.now 0 n) (t, o) result }
{
    for i in 0..n {
        // a register is of one tag
        let tag = t;
        if regs[2 * i] == tag && regs[2 * i + 1] == o {
            return Some(i);
        }
    }
    None
}

// The count with tag t's register from o, if 64 are enough.
fn add(regs: &mut [u8], n: usize, t: u8, o: u8) -> Option<usize>
    requires { (n ≤ 64) × (length regs.old ≡ 128) }
    ensures { Gathers (keys_at regs.old 0 n) ((t, o) ∷ []) regs.new result }
{
    if find(regs, n, t, o).is_some() {
        return Some(n);
    }
    if n == MOST_REGISTERS {
        return None;
    }
    regs[2 * n] = t;
    regs[2 * n + 1] = o;
    Some(n + 1)
}

// The registers of one entry, after those before it.
fn gather(regs: &mut [u8], n: usize, e: Entry) -> Option<usize>
    requires { (n ≤ 64) × (length regs.old ≡ 128) }
    ensures { Gathers (keys_at regs.old 0 n) (holds 0 (tags_of e.had)) regs.new result }
{
    let mut k = n;
    for (t, o) in e.had.iter().enumerate() {
        if *o != ABSENT {
            k = add(regs, k, t as u8, *o)?;
        }
    }
    Some(k)
}

// The registers of a list.
fn registers_of(list: &[u8], regs: &mut [u8]) -> Option<usize>
    requires { (length list.now ≡ 578) × ((get_or list.now 0 0 ≤ 64) × (length regs.old ≡ 128)) }
    ensures { Gathers [] (held_by (slot list.now 0)) regs.new result }
{
    let mut k = 0;
    for i in 0..usize::from(list[0]) {
        k = gather(regs, k, entry_at(list, HEAD + ENTRY * i))?;
    }
    Some(k)
}

// An entry with register numbers for origins.
fn name_entry(regs: &[u8], n: usize, e: Entry) -> Entry
    requires { (n ≤ 64) × (length regs.now ≡ 128) }
    ensures { thread_of result ≡ names (keys_at regs.now 0 n) (thread_of e) }
{
    let mut d = e;
    for (t, o) in e.had.iter().enumerate() {
        if *o != ABSENT {
            d.had[t] = find(regs, n, t as u8, *o).unwrap_or(n) as u8;
        }
    }
    d
}

fn name_all(regs: &[u8], k: usize, list: &mut [u8])
    requires k_bound { (k ≤ 64) × (length regs.now ≡ 128) }
    requires list_len { (length list.old ≡ 578) × (get_or list.old 0 0 ≤ 64) }
    ensures { Named (keys_at regs.now 0 k) list.old list.new (get_or list.old 0 0) }
{
    for i in 0..usize::from(list[0]) {
        let at = HEAD + ENTRY * i;
        let e = entry_at(list, at);
        put_entry(list, at, name_entry(regs, k, e));
    }
}

// The list with register numbers, and where each register comes from; their count, if 64 are enough.
fn number_of(list: &mut [u8], regs: &mut [u8]) -> Option<usize>
    requires { (length list.old ≡ 578) × ((get_or list.old 0 0 ≤ 64) × (length regs.old ≡ 128)) }
    ensures numbers { Numbers (slot list.old 0) list.new regs.new result }
    ensures fit { (N : ℕ) → Fit N list.old → Fit N list.new }
{
    let k = registers_of(list, regs)?;
    name_all(regs, k, list);
    list[1] = k as u8;
    Some(k)
}

// The situation that s leads to by byte b, into the list, and where its registers come from; their count, if 64 are enough.
// `build` shows what it asks: the file by its reader, and s by `Kept`, as s is a stored situation.
pub fn next_of(
    file: &[u8],
    offs: &[usize],
    s: &[u8],
    b: u8,
    list: &mut [u8],
    regs: &mut [u8],
) -> Option<usize>
    requires formed { Formed file.now offs.now }
    requires holds { Holds (length offs.now) s.now 0 × (length s.now ≡ 578) }
    requires list_len { (length list.old ≡ 578) × (length regs.old ≡ 128) }
    ensures { Stepped (net_at file.now offs.now) (length offs.now) b (slot s.now 0) list.new regs.new result }
{
    sweep(file, offs, s[1], s, b, list);
    number_of(list, regs)
}

// The situation of the empty input, into the list, and its registers; their count, if 64 are enough.
fn begin_of(file: &[u8], offs: &[usize], list: &mut [u8], regs: &mut [u8]) -> Option<usize>
    requires formed { Formed file.now offs.now }
    requires offs_nonzero { 0 < length offs.now }
    requires list_len { (length list.old ≡ 578) × (length regs.old ≡ 128) }
    ensures { Begun (net_at file.now offs.now) (length offs.now) list.new regs.new result }
{
    let e = Entry {
        on: 0,
        had: [ABSENT; 8],
    };
    let mut marks = [false; 64];
    let n = visit(file, offs, 0, e, offs.len() + 1, &mut marks, list, 0);
    list[0] = n as u8;
    number_of(list, regs)
}

// ---- the work memory: slot j has the count of records, the count of registers, and nine bytes for each record

fn store(work: &mut [u8], j: usize, list: &[u8])
    requires { (length list.now ≡ 578) × ((get_or list.now 0 0 ≤ 64) × (578 * j + 578 ≤ length work.old)) }
    ensures { Stored work.old work.new j (slot list.now 0) (get_or list.now 1 0) }
{
    let base = SLOT * j;
    work[base..base + SLOT].copy_from_slice(list);
}

// Situation j in a list of its own. Its callers show by `Kept` that the memory has the slot.
pub fn load(work: &[u8], j: usize) -> [u8; SLOT]
    requires { 578 * j + 578 ≤ length work.now }
    ensures { Loaded work.now j result }
{
    let base = SLOT * j;
    let mut list = [0u8; SLOT];
    list.copy_from_slice(&work[base..base + SLOT]);
    list
}

// Whether slot j has the list's situation: as many entries, and the same bytes.
fn same(work: &[u8], j: usize, list: &[u8]) -> bool
    requires { (578 * j + 578 ≤ length work.now) × ((length list.now ≡ 578) × (get_or list.now 0 0 ≤ 64)) }
    ensures { result ≡ same_situation (slot list.now 0) (slot work.now j) }
{
    let base = SLOT * j;
    let end = HEAD + ENTRY * usize::from(list[0]);
    let kept = &work[base + HEAD..base + end];
    let held = &list[HEAD..end];
    work[base] == list[0] && kept == held
}

// Where the list's situation is stored, if it is. `build` shows by `Kept` that the memory has the slots, and has the
// list from `next_of`.
pub fn place(work: &[u8], count: usize, list: &[u8]) -> Option<usize>
    requires { (578 * count ≤ length work.now) × ((length list.now ≡ 578) × (get_or list.now 0 0 ≤ 64)) }
    ensures { Placed work.now count (slot list.now 0) result }
{
    for j in 0..count {
        if same(work, j, list) {
            return Some(j);
        }
    }
    None
}

// ---- the exploration

// What byte b leads to from s, stored if it is new: how many situations are stored then.
fn try_byte(
    file: &[u8],
    offs: &[usize],
    work: &mut [u8],
    s: &[u8],
    count: usize,
    b: u8,
) -> Result<usize, Refusal>
    requires formed { Formed file.now offs.now }
    requires kept { Kept (length offs.now) work.old count }
    requires holds { Holds (length offs.now) s.now 0 × (length s.now ≡ 578) }
    ensures { Tries (net_at file.now offs.now) (length offs.now) work.old work.new count (slot s.now 0) b result }
{
    let mut list = [0u8; SLOT];
    let mut regs = [0u8; 128];
    next_of(file, offs, s, b, &mut list, &mut regs).ok_or(Refusal::Registers)?;
    if place(work, count, &list).is_some() {
        return Ok(count);
    }
    if MOST_SITUATIONS <= count {
        return Err(Refusal::Situations);
    }
    store(work, count, &list);
    Ok(count + 1)
}

// For every byte 1 where some record treats it in another way than the byte before it, and 0 where none does.
// `build` has the records from the reader of the file.
pub fn news(file: &[u8], offs: &[usize]) -> [u8; 256]
    requires { Formed file.now offs.now }
    ensures { Told (net_at file.now offs.now) (length offs.now) result }
{
    let mut told = [0u8; 256];
    told[0] = 1;
    for r in 0..offs.len() {
        let mut last = bite_at(file, offs, r as u8, 0);
        for b in 1..256 {
            let next = bite_at(file, offs, r as u8, b as u8);
            if next != last {
                told[b] = 1;
            }
            last = next;
        }
    }
    told
}

// What every byte leads to from situation i: how many situations are stored then.
fn expand(
    file: &[u8],
    offs: &[usize],
    news: &[u8],
    work: &mut [u8],
    i: usize,
    count: usize,
) -> Result<usize, Refusal>
    requires formed { Formed file.now offs.now × Told (net_at file.now offs.now) (length offs.now) news.now }
    requires kept { Kept (length offs.now) work.old count × (i < count) }
    ensures { Expands (net_at file.now offs.now) (length offs.now) work.old work.new count (slot work.old i) result }
{
    let s = load(work, i);
    let mut n = count;
    for (b, new) in news.iter().enumerate() {
        if *new != 0 {
            n = try_byte(file, offs, work, &s, n, b as u8)?;
        }
    }
    Ok(n)
}

// All situations, from slot 0 on: how many they are. `build` has the records from the reader of the file, `news` from the function above,
// and refuses smaller memory.
pub fn explore(file: &[u8], offs: &[usize], news: &[u8], work: &mut [u8]) -> Result<usize, Refusal>
    requires formed { Formed file.now offs.now × ((0 < length offs.now) × Told (net_at file.now offs.now) (length offs.now) news.now) }
    requires in_bounds { 65536 ≤ length work.old }
    ensures { Explores (net_at file.now offs.now) (length offs.now) work.old work.new result }
{
    let mut list = [0u8; SLOT];
    let mut regs = [0u8; 128];
    begin_of(file, offs, &mut list, &mut regs).ok_or(Refusal::Registers)?;
    store(work, 0, &list);
    let mut count = 1;
    let mut i = 0;
    // A loop: the count grows on the way.
    while i < count {
        count = expand(file, offs, news, work, i, count)?;
        i += 1;
    }
    Ok(count)
}
