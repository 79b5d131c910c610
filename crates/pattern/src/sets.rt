// Bracket sets, read byte by byte.
#![tactic(auto, unfolding(ground::specs::Pick::pick, crate::specs::Sets::set_on, crate::specs::Sets::gained))]

ghost use Rattle.std.specs.Prelude.{◌≡◌, List, [], ◌∷◌, ◌++◌, ℕ, ◌≤◌, ◌<◌, ◌+◌, get_or, length, drop};
ghost use Rattle.pattern.specs.Sets.{against, seek, names, lists, gained, item, ends, upto, set_on};
ghost use Rattle.pattern.specs.Sets as steps;
ghost use Rattle.pattern.specs.Standing.{word, told, stands, Sound, Stepped, item_of, items_of, raised, Shown, Marks, Shows, Listed, seen, boxed};

// Where the text of a set stands, after its `[` or `[^`.
#[derive(Clone, Copy)]
enum Stand {
    Fresh,
    Ready,
    Held(u8),
    Quote,
    Dash(u8),
    DashQuote(u8),
    // Within `[:name:]`, whose bytes after the `[` start at that place.
    Name(usize),
    Shut,
}

// How bytes stand to the words `:name:]` of the classes: they are the word of a class, or begin one.
#[derive(Clone, Copy)]
enum Word {
    Whole(u8),
    Begun,
}

// An item of a set: the bytes from one to another, or those of a class.
#[derive(Clone, Copy)]
enum Item {
    Span(u8, u8),
    Class(u8),
}

// What follows the `[` in the name of each class.
const WORDS: [&[u8]; 12] = [
    b":alnum:]",
    b":alpha:]",
    b":blank:]",
    b":cntrl:]",
    b":digit:]",
    b":graph:]",
    b":lower:]",
    b":print:]",
    b":punct:]",
    b":space:]",
    b":upper:]",
    b":xdigit:]",
];

// The word of class k.
fn word_of(k: usize) -> &'static [u8]
    requires { k < 12 }
    ensures { result.now ≡ word k }
{
    WORDS[k]
}

// The bytes w against the word of class k.
#[tactic(auto, using(crate::proofs::Words::against_is), unfolding(ground::specs::Pick::pick))]
fn compare(w: &[u8], k: usize) -> Option<Word>
    requires { k < 12 }
    ensures { told result ≡ against w.now (word k) k }
{
    let word = word_of(k);
    if !word.starts_with(w) {
        return None;
    }
    // all of the word, not a beginning of it
    let whole = word.len();
    if w.len() == whole {
        return Some(Word::Whole(k as u8));
    }
    Some(Word::Begun)
}

// The bytes w against the words of all classes.
fn find(w: &[u8]) -> Option<Word>
    ensures { told result ≡ seek w.now names 0 }
{
    for k in 0..WORDS.len() {
        if let Some(r) = compare(w, k) {
            return Some(r);
        }
    }
    None
}

// Where the byte c at i leads, if an item begins with it.
fn begins(i: usize, c: u8) -> Option<Stand>
    requires { i < usize.MAX }
    ensures { (s : List ℕ) → Stepped s i (item c) result }
{
    match c {
        b'\\' => Some(Stand::Quote),
        b'[' => Some(Stand::Name(i + 1)),
        b']' | b'-' | b'^' => None,
        _ => Some(Stand::Held(c)),
    }
}

// Where the byte c at i leads, if the set ends or an item begins with it.
fn closes(i: usize, c: u8) -> Option<Stand>
    requires { i < usize.MAX }
    ensures { (s : List ℕ) → Stepped s i (ends c) result }
{
    if c == b']' {
        return Some(Stand::Shut);
    }
    begins(i, c)
}

// Where a span from a to d leads.
fn reaches(a: u8, d: u8) -> Option<Stand>
    ensures { (s : List ℕ) (i : ℕ) → Stepped s i (upto a d) result }
{
    (a <= d).then_some(Stand::Ready)
}

// Where the byte c leads after a and `-`: `[ ] - ^` stand for themselves only after `\`.
fn dashes(a: u8, c: u8) -> Option<Stand>
    ensures { (s : List ℕ) (i : ℕ) → Stepped s i (set_on (steps.dash a) c) result }
{
    match c {
        b'\\' => Some(Stand::DashQuote(a)),
        b'[' | b']' | b'-' | b'^' => None,
        _ => reaches(a, c),
    }
}

// Where the byte at i leads within the name that began at from.
#[tactic(auto, using(crate::proofs::SetSteps::name_on))]
fn names_on(s: &[u8], from: usize, i: usize) -> Option<Stand>
    requires { (i < length s.now) × (from ≤ i) }
    ensures { Stepped s.now i (set_on (stands s.now i (Stand.Name from)) (get_or s.now i 0)) result }
{
    match find(&s[from..=i])? {
        Word::Whole(_) => Some(Stand::Ready),
        Word::Begun => Some(Stand::Name(from)),
    }
}

// Where the byte at i leads, if a set goes on so. The place and where the text stands are no struct: each step has others.
fn step_on(s: &[u8], i: usize, st: Stand) -> Option<Stand>
    requires { (i < length s.now) × Sound i st }
    ensures { Stepped s.now i (set_on (stands s.now i st) (get_or s.now i 0)) result }
{
    let c = s[i];
    match st {
        Stand::Fresh => begins(i, c),
        Stand::Ready => closes(i, c),
        Stand::Held(a) => if c == b'-' {
            Some(Stand::Dash(a))
        } else {
            closes(i, c)
        },
        Stand::Quote => Some(Stand::Held(c)),
        Stand::Dash(a) => dashes(a, c),
        Stand::DashQuote(a) => reaches(a, c),
        Stand::Name(from) => names_on(s, from, i),
        Stand::Shut => None,
    }
}

// The class whose name began at from and ends at i.
#[tactic(auto, using(crate::proofs::SetSteps::name_gained))]
fn class_at(s: &[u8], from: usize, i: usize) -> Option<Item>
    requires { (i < length s.now) × (from ≤ i) }
    ensures { items_of result ≡ gained (stands s.now i (Stand.Name from)) (get_or s.now i 0) }
{
    match find(&s[from..=i]) {
        Some(Word::Whole(k)) => Some(Item::Class(k)),
        _ => None,
    }
}

// The item that the byte at i shows to be complete.
fn item_at(s: &[u8], i: usize, st: Stand) -> Option<Item>
    requires { (i < length s.now) × Sound i st }
    ensures { items_of result ≡ gained (stands s.now i st) (get_or s.now i 0) }
{
    let c = s[i];
    match st {
        Stand::Held(a) => (c != b'-').then_some(Item::Span(a, a)),
        Stand::Dash(a) => (c != b'\\').then_some(Item::Span(a, c)),
        Stand::DashQuote(a) => Some(Item::Span(a, c)),
        Stand::Name(from) => class_at(s, from, i),
        _ => None,
    }
}

// Whether b is one of the item's bytes.
fn has(x: Item, b: u8) -> bool
    ensures { result ≡ lists b (item_of x) }
{
    match x {
        Item::Span(a, d) => a <= b && b <= d,
        Item::Class(k) => classes::in_class(k, b),
    }
}

// Of the item's bytes those that have a mark are marked, and the other marks stay.
fn mark_item(x: Item, marks: &mut [u8])
    requires { length marks.old ≤ 256 }
    ensures { (b : ℕ) → b < length marks.old → get_or marks.new b 0 ≡ raised (lists b (item_of x)) (get_or marks.old b 0) }
{
    // Each mark is written, hit or not: that asks for no branch.
    for (b, mark) in marks.iter_mut().enumerate() {
        let hit = has(x, b as u8);
        *mark = if hit { 1 } else { *mark };
    }
}

// The item that the byte at i shows to be complete is marked. Where no marks are lent, as when a set is measured, none is looked for.
fn mark_at(s: &[u8], i: usize, st: Stand, marks: &mut [u8])
    requires { (i < length s.now) × Sound i st × (length marks.old ≤ 256) }
    ensures { (xs : List steps.Item) → Shown marks.old xs → Shown marks.new (xs ++ gained (stands s.now i st) (get_or s.now i 0)) }
{
    if marks.is_empty() {
        return;
    }
    if let Some(x) = item_at(s, i, st) {
        mark_item(x, marks);
    }
}

// A set from the place after its `[` or `[^` on: the place after it, or the first at which no set goes on. Its bytes that have a mark
// are marked. A loop, so that a long set asks for no more stack.
fn scan(s: &[u8], from: usize, marks: &mut [u8]) -> Result<usize, usize>
    requires from_in { from ≤ length s.now }
    requires few { length marks.old ≤ 256 }
    requires none { Shown marks.old [] }
    ensures end { result ≡ seen (steps.scan (drop from s.now) from steps.fresh []) }
    ensures marked { Shows marks.new (steps.scan (drop from s.now) from steps.fresh []) }
{
    let mut st = Stand::Fresh;
    for i in from..s.len() {
        mark_at(s, i, st, marks);
        let Some(next) = step_on(s, i, st) else {
            return Err(i);
        };
        if let Stand::Shut = next {
            return Ok(i + 1);
        }
        st = next;
    }
    Err(s.len())
}

// The set whose `[` stands at i, as `scan` reads it. Its caller has seen the `[`.
#[tactic(auto, unfolding(crate::specs::Standing::boxed))]
fn set_at(s: &[u8], i: usize, marks: &mut [u8]) -> Result<usize, usize>
    requires at_in { i < length s.now }
    requires few { length marks.old ≤ 256 }
    requires none { Shown marks.old [] }
    ensures end { result ≡ seen (boxed s.now i) }
    ensures marked { Shows marks.new (boxed s.now i) }
{
    let after = i + 1;
    if after < s.len() && s[after] == b'^' {
        return scan(s, after + 1, marks);
    }
    scan(s, after, marks)
}

// The bytes that the set lists whose `[` stands at i are marked. Its caller has seen the `[` and lends 256 marks.
pub fn mark_set(s: &[u8], i: usize, marks: &mut [u8])
    requires { (i < length s.now) × Marks marks.old [] }
    ensures { Listed marks.new (boxed s.now i) }
{
    let _ = set_at(s, i, marks);
}

// The end of the set whose `[` stands at i, or where no set goes on: no marks are lent. Its caller has seen the `[`.
pub fn bracket(s: &[u8], i: usize) -> Result<usize, usize>
    requires { i < length s.now }
    ensures { result ≡ seen (boxed s.now i) }
{
    set_at(s, i, &mut [])
}
