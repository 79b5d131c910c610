// The automaton file: a reader of its items, the check of a whole file, the places of its records, and byte counts.
#![tactic(auto)]

ghost use Rattle.std.specs.Prelude.{◌≡◌, ℕ, ◌+◌, ◌*◌, ◌<◌, ◌≤◌, length, get_or, take, drop};
ghost use Rattle.answers.specs.Refusals.{number_of};
ghost use Rattle.net.specs.Items.{head_of, rec_at, size, item_at, net_of, code_of};
ghost use Rattle.net.specs.Calls.{head_shown, size_shown, item_shown, in_range, shown, LayoutOf};
ghost use Rattle.net.specs.Count.{count_below, between, bit_set, counted, byte_count};

use answers::Refusal;

// The kinds of the items.
const HEAD: u8 = 0x10;

const RANGE: u8 = 0x11;

const MASK: u8 = 0x12;

const FORK: u8 = 0x13;

const TAG: u8 = 0x14;

const END: u8 = 0x15;

const EDITION: u8 = 1;

// A record. A MASK's 32 bytes stay in the file, and the variant has their place.
#[derive(Clone, Copy)]
pub enum Item {
    Range(u8, u8, u8),
    Mask(usize, u8),
    Fork(u8, u8),
    Tag(u8, u8),
    End(u8),
}

impl Item {
    // Whether the fields are in range, in an automaton of so many tags and records.
    fn in_range(self, tags: u8, count: u8) -> bool
        ensures { result ≡ in_range tags count self }
    {
        match self {
            Item::Range(lo, hi, next) => lo <= hi && next < count,
            Item::Mask(_, next) => next < count,
            Item::Fork(first, second) => first < count && second < count,
            Item::Tag(tag, next) => tag < tags && next < count,
            Item::End(answer) => answer <= 254,
        }
    }
}

// The HEAD, as its tags and count: edition 1, tags 0..8, count 1..64.
#[tactic(auto, using(std::proofs::lemmas::Bool::Decides::nat_tests), unfolding(ground::specs::Pick::pick, crate::specs::Items::head_of, crate::specs::Calls::head_shown))]
fn read_head(s: &[u8]) -> Result<(u8, u8), Refusal>
    ensures { result ≡ head_shown (head_of s.now) }
{
    if s.is_empty() {
        return Err(Refusal::NetShort);
    }
    if s[0] != HEAD {
        return Err(Refusal::NetKind);
    }
    if s.len() < 4 {
        return Err(Refusal::NetShort);
    }
    let tags = s[2];
    let count = s[3];
    if s[1] != EDITION || tags > 8 || !matches!(count, 1..=64) {
        return Err(Refusal::NetField);
    }
    Ok((tags, count))
}

// How many bytes a record of a kind has.
fn size_of(kind: u8) -> Result<usize, Refusal>
    ensures { result ≡ size_shown kind }
{
    match kind {
        RANGE => Ok(4),
        MASK => Ok(34),
        FORK | TAG => Ok(3),
        END => Ok(2),
        _ => Err(Refusal::NetKind),
    }
}

// The record at a place, which is whole.
#[tactic(auto, unfolding(crate::specs::Items::rec_at, crate::specs::Calls::item_shown))]
fn record_at(s: &[u8], at: usize) -> Item
    requires { at + size (get_or s.now at 0) ≤ length s.now }
    ensures { result ≡ item_shown at (rec_at s.now at) }
{
    match s[at] {
        RANGE => Item::Range(s[at + 1], s[at + 2], s[at + 3]),
        MASK => Item::Mask(at + 1, s[at + 33]),
        FORK => Item::Fork(s[at + 1], s[at + 2]),
        TAG => Item::Tag(s[at + 1], s[at + 2]),
        _ => Item::End(s[at + 1]),
    }
}

// The next record with the place after it, or the refusal that stops the reader.
#[tactic(auto, using(std::proofs::lemmas::Bool::Decides::nat_tests, crate::proofs::Reading::shown_range), unfolding(ground::specs::Pick::pick, crate::specs::Items::item_at, crate::specs::Items::body_at, crate::specs::Calls::shown))]
fn next_item(s: &[u8], at: usize, tags: u8, count: u8) -> Result<(Item, usize), Refusal>
    ensures { result ≡ shown at (item_at s.now at tags count) }
{
    if s.len() <= at {
        return Err(Refusal::NetShort);
    }
    let after = at + size_of(s[at])?;
    if s.len() < after {
        return Err(Refusal::NetShort);
    }
    let item = record_at(s, at);
    if !item.in_range(tags, count) {
        return Err(Refusal::NetField);
    }
    Ok((item, after))
}

// A file's tags, and the places of its records.
#[derive(Clone, Copy)]
pub struct Layout {
    pub tags: u8,
    pub count: usize,
    pub at: [usize; 64],
}

// The records are read in file order, and the place of each is kept. Inlined, so that a refusal neither clears nor hands on the places.
#[inline(always)]
pub fn places(net: &[u8]) -> Result<Layout, Refusal>
    ensures { LayoutOf net.now result }
{
    let (tags, count) = read_head(net)?;
    let n = usize::from(count);
    let mut found = [0usize; 64];
    let mut at = 4;
    for place in &mut found[..n] {
        *place = at;
        (_, at) = next_item(net, at, tags, count)?;
    }
    // nothing may stand behind the last record
    let end = net.len();
    if at < end {
        return Err(Refusal::NetExtra);
    }
    Ok(Layout {
        tags,
        count: n,
        at: found,
    })
}

// Whether a file is a legal automaton file, and its refusal if not.
#[tactic(auto, unfolding(crate::specs::Items::code_of))]
pub fn check(net: &[u8]) -> Result<(), Refusal>
    ensures { number_of result ≡ code_of (net_of net.now) }
{
    places(net)?;
    Ok(())
}

// Eight bytes as one word.
fn word(a: u8, b: u8, c: u8, d: u8, e: u8, f: u8, g: u8, h: u8) -> u64
    ensures { result ≡ ((((((a * 256 + b) * 256 + c) * 256 + d) * 256 + e) * 256 + f) * 256 + g) * 256 + h }
{
    u64::from_be_bytes([a, b, c, d, e, f, g, h])
}

// How many bits are set in the eight bytes at a place.
fn ones_at(s: &[u8], at: usize) -> u32
    requires { at + 8 ≤ length s.now }
    ensures { (result ≡ count_below 64 (bit_set (drop at s.now))) × (result ≤ 64) }
{
    let w = word(
        s[at],
        s[at + 1],
        s[at + 2],
        s[at + 3],
        s[at + 4],
        s[at + 5],
        s[at + 6],
        s[at + 7],
    );
    w.count_ones()
}

// How many bytes a MASK takes, by its 32 bytes: four words.
fn mask_count(bits: &[u8]) -> u32
    requires { length bits.now ≡ 32 }
    ensures { result ≡ count_below 256 (bit_set bits.now) }
{
    ones_at(bits, 0) + ones_at(bits, 8) + ones_at(bits, 16) + ones_at(bits, 24)
}

// How many bytes a RANGE takes.
#[tactic(auto, using(crate::proofs::Bits::range_counts))]
fn range_count(lo: u8, hi: u8) -> u32
    requires { lo ≤ hi }
    ensures { result ≡ count_below 256 (between lo hi) }
{
    u32::from(hi - lo) + 1
}

// How many of the 256 bytes the record of that number takes. The whole file is judged first.
pub fn byte_count(net: &[u8], index: usize) -> Result<u32, Refusal>
    ensures { counted result ≡ byte_count net.now index }
{
    let p = places(net)?;
    if p.count <= index {
        return Err(Refusal::NotBytes);
    }
    match record_at(net, p.at[index]) {
        Item::Range(lo, hi, _) => Ok(range_count(lo, hi)),
        Item::Mask(at, _) => Ok(mask_count(&net[at..at + 32])),
        _ => Err(Refusal::NotBytes),
    }
}
