// A table that is taken, written once as an image that lines ride over: a word for each situation and byte.
#![tactic(auto)]

mod sorts;

ghost use Rattle.std.specs.Prelude.{◌≡◌, ◌<◌, length};
ghost use Rattle.image.specs.Image.{entry, spot_at, entry_at, Imaged, Mounts};
ghost use Rattle.answers.specs.Refusals.{number_of};
ghost use Rattle.image.specs.Need.{kind_number, RowImaged, Mountable};

use answers::Refusal;
use sorts::Sort;

// Entries of a situation, and with its place its words.
const ENTRIES: usize = 256;

const WORDS: usize = 257;

// Where the rows stand in a situation of the table, and the commands in a row.
const ROWS: usize = 10;

const CMDS: usize = 4;

// What an entry points to, in two parts: the low bits and the others.
const LOW: usize = 1 << 8;

const OTHERS: usize = 1 << 15;

// An entry's numbers in their bits: below these the low part of what it points to, then the next situation, the other part, and
// the kind.
const NEXT: u32 = 1 << 8;

const HIGH: u32 = 1 << 15;

const KIND: u32 = 1 << 30;

// An entry of no row: to situation 0 without a command.
const NO_ROW: u32 = 64;

// The three numbers of an entry, each in its own bits; those of the last lie below and above the next situation.
#[tactic(auto, unfolding(crate::specs::Image::entry))]
fn packed(next: u8, sort: Sort) -> u32
    ensures { result ≡ entry next (kind_number sort.kind) sort.points }
{
    let low = (sort.points % LOW) as u32;
    let high = (sort.points / LOW % OTHERS) as u32;
    low + NEXT * u32::from(next % 128) + HIGH * high + KIND * (sort.kind as u32)
}

// The place of a byte's row, among the rows at a place.
#[tactic(auto, using(crate::proofs::Spots::spots), unfolding(ground::specs::Pick::pick))]
fn row_spot(s: &[u8], at: usize, b: usize) -> usize
    ensures { result ≡ spot_at s.now at b }
{
    let mut i = at;
    // A loop: rows differ in length, so the next place is known only after the row's commands.
    while let Some((_, hi, _)) = card::read_row(s, i) {
        if b <= usize::from(hi) {
            return i;
        }
        i = card::skip_cmds(s, i + CMDS);
    }
    s.len()
}

// The entry of the row at a place.
#[tactic(auto, using(run::proofs::Carrying::rows), unfolding(crate::specs::Image::entry_at))]
fn entry_at(s: &[u8], at: usize) -> u32
    ensures { result ≡ entry_at s.now at }
{
    let Some((_, _, next)) = card::read_row(s, at) else {
        return NO_ROW;
    };
    packed(next, sorts::list_sort(s, at + CMDS))
}

// The 256 entries of the situation whose rows stand at a place. Bytes rise, so each looks for its row from the row of the byte
// before it, and a row's entry is made once.
fn fill_row(s: &[u8], at: usize, row: &mut [u32])
    requires { length row.old ≡ 256 }
    ensures { RowImaged s.now at row.new }
{
    let mut i = at;
    let mut e = entry_at(s, at);
    for (b, word) in row.iter_mut().enumerate() {
        let p = row_spot(s, i, b);
        if p != i {
            i = p;
            e = entry_at(s, p);
        }
        *word = e;
    }
}

// The whole image: the entries of each situation, and after all of them the places of the situations.
fn write_image(s: &[u8], places: &[usize; 96], image: &mut [u32])
    requires { Mountable s.now places.now image.old }
    ensures { Imaged s.now image.old image.new }
{
    let count = card::sit_count(s);
    for (q, p) in places[..count].iter().enumerate() {
        let from = ENTRIES * q;
        fill_row(s, *p + ROWS, &mut image[from..from + ENTRIES]);
        image[ENTRIES * count + q] = *p as u32;
    }
}

// Judges a table and writes its image: 13 and 14 as the loader judges, 12 where the image has no room for 257 numbers a
// situation. A refusal leaves the image as it was.
pub fn mount(table: &[u8], image: &mut [u32]) -> Result<(), Refusal>
    ensures { Mounts table.now image.old image.new (number_of result) }
{
    let judged = loader::judge(table);
    judged.verdict?;
    if image.len() < WORDS * card::sit_count(table) {
        return Err(Refusal::OutSmall);
    }
    write_image(table, &judged.places, image);
    Ok(())
}
