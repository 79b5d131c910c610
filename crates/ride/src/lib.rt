// A load-once run: lines ride over the image that `image::mount` writes of a table.
#![tactic(auto)]

mod gliding;

ghost use Rattle.std.specs.Prelude.{◌≡◌, ◌≤◌, ◌<◌, ◌*◌, false, length, MatchOption};
ghost use Rattle.card.specs.Decode.{cmds_at};
ghost use Rattle.card.specs.Run.{line_max};
ghost use Rattle.run.specs.Carry.{carry};
ghost use Rattle.run.specs.Runs.{told_of};
ghost use Rattle.ride.specs.Ride.{only_sets, end_at, fitting, rides_from, started, ridden};
ghost use Rattle.ride.specs.Need.{Obeyed, regs, left, ended, Ends, Glidable, Fits};

use answers::Refusal;
use card::Order;
use gliding::{IDLE, LISTED};
use run::{Match, lists};

// The longest line.
const LINE_MAX: usize = 32767;

// An entry's kind, by its two highest bits: the numbers of a block, the place of a list of SETs. Kind 3 is the place of any list.
const BLOCK: usize = 1;

const SETS: usize = 2;

// What is told of two lines.
#[derive(Clone, Copy)]
pub struct Two {
    pub first: Result<Match, Refusal>,
    pub second: Result<Match, Refusal>,
}

// The SETs that the list at a place begins with. They read no register, so they need no old bank.
fn set_list(s: &[u8], at: usize, place: usize, bank: &mut [i16; 128])
    requires { place ≤ line_max }
    ensures { bank.new ≡ carry (only_sets (cmds_at s.now at)) place bank.old bank.old }
{
    let v = ground::held(place);
    let mut i = at;
    // A loop: the list ends at the first command that is no SET.
    while let Order::Put(to) = card::read_cmd(s, i) {
        bank[to] = v;
        i += 2;
    }
}

// The commands of an entry that is not of kind 0, which `ride_rest` tests, carried out; false for numbers that name no
// block or a list that stands past the table's end.
fn obey(s: &[u8], e: usize, place: usize, bank: &mut [i16; 128]) -> bool
    requires { (1073741824 ≤ e) × (place ≤ line_max) }
    ensures { Obeyed s.now e place bank.old bank.new result }
{
    let kind = e / LISTED;
    let at = e % 256 + 256 * (e / 32768 % 32768);
    // `if`s: of the kinds that name a list the place is tested first.
    if kind == BLOCK {
        return blocks::obey_block(at, place, bank);
    }
    // where the list of commands begins
    let list = at;
    if s.len() <= list {
        return false;
    }
    if kind == SETS {
        set_list(s, at, place, bank);
    } else {
        lists::carry_list(s, at, place, bank);
    }
    true
}

// What the situation at a place tells.
fn tell(s: &[u8], at: usize, bank: &[i16; 128]) -> Result<Match, Refusal>
    requires { at < 4294967296 }
    ensures { told_of result ≡ end_at s.now (regs bank.now) at }
{
    if s.len() < at + 10 {
        return Err(Refusal::TableForm);
    }
    let answer = s[at + 1];
    if answer == 255 {
        return Err(Refusal::NoMatch);
    }
    let places = run::fields_at(s, at + 2, bank);
    Ok(Match { answer, places })
}

// A table, and an image with room for the situations that its HEAD counts.
#[derive(Clone, Copy)]
struct Mount<'a> {
    table: &'a [u8],
    image: &'a [u32],
    count: usize,
    ghost fits: { Fits table.now image.now count },
}

impl<'a> Mount<'a> {
    // None if the HEAD counts no situation or the image is too short for those that it counts.
    fn of(table: &'a [u8], image: &'a [u32]) -> Option<Mount<'a>>
        ensures { MatchOption result (fitting table.now (length image.now) ≡ false) (λ m. (m.table.now ≡ table.now) × (m.image.now ≡ image.now)) }
    {
        let count = card::sit_count(table);
        if count == 0 || image.len() < 257 * count {
            return None;
        }
        Some(Mount {
            table,
            image,
            count,
        })
    }

    // The rest of a line from a place and a row on, whatever its entries say: the row where it ends, or none for an entry
    // that leads astray. Where a situation leads to itself the row stays, so that the next load does not wait for this one.
    fn ride_rest(
        &self,
        line: &[u8],
        from: usize,
        first: usize,
        bank: &mut [i16; 128],
    ) -> Option<usize>
        requires { Glidable self.now.image.now (256 * self.now.count) line.now from first }
        ensures { (ended self.now.table.now self.now.image.now result bank.new ≡ left self.now.table.now self.now.image.now first bank.old from line.now) × Ends self.now.image.now (256 * self.now.count) result }
    {
        // a local, which the loop then does not load again for each byte
        let image = self.image;
        let limit = 256 * self.count;
        let mut row = first;
        for i in from..line.len() {
            let e = image[row + usize::from(line[i])] as usize;
            if e != row + IDLE {
                let next = e / 256 % 128 * 256;
                if next != row {
                    // a row past the image is none
                    let onward = next;
                    if limit <= onward {
                        return None;
                    }
                    row = next;
                }
                if e < LISTED {
                    bank[e % 128] = ground::held(i + 1);
                } else if !obey(self.table, e, i + 1, bank) {
                    return None;
                }
            }
        }
        Some(row)
    }

    // What is told where a line ended. The two hints: with them two lines in step take 1.01 of the time that they took as free
    // functions over a table, an image and a count, and without them 1.05.
    #[inline(always)]
    fn told(&self, row: Option<usize>, bank: &[i16; 128]) -> Result<Match, Refusal>
        requires { Ends self.now.image.now (256 * self.now.count) row }
        ensures { told_of result ≡ ended self.now.table.now self.now.image.now row bank.now }
    {
        let Some(row) = row else {
            return Err(Refusal::TableForm);
        };
        let at = self.image[256 * self.count + row / 256] as usize;
        tell(self.table, at, bank)
    }

    // What is told of a line from a place and a row on.
    #[inline(never)]
    fn finish(
        &self,
        line: &[u8],
        from: usize,
        first: usize,
        bank: &mut [i16; 128],
    ) -> Result<Match, Refusal>
        requires { Glidable self.now.image.now (256 * self.now.count) line.now from first }
        ensures { told_of result ≡ left self.now.table.now self.now.image.now first bank.old from line.now }
    {
        let row = self.ride_rest(line, from, first, bank);
        self.told(row, bank)
    }

    // A line alone. Most lines glide from end to end; the others go on from where they stopped.
    fn ride_line(&self, line: &[u8]) -> Result<Match, Refusal>
        requires { length line.now ≤ line_max }
        ensures { told_of result ≡ rides_from self.now.table.now self.now.image.now 0 (started self.now.table.now) 0 line.now }
    {
        let mut bank = [-1i16; 128];
        set_list(self.table, 5, 0, &mut bank);
        let g = gliding::glide(self.image, 256 * self.count, line, 0, 0, &mut bank);
        let row = if g.place < line.len() {
            self.ride_rest(line, g.place, g.row, &mut bank)
        } else {
            Some(g.row)
        };
        self.told(row, &bank)
    }

    // Two lines in step, as far as both glide, so that their loads overlap; then the rest of each. Most end gliding, which
    // one test says of both.
    fn ride_both(&self, line: &[u8], other: &[u8]) -> Two
        requires { (length line.now ≤ line_max) × (length other.now ≤ line_max) }
        ensures { (told_of result.first ≡ rides_from self.now.table.now self.now.image.now 0 (started self.now.table.now) 0 line.now) × (told_of result.second ≡ rides_from self.now.table.now self.now.image.now 0 (started self.now.table.now) 0 other.now) }
    {
        let mut bank = [-1i16; 128];
        set_list(self.table, 5, 0, &mut bank);
        let mut beside = [-1i16; 128];
        set_list(self.table, 5, 0, &mut beside);
        let limit = 256 * self.count;
        let (a, b) = gliding::glide_two(self.image, limit, line, other, &mut bank, &mut beside);
        let x = gliding::glide(self.image, limit, line, a.place, a.row, &mut bank);
        let y = gliding::glide(self.image, limit, other, b.place, b.row, &mut beside);
        if x.place + y.place < line.len() + other.len() {
            let first = self.finish(line, x.place, x.row, &mut bank);
            let second = self.finish(other, y.place, y.row, &mut beside);
            return Two { first, second };
        }
        let first = self.told(Some(x.row), &bank);
        let second = self.told(Some(y.row), &beside);
        Two { first, second }
    }

    // A line alone beside one that is too long.
    fn ride_beside(&self, line: &[u8]) -> Result<Match, Refusal>
        ensures { told_of result ≡ ridden self.now.table.now self.now.image.now line.now }
    {
        if LINE_MAX < line.len() {
            return Err(Refusal::LineLong);
        }
        let mut bank = [-1i16; 128];
        set_list(self.table, 5, 0, &mut bank);
        self.finish(line, 0, 0, &mut bank)
    }
}

// What the table tells of a line, by its image: for a mounted image of a taken table, what `run::run` tells.
// Any bytes and any image are answered; an entry that points outside is TABLE_FORM.
pub fn ride(table: &[u8], image: &[u32], line: &[u8]) -> Result<Match, Refusal>
    ensures { told_of result ≡ ridden table.now image.now line.now }
{
    let Some(mount) = Mount::of(table, image) else {
        return Err(Refusal::TableForm);
    };
    if LINE_MAX < line.len() {
        return Err(Refusal::LineLong);
    }
    mount.ride_line(line)
}

// What the table tells of two lines, by its image: of each what `ride` tells of it.
pub fn ride_two(table: &[u8], image: &[u32], line: &[u8], other: &[u8]) -> Two
    ensures { (told_of result.first ≡ ridden table.now image.now line.now) × (told_of result.second ≡ ridden table.now image.now other.now) }
{
    let Some(mount) = Mount::of(table, image) else {
        let first = Err(Refusal::TableForm);
        let second = Err(Refusal::TableForm);
        return Two { first, second };
    };
    if LINE_MAX < line.len() {
        let first = Err(Refusal::LineLong);
        let second = mount.ride_beside(other);
        return Two { first, second };
    }
    if LINE_MAX < other.len() {
        let first = mount.ride_beside(line);
        let second = Err(Refusal::LineLong);
        return Two { first, second };
    }
    mount.ride_both(line, other)
}
