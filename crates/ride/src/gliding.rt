// The fast way over an image: entries of kind 0, none or one SET alone. The bank has 128 cells, so that both are one
// store; what lies past the 64 registers is never read.
ghost use Rattle.std.specs.Prelude.{◌≡◌, ◌≤◌, ◌<◌};
ghost use Rattle.card.specs.Run.{line_max};
ghost use Rattle.ride.specs.Need.{Glidable, Reached, Hopped};

// The least entry that is not of kind 0.
pub const LISTED: usize = 1073741824;

// The cell of no command: an entry that stays so is its row and this.
pub const IDLE: usize = 64;

// Where a line got to: the bytes taken, and the row of its situation.
#[derive(Clone, Copy)]
pub struct Reach {
    pub place: usize,
    pub row: usize,
}

// An entry taken if it glides: the next row. Else nothing is stored.
fn hop(e: usize, limit: usize, row: usize, place: usize, bank: &mut [i16; 128]) -> Option<usize>
    requires { (row < 32768) × (place ≤ line_max) }
    ensures { Hopped e limit row place bank.old bank.new result }
{
    if e == row + IDLE {
        return Some(row);
    }
    if LISTED <= e {
        return None;
    }
    let next = e / 256 % 128 * 256;
    if limit <= next {
        return None;
    }
    bank[e % 128] = ground::held(place);
    Some(next)
}

// As far as a line's entries are of kind 0 and lead to a row below the limit. An entry that is the row's place and 64
// stays without commands, and the next load does not wait for it; a byte's column is found before its row is known. That
// the row is one of the image's `ride_line` and `ride_both` show, from the first row on. The line, its place and its row are no
// struct: each call has others.
pub fn glide(
    image: &[u32],
    limit: usize,
    line: &[u8],
    from: usize,
    first: usize,
    bank: &mut [i16; 128],
) -> Reach
    requires { Glidable image.now limit line.now from first }
    ensures { Reached image.now line.now limit from first bank.old result.place result.row bank.new }
{
    let mut row = first;
    for place in from..line.len() {
        let column = &image[usize::from(line[place])..];
        let e = column[row] as usize;
        let Some(next) = hop(e, limit, row, place + 1, bank) else {
            return Reach { place, row };
        };
        row = next;
    }
    Reach {
        place: line.len(),
        row,
    }
}

// Two lines in step from their beginning on, until one of them ends or has an entry that does not glide. Both entries
// are loaded before either is taken, so that the loads overlap. That the image has a first row `ride_both` shows.
pub fn glide_two(
    image: &[u32],
    limit: usize,
    line: &[u8],
    other: &[u8],
    bank: &mut [i16; 128],
    beside: &mut [i16; 128],
) -> (Reach, Reach)
    requires { Glidable image.now limit line.now 0 0 × Glidable image.now limit other.now 0 0 }
    ensures { Reached image.now line.now limit 0 0 bank.old result.0.place result.0.row bank.new × Reached image.now other.now limit 0 0 beside.old result.1.place result.1.row beside.new }
{
    let until = line.len().min(other.len());
    let mut row: usize = 0;
    let mut row2: usize = 0;
    for i in 0..until {
        let column = &image[usize::from(line[i])..];
        let e = column[row] as usize;
        let column2 = &image[usize::from(other[i])..];
        let f = column2[row2] as usize;
        let Some(next) = hop(e, limit, row, i + 1, bank) else {
            return (
                Reach { place: i, row },
                Reach {
                    place: i,
                    row: row2,
                },
            );
        };
        row = next;
        let Some(next2) = hop(f, limit, row2, i + 1, beside) else {
            return (
                Reach { place: i + 1, row },
                Reach {
                    place: i,
                    row: row2,
                },
            );
        };
        row2 = next2;
    }
    (
        Reach { place: until, row },
        Reach {
            place: until,
            row: row2,
        },
    )
}
