// The calls under C names, for tests, benchmarks and firmware: numbers and byte slices only.
#![tactic(auto)]

ghost use Rattle.std.specs.Prelude.{◌≡◌, ◌≤◌, length, get_or};
ghost use Rattle.ground.specs.Place.{place_of};
ghost use Rattle.field.specs.Field.{cut_of, code_of, bytes_of};
ghost use Rattle.net.specs.Count.{byte_count};
ghost use Rattle.reading.specs.Reading.{cut_by};
ghost use Rattle.card.specs.Judged.{Judged};
ghost use Rattle.run.specs.Runs.{told_of, Runs};
ghost use Rattle.image.specs.Image.{Mounts};
ghost use Rattle.ride.specs.Ride.{ridden};
ghost use Rattle.export.specs.Results.{told, made, built};
ghost use Rattle.build.specs.Build.{Builds};
ghost use Rattle.pattern.specs.Maker.{given, maker};
ghost use Rattle.export.specs.Copied.{Copies};

use answers::{OK, Refusal};
use build::Built;
use run::Match;

// The number of the field call on these values.
#[unsafe(no_mangle)]
pub extern "C" fn cv_field_code(line: &[u8], from: i16, to: i16) -> u8
    ensures { result ≡ code_of (cut_of (length line.now) (place_of from) (place_of to)) }
{
    field::field_code(line, from, to)
}

// A part that has room copied to the front of `out`; its length.
fn copy(part: &[u8], out: &mut [u8]) -> usize
    requires { length part.now ≤ length out.old }
    ensures { Copies part.now out.old out.new result }
{
    let end = part.len();
    out[..end].copy_from_slice(part);
    end
}

// The field call's part, copied to the front of `out` if it has room; the part's length.
#[unsafe(no_mangle)]
pub extern "C" fn cv_field(line: &[u8], from: i16, to: i16, out: &mut [u8]) -> usize
    ensures { Copies (bytes_of (cut_of (length line.now) (place_of from) (place_of to)) line.now) out.old out.new result }
{
    let part = field::field(line, from, to);
    if part.len() <= out.len() {
        return copy(part, out);
    }
    part.len()
}

// How many of the 256 bytes a record takes: the code, and the count beside it.
#[unsafe(no_mangle)]
pub extern "C" fn cv_count(net: &[u8], index: usize, count: &mut u32) -> u8
    ensures { (result ≡ (byte_count net.now index).code) × (count.new ≡ (byte_count net.now index).count) }
{
    let n = net::byte_count(net, index);
    *count = n.unwrap_or(0);
    answers::number(n)
}

// The number of a reading's part between two tags.
#[unsafe(no_mangle)]
pub extern "C" fn cv_reading_code(line: &[u8], places: &[i16; 8], a: u8, b: u8) -> u8
    ensures { result ≡ code_of (cut_by line.now places.now a b) }
{
    reading::code_of(line, *places, a, b)
}

// A reading's part between two tags, copied as the field call's is.
#[unsafe(no_mangle)]
pub extern "C" fn cv_reading(line: &[u8], places: &[i16; 8], a: u8, b: u8, out: &mut [u8]) -> usize
    ensures { Copies (bytes_of (cut_by line.now places.now a b) line.now) out.old out.new result }
{
    let part = reading::part_of(line, *places, a, b);
    if part.len() <= out.len() {
        return copy(part, out);
    }
    part.len()
}

// Judges any bytes: 0 for a table that is taken, 13 TABLE_FORM, 14 EMPTY_READ.
#[unsafe(no_mangle)]
pub extern "C" fn cv_load(table: &[u8]) -> u8
    ensures { Judged table.now result }
{
    answers::number(loader::load(table))
}

// What was told of a line, one by one: the code, and beside it the answer or 255 and the eight places, -1 for absent.
fn tell(r: Result<Match, Refusal>, answer: &mut u8, places: &mut [i16; 8]) -> u8
    ensures { told result answer.new places.new ≡ told_of r }
{
    let none = Match {
        answer: 255,
        places: [-1; 8],
    };
    let m = r.unwrap_or(none);
    let told = m.places;
    *answer = m.answer;
    *places = told;
    answers::number(r)
}

// A run of a table over a line: the code, and beside it the answer and the eight places.
#[unsafe(no_mangle)]
pub extern "C" fn cv_run(table: &[u8], line: &[u8], answer: &mut u8, places: &mut [i16; 8]) -> u8
    ensures { Runs table.now line.now (told result answer.new places.new) }
{
    tell(run::run(table, line), answer, places)
}

// A pattern text made into an automaton file: the code, and beside it the place of a fault and how many bytes were written.
#[unsafe(no_mangle)]
pub extern "C" fn cv_pattern(
    text: &[u8],
    out: &mut [u8],
    place: &mut usize,
    length: &mut usize,
) -> u8
    ensures { given (made result place.new length.new) out.new ≡ maker text.now out.old }
{
    match pattern::pattern(text, out) {
        Ok(n) => {
            *place = 0;
            *length = n;
            OK
        }
        Err(f) => {
            *place = f.place();
            *length = 0;
            u8::from(Refusal::from(f))
        }
    }
}

// A table built of an automaton file: the code, and beside it the table's bytes, its situations and its registers.
#[unsafe(no_mangle)]
pub extern "C" fn cv_build(
    net: &[u8],
    work: &mut [u8],
    out: &mut [u8],
    length: &mut usize,
    situations: &mut usize,
    registers: &mut usize,
) -> u8
    ensures { Builds net.now work.old out.old work.new out.new (built result length.new situations.new registers.new) }
{
    let b = build::build(net, work, out);
    let none = Built {
        length: 0,
        situations: 0,
        registers: 0,
    };
    let told = b.unwrap_or(none);
    *length = told.length;
    *situations = told.situations;
    *registers = told.registers;
    answers::number(b)
}

// A table judged once and written as an image that lines ride over: 257 numbers for each situation.
#[unsafe(no_mangle)]
pub extern "C" fn cv_mount(table: &[u8], image: &mut [u32]) -> u8
    ensures { Mounts table.now image.old image.new result }
{
    answers::number(image::mount(table, image))
}

// A run over an image: on the image that mounting wrote of a taken table it is the run of that table.
#[unsafe(no_mangle)]
pub extern "C" fn cv_ride(
    table: &[u8],
    image: &[u32],
    line: &[u8],
    answer: &mut u8,
    places: &mut [i16; 8],
) -> u8
    ensures { told result answer.new places.new ≡ ridden table.now image.now line.now }
{
    tell(ride::ride(table, image, line), answer, places)
}

// A ride of two lines in step, each as if alone: the codes and the answers in this order, and the places of each.
#[unsafe(no_mangle)]
pub extern "C" fn cv_ride_two(
    table: &[u8],
    image: &[u32],
    line: &[u8],
    other: &[u8],
    codes: &mut [u8; 2],
    answers: &mut [u8; 2],
    first: &mut [i16; 8],
    second: &mut [i16; 8],
)
    ensures { (told (get_or codes.new 0 0) (get_or answers.new 0 0) first.new ≡ ridden table.now image.now line.now) × (told (get_or codes.new 1 0) (get_or answers.new 1 0) second.new ≡ ridden table.now image.now other.now) }
{
    let r = ride::ride_two(table, image, line, other);
    let mut answer = 0;
    let mut beside = 0;
    let code = tell(r.first, &mut answer, first);
    let code_beside = tell(r.second, &mut beside, second);
    *codes = [code, code_beside];
    *answers = [answer, beside];
}
