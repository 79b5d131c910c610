// What the program prints, as bytes in a lent buffer.
#![tactic(auto)]

ghost use Rattle.std.specs.Prelude.{IfOk, ◌≡◌, [], ◌∷◌, ◌++◌, ◌+◌, ◌<◌, ◌≤◌, pos, length, get_or, drop};
ghost use Rattle.report.specs.Text.{digits, decimal, shown, Wrote};
ghost use Rattle.report.specs.Lines.{refused_line, refused_at, table_line, answer_line, spaced};
ghost use Rattle.report.specs.Printed.{lines, told_line, record_line, built_lines, fault_line, made_lines, Prints};
ghost use Rattle.report.specs.Steps.{line_length, room, Mounted, Records, Sound};
ghost use Rattle.ground.specs.Lists.{each};
ghost use Rattle.ground.specs.Place.{place_of};
ghost use Rattle.card.specs.Decode.{table_at};
ghost use Rattle.run.specs.Runs.{told_of};
ghost use Rattle.pattern.specs.Maker.{given};
ghost use Rattle.pattern.specs.Made.{made_of};
ghost use Rattle.pattern.specs.Made as pattern_made;
ghost use Rattle.build.specs.Build.{answered};

use answers::Refusal;
use build::Built;
use pattern::Fault;
use run::Match;

// The buffer and the place stay two parameters: of a struct that holds the buffer, each contract would also have to say that it
// still holds the same one.

// One byte at a place.
fn put_byte(out: &mut [u8], at: usize, b: u8) -> usize
    requires { at < length out.old }
    ensures { Wrote out.old out.new at result (b ∷ []) }
{
    out[at] = b;
    at + 1
}

// A number in decimal, of at most k digits.
fn put_digits(out: &mut [u8], at: usize, n: usize, k: usize) -> usize
    requires { at + k ≤ length out.old }
    ensures { Wrote out.old out.new at result (digits k n) }
{
    if k == 0 {
        return at;
    }
    if n < 10 {
        return put_byte(out, at, n as u8 + b'0');
    }
    let end = put_digits(out, at, n / 10, k - 1);
    put_byte(out, end, (n % 10) as u8 + b'0')
}

// A text at a place.
fn put_text(out: &mut [u8], at: usize, text: &[u8]) -> usize
    requires { at + length text.now ≤ length out.old }
    ensures { Wrote out.old out.new at result text.now }
{
    let end = at + text.len();
    out[at..end].copy_from_slice(text);
    end
}

// A position by what it says: its place, or -1.
#[tactic(auto, using(crate::proofs::Writing::digits_few))]
fn put_shown(out: &mut [u8], at: usize, p: Option<usize>) -> usize
    requires { at + 7 ≤ length out.old }
    ensures { Wrote out.old out.new at result (shown p) × (result ≤ at + 7) }
{
    match p {
        Some(n) => put_digits(out, at, n, 7),
        None => put_text(out, at, b"-1"),
    }
}

// A space, and then a position.
fn put_position(out: &mut [u8], at: usize, v: i16) -> usize
    requires { at + 8 ≤ length out.old }
    ensures { Wrote out.old out.new at result (spaced v) × (result ≤ at + 8) }
{
    let after = put_byte(out, at, b' ');
    put_shown(out, after, ground::place_of(v))
}

// A number in decimal.
#[tactic(auto, using(crate::proofs::Writing::digits_few))]
fn put_number(out: &mut [u8], at: usize, n: usize) -> usize
    requires { at + 7 ≤ length out.old }
    ensures { Wrote out.old out.new at result (decimal n) × (result ≤ at + 7) }
{
    put_digits(out, at, n, 7)
}

// A refusal by its number.
fn put_refused(out: &mut [u8], at: usize, code: u8) -> usize
    requires { at + 16 ≤ length out.old }
    ensures { Wrote out.old out.new at result (refused_line code) × (result ≤ at + 16) }
{
    let number = put_text(out, at, b"refused ");
    let end = put_number(out, number, usize::from(code));
    put_byte(out, end, b'\n')
}

// A refusal by its number and its place in the pattern.
fn put_refused_at(out: &mut [u8], at: usize, code: u8, place: usize) -> usize
    requires { at + 27 ≤ length out.old }
    ensures { Wrote out.old out.new at result (refused_at code place) }
{
    let number = put_text(out, at, b"refused ");
    let word = put_number(out, number, usize::from(code));
    let of = put_text(out, word, b" at ");
    let end = put_number(out, of, place);
    put_byte(out, end, b'\n')
}

// What was built: the table's bytes, its situations, its registers.
fn put_table(out: &mut [u8], at: usize, bytes: usize, sits: usize, regs: usize) -> usize
    requires { at + 51 ≤ length out.old }
    ensures { Wrote out.old out.new at result (table_line bytes sits regs) × (result ≤ at + 51) }
{
    let first = put_text(out, at, b"table ");
    let word = put_number(out, first, bytes);
    let second = put_text(out, word, b" situations ");
    let next = put_number(out, second, sits);
    let third = put_text(out, next, b" registers ");
    let end = put_number(out, third, regs);
    put_byte(out, end, b'\n')
}

// Eight positions, each after a space.
fn put_places(out: &mut [u8], at: usize, places: [i16; 8]) -> usize
    requires { at + 64 ≤ length out.old }
    ensures { Wrote out.old out.new at result (each spaced places) × (result ≤ at + 64) }
{
    let mut end = at;
    for v in places {
        end = put_position(out, end, v);
    }
    end
}

// The answer of a line and its positions.
fn put_answer(out: &mut [u8], at: usize, answer: u8, places: [i16; 8]) -> usize
    requires { at + 72 ≤ length out.old }
    ensures { Wrote out.old out.new at result (answer_line answer places) × (result ≤ at + 72) }
{
    let first = put_number(out, at, usize::from(answer));
    let end = put_places(out, first, places);
    put_byte(out, end, b'\n')
}

// ---- from the input to the lines

// Where the line at a place ends: at its byte 10, or with the input.
fn line_end(s: &[u8], from: usize) -> usize
    requires { from ≤ length s.now }
    ensures { (result ≡ from + line_length (drop from s.now)) × (result ≤ length s.now) }
{
    let rest = &s[from..];
    from + rest.iter().position(|b| *b == b'\n').unwrap_or(rest.len())
}

// What a run told of a record.
fn put_told(out: &mut [u8], at: usize, told: Result<Match, Refusal>) -> usize
    requires { at + 72 ≤ length out.old }
    ensures { Wrote out.old out.new at result (told_line (told_of told)) × (result ≤ at + 72) }
{
    match told {
        Ok(m) => put_answer(out, at, m.answer, m.places),
        Err(e) => put_refused(out, at, u8::from(e)),
    }
}

// A record: what a taken table tells of it, or that it is too long. A ride over the table's image says both.
fn put_record(out: &mut [u8], at: usize, table: &[u8], image: &[u32], line: &[u8]) -> usize
    requires at_in_bounds { at + 72 ≤ length out.old }
    requires mounted { Mounted table.now image.now }
    ensures { Wrote out.old out.new at result (record_line (table_at table.now) line.now) × (result ≤ at + 72) }
{
    let told = ride::ride(table, image, line);
    put_told(out, at, told)
}

// Two records, which ride in step.
fn put_two(
    out: &mut [u8],
    at: usize,
    table: &[u8],
    image: &[u32],
    line: &[u8],
    other: &[u8],
) -> usize
    requires at_in_bounds { at + 144 ≤ length out.old }
    requires mounted { Mounted table.now image.now }
    ensures { Wrote out.old out.new at result (record_line (table_at table.now) line.now ++ record_line (table_at table.now) other.now) × (result ≤ at + 144) }
{
    let told = ride::ride_two(table, image, line, other);
    let first = told.first;
    let second = told.second;
    let end = put_told(out, at, first);
    put_told(out, end, second)
}

// The records from a place on, two at a time; a last one may be alone.
fn put_records(
    out: &mut [u8],
    at: usize,
    table: &[u8],
    image: &[u32],
    input: &[u8],
    from: usize,
) -> usize
    requires { Records input.now table.now image.now from at (length out.old) }
    ensures { Wrote out.old out.new at result (each (record_line (table_at table.now)) (lines (drop from input.now))) }
{
    let mut end = at;
    let mut place = from;
    // A loop: lines differ in length, so the next place is known only after the line.
    while place < input.len() {
        let stop = line_end(input, place);
        let line = &input[place..stop];
        let next = stop + 1;
        if input.len() <= next {
            return put_record(out, end, table, image, line);
        }
        let last = line_end(input, next);
        let other = &input[next..last];
        end = put_two(out, end, table, image, line, other);
        place = last + 1;
    }
    end
}

// The table line and the records, or the builder's refusal alone. The table is judged and mounted once; its image has
// room for 96 situations.
fn put_built(
    out: &mut [u8],
    table: &[u8],
    built: Result<Built, Refusal>,
    input: &[u8],
    from: usize,
) -> usize
    requires room_in_bounds { (room ≤ length out.old) × (length input.now ≤ 65536) }
    requires sound { Sound (answered built) table.now }
    ensures { Wrote out.old out.new 0 result (built_lines (record { result = answered built; out = table.now }) (lines (drop from input.now))) }
{
    let b = match built {
        Ok(b) => b,
        Err(e) => return put_refused(out, 0, u8::from(e)),
    };
    let card = &table[..b.length];
    let mut image = [0u32; 24672];
    let _ = image::mount(card, &mut image);
    let at = put_table(out, 0, b.length, b.situations, b.registers);
    put_records(out, at, card, &image, input, from)
}

// A pattern's refusal, with its place where it has one.
#[tactic(auto, unfolding(crate::specs::Printed::fault_line, ground::specs::Pick::pick))]
fn put_fault(out: &mut [u8], fault: Fault) -> usize
    requires { 27 ≤ length out.old }
    ensures { Wrote out.old out.new 0 result (fault_line (pattern_made.code_of fault) (pattern_made.place_of fault)) }
{
    let code = u8::from(Refusal::from(fault));
    match fault {
        Fault::Form(place) | Fault::Deep(place) => put_refused_at(out, 0, code, place),
        Fault::Long | Fault::Big | Fault::Small => put_refused(out, 0, code),
    }
}

// What is printed once the pattern is made or refused.
fn put_made(
    out: &mut [u8],
    net: &[u8],
    made: Result<usize, Fault>,
    input: &[u8],
    from: usize,
) -> usize
    requires room_in_bounds { (room ≤ length out.old) × (length input.now ≤ 65536) }
    requires length_in_bounds { IfOk made (λ n. n ≤ length net.now) }
    ensures { Wrote out.old out.new 0 result (made_lines (given (made_of made) net.now) (lines (drop from input.now))) }
{
    let length = match made {
        Ok(length) => length,
        Err(fault) => return put_fault(out, fault),
    };
    let mut work = [0u8; 65536];
    let mut table = [0u8; 65536];
    let built = build::build(&net[..length], &mut work, &mut table);
    put_built(out, &table, built, input, from)
}

// All that the program prints for an input.
pub fn answer(input: &[u8], out: &mut [u8; 4718643]) -> usize
    ensures { Prints input.now out.old out.new result }
{
    if 65536 < input.len() {
        return put_text(out, 0, b"input over 65536\n");
    }
    let end = line_end(input, 0);
    let mut net = [0u8; 2148];
    let made = pattern::pattern(&input[..end], &mut net);
    put_made(out, &net, made, input, end + 1)
}
