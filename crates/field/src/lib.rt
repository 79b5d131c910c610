// The part of a line between two places, and the number that goes with it.
#![tactic(auto)]

ghost use Rattle.std.specs.Prelude.{◌≡◌, length};
ghost use Rattle.ground.specs.Place.{place_of};
ghost use Rattle.field.specs.Field.{cut_of, code_of, Handed};

use answers::Refusal;

// What two places cut out of a line, from the first to the second: the one judgement that both calls below go by.
pub fn between(len: usize, from: i16, to: i16) -> Result<(usize, usize), Refusal>
    ensures { result ≡ cut_of len (place_of from) (place_of to) }
{
    let Some(a) = ground::place_of(from) else {
        return Err(Refusal::FieldAbsent);
    };
    let Some(e) = ground::place_of(to) else {
        return Err(Refusal::FieldAbsent);
    };
    if e < a {
        return Err(Refusal::FieldBack);
    }
    if len < e {
        return Err(Refusal::FieldPast);
    }
    Ok((a, e))
}

// The number of the field call on these values.
pub fn field_code(line: &[u8], from: i16, to: i16) -> u8
    ensures { result ≡ code_of (cut_of (length line.now) (place_of from) (place_of to)) }
{
    answers::number(between(line.len(), from, to))
}

// That part of the caller's line, or the empty part at its start.
pub fn field(line: &[u8], from: i16, to: i16) -> &[u8]
    ensures { Handed line.entry (cut_of (length line.now) (place_of from) (place_of to)) result }
{
    match between(line.len(), from, to) {
        Ok((start, end)) => &line[start..end],
        Err(_) => &line[..0],
    }
}
