// A reading holds its line and eight places, and answers for any two tags.
#![tactic(auto)]

ghost use Rattle.std.specs.Prelude.{◌≡◌};
ghost use Rattle.field.specs.Field.{code_of, Handed};
ghost use Rattle.reading.specs.Reading.{position_of, cut_by};

#[derive(Clone, Copy)]
pub struct Reading<'a> {
    pub line: &'a [u8],
    pub places: [i16; 8],
}

// The position of a tag; a tag above 7 counts as absent.
pub fn position(places: [i16; 8], tag: u8) -> i16
    ensures { result ≡ position_of places tag }
{
    places.get(usize::from(tag)).copied().unwrap_or(-1)
}

impl<'a> Reading<'a> {
    // A line is held with its eight places.
    pub fn hold(line: &'a [u8], places: [i16; 8]) -> Reading<'a>
        ensures { (result.line ≡ line.entry) × (result.places ≡ places) }
    {
        Reading { line, places }
    }

    // The part of the line between two tags.
    pub fn part(self, a: u8, b: u8) -> &'a [u8]
        ensures { Handed self.entry.line (cut_by self.entry.line.now self.entry.places a b) result }
    {
        let from = position(self.places, a);
        let to = position(self.places, b);
        field::field(self.line, from, to)
    }

    // Its number.
    pub fn code(self, a: u8, b: u8) -> u8
        ensures { result ≡ code_of (cut_by self.entry.line.now self.entry.places a b) }
    {
        let from = position(self.places, a);
        let to = position(self.places, b);
        field::field_code(self.line, from, to)
    }
}

// The same by plain parameters.
pub fn part_of(line: &[u8], places: [i16; 8], a: u8, b: u8) -> &[u8]
    ensures { Handed line.entry (cut_by line.now places a b) result }
{
    Reading::hold(line, places).part(a, b)
}

pub fn code_of(line: &[u8], places: [i16; 8], a: u8, b: u8) -> u8
    ensures { result ≡ code_of (cut_by line.now places a b) }
{
    Reading::hold(line, places).code(a, b)
}
