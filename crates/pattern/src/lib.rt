// Pattern text to automaton.
#![tactic(auto)]

ghost use Rattle.std.specs.Prelude.{◌≡◌};
ghost use Rattle.pattern.specs.Maker.{given, maker};
ghost use Rattle.pattern.specs.Made.{made_of, place_of, refusal_of};

use answers::Refusal;

// The most bytes of a pattern text.
const BYTES: usize = 255;

// The most records of an automaton, its END among them.
const RECORDS: usize = 64;

// How many bytes HEAD and END are together.
const ENDS: usize = 6;

mod reading;
mod sets;
mod text;
mod writing;

// Why a text makes no automaton file: it is too long, is no pattern from a place on, opens a group too many at a place, has too many
// records, or more bytes than there is room for.
#[derive(Clone, Copy, PartialEq, Eq)]
pub enum Fault {
    Long,
    Form(usize),
    Deep(usize),
    Big,
    Small,
}

impl Fault {
    // The place in the text, for the faults that have one.
    pub fn place(self) -> usize
        ensures { result ≡ place_of self }
    {
        match self {
            Fault::Form(place) | Fault::Deep(place) => place,
            Fault::Long | Fault::Big | Fault::Small => 0,
        }
    }
}

impl From<Fault> for Refusal {
    ghost from_gives = { λ f e. e ≡ refusal_of f };

    fn from(f: Fault) -> Refusal {
        match f {
            Fault::Long => Refusal::PatternLong,
            Fault::Form(_) => Refusal::PatternForm,
            Fault::Deep(_) => Refusal::PatternDeep,
            Fault::Big => Refusal::PatternBig,
            Fault::Small => Refusal::OutSmall,
        }
    }
}

// How many bytes the automaton file of a pattern text is, written to the front of `out`, or what is refused in the text.
pub fn pattern(text: &[u8], out: &mut [u8]) -> Result<usize, Fault>
    ensures { given (made_of result) out.new ≡ maker text.now out.old }
{
    if BYTES < text.len() {
        return Err(Fault::Long);
    }
    let (end, sum) = reading::alternatives(text, 0, 0)?;
    if end < text.len() {
        return Err(Fault::Form(end));
    }
    if RECORDS <= sum.size {
        return Err(Fault::Big);
    }
    if out.len() < sum.width + ENDS {
        return Err(Fault::Small);
    }
    Ok(writing::put_file(text, out, sum, 0))
}
