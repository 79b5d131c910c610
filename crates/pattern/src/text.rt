// The bytes of a pattern text.
ghost use Rattle.std.specs.Prelude.{◌≡◌};
ghost use Rattle.ground.specs.Pick as pick;
ghost use Rattle.pattern.specs.Reader.{stops};
ghost use Rattle.pattern.specs.Text.{number_of, IsRepeat};

// The byte at i, if the text has one.
pub fn byte_at(s: &[u8], i: usize) -> Option<u8>
    ensures { number_of result ≡ pick.look s.now i }
{
    s.get(i).copied()
}

// A byte that ends a sequence, or the end.
pub fn stops_at(c: Option<u8>) -> bool
    ensures { result ≡ stops (number_of c) }
{
    matches!(c, None | Some(b'|' | b')'))
}

// What `*`, `+` and `?` say of the atom before them.
#[derive(Clone, Copy)]
pub enum Repeat {
    Star,
    Plus,
    Query,
}

// Whether a byte repeats an atom, and how.
pub fn repeat_of(c: Option<u8>) -> Option<Repeat>
    ensures { IsRepeat (number_of c) result }
{
    match c {
        Some(b'*') => Some(Repeat::Star),
        Some(b'+') => Some(Repeat::Plus),
        Some(b'?') => Some(Repeat::Query),
        _ => None,
    }
}
