// Small helpers that every crate shares.
#![tactic(auto)]

ghost use Rattle.std.specs.Prelude.{◌≡◌, ◌≤◌, pos};
ghost use Rattle.ground.specs.Place.{place_max, place_of};

// A place as a position. The cast loses nothing, at 32767 either. That the place is no larger is shown by whoever counted to it.
pub fn held(place: usize) -> i16
    requires { place ≤ place_max }
    ensures { result ≡ pos place }
{
    place as i16
}

// A position taken for what it says, a place as an index or nothing: the only function that looks at a sign.
pub fn place_of(v: i16) -> Option<usize>
    ensures { result ≡ place_of v }
{
    usize::try_from(v).ok()
}
