// The laws of the builder's table: see proofs/. Nothing here is run.
#![tactic(auto)]

ghost use Rattle.std.specs.Prelude.{◌≡◌};

// The answer of a situation without an END.
pub fn no_answer() -> u8
    ensures { result ≡ 255 }
{
    255
}
