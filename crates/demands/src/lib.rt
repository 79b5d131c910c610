// The demands of document 01 as theorems: see proofs/. Nothing here is run.
#![tactic(auto)]

ghost use Rattle.std.specs.Prelude.{◌≡◌};

// How many demands there are.
pub fn demands() -> u8
    ensures { result ≡ 3 }
{
    3
}
