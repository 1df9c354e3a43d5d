// The lower of two codes.
ghost use Rattle.std.specs.Prelude.{◌≡◌};
ghost use Rattle.rib_reader.specs.Rules.{rank, lower, when};

use crate::faults::RibCode;

fn place(code: RibCode) -> u8
    ensures { result ≡ rank code }
{
    match code {
        RibCode::S1 => 1,
        RibCode::S2 => 2,
        RibCode::S3 => 3,
        RibCode::S4 => 4,
        RibCode::S5 => 5,
    }
}

/// The lower code of two conditions.
pub fn lower_of(a: Option<RibCode>, b: Option<RibCode>) -> Option<RibCode>
    ensures { result ≡ lower a b }
{
    match (a, b) {
        (None, _) => b,
        (_, None) => a,
        (Some(first), Some(second)) => { if place(first) <= place(second) { a } else { b } }
    }
}

/// The code, where its condition stands.
pub fn code_when(stands: bool, code: RibCode) -> Option<RibCode>
    ensures { result ≡ when stands code }
{
    if stands { Some(code) } else { None }
}
