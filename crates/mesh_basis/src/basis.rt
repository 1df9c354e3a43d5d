// The bases of bicubic patches, as weights.
ghost use Rattle.std.specs.Prelude.{◌≡◌};
ghost use Rattle.mesh_basis.specs.Bases.{sixths, one_at, weights, AreSmall};

use crate::blend::Weights;

/// The bases of bicubic patches (RenderMan Interface 3.2, section 5.2, `Basis`).
#[derive(Debug, Clone, Copy, PartialEq, Eq)]
pub enum Basis {
    Bezier,
    BSpline,
    CatmullRom,
    Hermite,
    Power,
}

/// The weights in sixths of four numbers.
fn sixths(first: i128, second: i128, third: i128, fourth: i128) -> Weights
    ensures { result ≡ sixths first second third fourth }
{
    Weights {
        first,
        second,
        third,
        fourth,
    }
}

/// The one at place `k`, the last one from 3 on.
fn one_at(k: usize, a: Weights, b: Weights, c: Weights, d: Weights) -> Weights
    requires small_a { AreSmall a }
    requires small_b { AreSmall b }
    requires small_c { AreSmall c }
    requires small_d { AreSmall d }
    ensures value { result ≡ one_at k a b c d }
    ensures small { AreSmall result }
{
    if k == 0 {
        a
    } else if k == 1 {
        b
    } else if k == 2 {
        c
    } else {
        d
    }
}

impl Basis {
    /// The weights in sixths of a row's four numbers in the Bezier number at place `k`, the last one from 3 on.
    pub(crate) fn weights(self, k: usize) -> Weights
        ensures value { result ≡ weights self k }
        ensures small { AreSmall result }
    {
        match self {
            Basis::Bezier => one_at(
                k,
                sixths(6, 0, 0, 0),
                sixths(0, 6, 0, 0),
                sixths(0, 0, 6, 0),
                sixths(0, 0, 0, 6),
            ),
            Basis::BSpline => one_at(
                k,
                sixths(1, 4, 1, 0),
                sixths(0, 4, 2, 0),
                sixths(0, 2, 4, 0),
                sixths(0, 1, 4, 1),
            ),
            Basis::CatmullRom => one_at(
                k,
                sixths(0, 6, 0, 0),
                sixths(-1, 6, 1, 0),
                sixths(0, 1, 6, -1),
                sixths(0, 0, 6, 0),
            ),
            Basis::Hermite => one_at(
                k,
                sixths(6, 0, 0, 0),
                sixths(6, 2, 0, 0),
                sixths(0, 0, 6, -2),
                sixths(0, 0, 6, 0),
            ),
            Basis::Power => one_at(
                k,
                sixths(0, 0, 0, 6),
                sixths(0, 0, 2, 6),
                sixths(0, 2, 4, 6),
                sixths(6, 6, 6, 6),
            ),
        }
    }
}
