// Parameters, and pieces of a primitive made by halving.
ghost use Rattle.std.specs.Prelude.{◌≡◌, ◌≤◌, ◌<◌, ◌*◌, ◌+◌, ◌-◌, ◌^◌, ℕ};
ghost use Rattle.patches.specs.Parts.{Part, IsPart, whole_of};

use std::marker::Model;

/// A parameter from 0 to 1: a numerator of 0 to 4096, over 4096. Contracts see it as its numerator.
#[derive(Debug, Clone, Copy, PartialEq, Eq, Hash)]
pub struct Dyadic {
    numerator: u16,
}

impl Model for Dyadic {
    ghost Value = { ℕ };

    ghost view = { λ d. d.numerator };

    ghost invariant = { λ d. d.numerator ≤ 4096 };

    ghost inverse = { λ n. record { numerator = n } };
}

impl Default for Dyadic {
    ghost is_default = { λ d. d ≡ 0 };

    /// The parameter 0.
    fn default() -> Dyadic {
        Dyadic { numerator: 0 }
    }
}

impl Dyadic {
    /// The parameter `numerator / 4096`.
    pub fn new(numerator: u16) -> Dyadic
        requires { numerator ≤ 4096 }
        ensures { result ≡ numerator }
    {
        Dyadic { numerator }
    }

    /// The parameter times 4096.
    pub fn numerator(self) -> u16
        ensures value { result ≡ self }
        ensures bound { result ≤ 4096 }
    {
        self.numerator
    }
}

/// A part of a primitive's parameters, made by halving: of primitive `prim`, along u the part `i` of 2^`a` equal ones
/// and along v the part `j` of 2^`b`. `a` and `b` are at most 8, `i` is below 2^`a` and `j` below 2^`b`.
#[derive(Debug, Clone, Copy, PartialEq, Eq, Hash)]
pub struct Piece {
    pub prim: u32,
    pub a: u8,
    pub i: u16,
    pub b: u8,
    pub j: u16,
}

impl Model for Piece {
    ghost Value = { Part };

    ghost view = { λ p. record { prim = p.prim; a = p.a; i = p.i; b = p.b; j = p.j } };

    ghost invariant = { λ p. IsPart (record { prim = p.prim; a = p.a; i = p.i; b = p.b; j = p.j }) };

    ghost inverse = { λ p. record { prim = p.prim; a = p.a; i = p.i; b = p.b; j = p.j } };
}

impl Default for Piece {
    ghost is_default = { λ p. p ≡ whole_of 0 };

    /// The whole of the first primitive.
    fn default() -> Piece {
        Piece::whole(0)
    }
}

impl Piece {
    /// The whole of primitive `prim`, which isn't halved.
    pub fn whole(prim: u32) -> Piece
        ensures { result ≡ whole_of prim }
    {
        Piece {
            prim,
            a: 0,
            i: 0,
            b: 0,
            j: 0,
        }
    }

    /// Does nothing: a call tells a proof what holds of every piece.
    pub fn recall(&self)
        ensures { IsPart self.now }
    {
        let _depth = self.a;
    }
}

/// An interval of parameters, by numerators over 4096.
#[derive(Clone, Copy)]
pub(crate) struct Span {
    pub(crate) low: u16,
    pub(crate) high: u16,
    ghost ordered: { low ≤ high },
    ghost within: { high ≤ 4096 },
}

/// The part `i` of 2^`a` equal ones.
pub(crate) fn span_at(a: u8, i: u16) -> Span
    requires depth { a ≤ 8 }
    requires place { i < 2 ^ a }
    ensures low { result.low ≡ i * 2 ^ (12 - a) }
    ensures high { result.high ≡ (i + 1) * 2 ^ (12 - a) }
{
    let size: u16 = 1 << (12 - a);
    Span {
        low: i * size,
        high: (i + 1) * size,
    }
}
