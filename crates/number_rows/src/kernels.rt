// Operations on the numbers of rows.
ghost use Rattle.std.specs.Prelude.{◌≡◌, ℤ, neg_ℤ};
ghost use Rattle.fixed_math.specs.Fixed as fixed;
ghost use Rattle.fixed_math.specs.Power as power;
ghost use Rattle.fixed_math.specs.Sine as sine;
ghost use Rattle.builtins.specs.Numbers as n;

use crate::raw::Raw;
use lanes::raw;

/// An operation on one number.
pub trait One {
    ghost formula: { ℤ → ℤ };

    fn apply(x: Raw) -> Raw
        ensures { result ≡ formula x };
}

/// An operation on two numbers.
pub trait Two {
    ghost formula: { ℤ → ℤ → ℤ };

    fn apply(x: Raw, y: Raw) -> Raw
        ensures { result ≡ formula x y };
}

/// An operation on three numbers.
pub trait Three {
    ghost formula: { ℤ → ℤ → ℤ → ℤ };

    fn apply(x: Raw, y: Raw, z: Raw) -> Raw
        ensures { result ≡ formula x y z };
}

pub(crate) struct Negate;

impl One for Negate {
    ghost formula = { neg_ℤ };

    #[inline(always)]
    fn apply(x: Raw) -> Raw {
        Raw::of(x.number().neg())
    }
}

pub(crate) struct Abs;

impl One for Abs {
    ghost formula = { n.abs };

    #[inline(always)]
    fn apply(x: Raw) -> Raw {
        Raw::of(builtins::abs(x.number()))
    }
}

pub(crate) struct Sign;

impl One for Sign {
    ghost formula = { n.sign };

    #[inline(always)]
    fn apply(x: Raw) -> Raw {
        Raw::of(builtins::sign(x.number()))
    }
}

pub(crate) struct Floor;

impl One for Floor {
    ghost formula = { n.floor };

    #[inline(always)]
    fn apply(x: Raw) -> Raw {
        Raw::of(builtins::floor(x.number()))
    }
}

pub(crate) struct Ceil;

impl One for Ceil {
    ghost formula = { n.ceil };

    #[inline(always)]
    fn apply(x: Raw) -> Raw {
        Raw::of(builtins::ceil(x.number()))
    }
}

pub(crate) struct Round;

impl One for Round {
    ghost formula = { n.round };

    #[inline(always)]
    fn apply(x: Raw) -> Raw {
        Raw::of(builtins::round(x.number()))
    }
}

pub(crate) struct Sine;

impl One for Sine {
    ghost formula = { sine.sin };

    #[inline(always)]
    fn apply(x: Raw) -> Raw {
        Raw::from_bits(raw::sin(x.bits()))
    }
}

pub(crate) struct Cosine;

impl One for Cosine {
    ghost formula = { sine.cos };

    #[inline(always)]
    fn apply(x: Raw) -> Raw {
        Raw::from_bits(raw::cos(x.bits()))
    }
}

pub(crate) struct Tangent;

impl One for Tangent {
    ghost formula = { n.tan };

    #[inline(always)]
    #[tactic(auto, unfolding(builtins::specs::Numbers::tan))]
    fn apply(x: Raw) -> Raw {
        Raw::from_bits(raw::div(raw::sin(x.bits()), raw::cos(x.bits())))
    }
}

pub(crate) struct Root;

impl One for Root {
    ghost formula = { fixed.sqrt };

    #[inline(always)]
    fn apply(x: Raw) -> Raw {
        Raw::from_bits(raw::sqrt(x.bits()))
    }
}

pub(crate) struct InverseRoot;

impl One for InverseRoot {
    ghost formula = { n.inversesqrt };

    #[inline(always)]
    #[tactic(auto, unfolding(builtins::specs::Numbers::inversesqrt))]
    fn apply(x: Raw) -> Raw {
        Raw::from_bits(raw::div(65536, raw::sqrt(x.bits())))
    }
}

pub(crate) struct Exponential;

impl One for Exponential {
    ghost formula = { power.exp };

    #[inline(always)]
    fn apply(x: Raw) -> Raw {
        Raw::from_bits(raw::exp2(raw::mul(x.bits(), 94548)))
    }
}

pub(crate) struct Logarithm;

impl One for Logarithm {
    ghost formula = { n.log };

    #[inline(always)]
    #[tactic(auto, unfolding(builtins::specs::Numbers::log))]
    fn apply(x: Raw) -> Raw {
        Raw::from_bits(raw::mul(raw::log2(x.bits()), 45426))
    }
}

pub(crate) struct Radians;

impl One for Radians {
    ghost formula = { n.radians };

    #[inline(always)]
    fn apply(x: Raw) -> Raw {
        Raw::of(builtins::radians(x.number()))
    }
}

pub(crate) struct Degrees;

impl One for Degrees {
    ghost formula = { n.degrees };

    #[inline(always)]
    fn apply(x: Raw) -> Raw {
        Raw::of(builtins::degrees(x.number()))
    }
}

/// The sum.
pub struct Add;

impl Two for Add {
    ghost formula = { fixed.add };

    #[inline(always)]
    fn apply(x: Raw, y: Raw) -> Raw {
        Raw::from_bits(raw::add(x.bits(), y.bits()))
    }
}

pub(crate) struct Subtract;

impl Two for Subtract {
    ghost formula = { fixed.sub };

    #[inline(always)]
    fn apply(x: Raw, y: Raw) -> Raw {
        Raw::from_bits(raw::sub(x.bits(), y.bits()))
    }
}

/// The product.
pub struct Multiply;

impl Two for Multiply {
    ghost formula = { fixed.mul };

    #[inline(always)]
    fn apply(x: Raw, y: Raw) -> Raw {
        Raw::from_bits(raw::mul(x.bits(), y.bits()))
    }
}

pub(crate) struct Divide;

impl Two for Divide {
    ghost formula = { fixed.div };

    #[inline(always)]
    fn apply(x: Raw, y: Raw) -> Raw {
        Raw::from_bits(raw::div(x.bits(), y.bits()))
    }
}

pub(crate) struct Least;

impl Two for Least {
    ghost formula = { n.min };

    #[inline(always)]
    fn apply(x: Raw, y: Raw) -> Raw {
        Raw::of(builtins::min(x.number(), y.number()))
    }
}

pub(crate) struct Greatest;

impl Two for Greatest {
    ghost formula = { n.max };

    #[inline(always)]
    fn apply(x: Raw, y: Raw) -> Raw {
        Raw::of(builtins::max(x.number(), y.number()))
    }
}

pub(crate) struct Remainder;

impl Two for Remainder {
    ghost formula = { n.modulo };

    #[inline(always)]
    fn apply(x: Raw, y: Raw) -> Raw {
        Raw::of(builtins::modulo(x.number(), y.number()))
    }
}

/// The first to the power of the second.
pub struct Power;

impl Two for Power {
    ghost formula = { power.pow };

    #[inline(always)]
    fn apply(x: Raw, y: Raw) -> Raw {
        Raw::from_bits(raw::pow(x.bits(), y.bits()))
    }
}

/// 0 where the second is below the first, else 1.
pub struct Step;

impl Two for Step {
    ghost formula = { n.step };

    #[inline(always)]
    fn apply(x: Raw, y: Raw) -> Raw {
        Raw::of(builtins::step(x.number(), y.number()))
    }
}

pub(crate) struct Clamped;

impl Three for Clamped {
    ghost formula = { n.clamp };

    #[inline(always)]
    fn apply(x: Raw, y: Raw, z: Raw) -> Raw {
        Raw::of(builtins::clamp(x.number(), y.number(), z.number()))
    }
}

pub(crate) struct Mixed;

impl Three for Mixed {
    ghost formula = { n.mix };

    #[inline(always)]
    #[tactic(auto, unfolding(builtins::specs::Numbers::mix))]
    fn apply(x: Raw, y: Raw, z: Raw) -> Raw {
        let rest = raw::sub(65536, z.bits());
        Raw::from_bits(raw::add(raw::mul(x.bits(), rest), raw::mul(y.bits(), z.bits())))
    }
}

/// From 0 below the first to 1 from the second on, smoothly.
pub struct SmoothStep;

impl Three for SmoothStep {
    ghost formula = { n.smoothstep };

    #[inline(always)]
    fn apply(x: Raw, y: Raw, z: Raw) -> Raw {
        Raw::of(builtins::smoothstep(x.number(), y.number(), z.number()))
    }
}
