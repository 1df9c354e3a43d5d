// Operations on two numbers as types, so that one generic loop goes over rows for each.
ghost use Rattle.std.specs.Prelude.{◌≡◌, ℤ};
ghost use Rattle.fixed_math.specs.Fixed.{add, sub, mul};
ghost use Rattle.lanes.specs.Kernels.{least, greatest};
ghost use Rattle.lanes.specs.Masks.{less, less_equal, equal, both, either};

use crate::{mask, raw};

/// An operation on two numbers.
pub(crate) trait Two {
    ghost formula: { ℤ → ℤ → ℤ };

    /// The operation's answer.
    fn apply(a: i32, b: i32) -> i32
        ensures { result ≡ formula a b };
}

/// The sum.
pub(crate) struct Add;

impl Two for Add {
    ghost formula = { add };

    #[inline(always)]
    fn apply(a: i32, b: i32) -> i32 {
        raw::add(a, b)
    }
}

/// The difference.
pub(crate) struct Subtract;

impl Two for Subtract {
    ghost formula = { sub };

    #[inline(always)]
    fn apply(a: i32, b: i32) -> i32 {
        raw::sub(a, b)
    }
}

/// The product.
pub(crate) struct Multiply;

impl Two for Multiply {
    ghost formula = { mul };

    #[inline(always)]
    fn apply(a: i32, b: i32) -> i32 {
        raw::mul(a, b)
    }
}

/// The lesser of two.
pub(crate) struct Least;

impl Two for Least {
    ghost formula = { least };

    #[inline(always)]
    fn apply(a: i32, b: i32) -> i32 {
        raw::min(a, b)
    }
}

/// The greater of two.
pub(crate) struct Greatest;

impl Two for Greatest {
    ghost formula = { greatest };

    #[inline(always)]
    fn apply(a: i32, b: i32) -> i32 {
        raw::max(a, b)
    }
}

/// The mask of `a < b`.
pub(crate) struct Less;

impl Two for Less {
    ghost formula = { less };

    #[inline(always)]
    fn apply(a: i32, b: i32) -> i32 {
        mask::less(a, b)
    }
}

/// The mask of `a <= b`.
pub(crate) struct LessEqual;

impl Two for LessEqual {
    ghost formula = { less_equal };

    #[inline(always)]
    fn apply(a: i32, b: i32) -> i32 {
        mask::less_equal(a, b)
    }
}

/// The mask of `a == b`.
pub(crate) struct Equal;

impl Two for Equal {
    ghost formula = { equal };

    #[inline(always)]
    fn apply(a: i32, b: i32) -> i32 {
        mask::equal(a, b)
    }
}

/// The mask that is set where both are.
pub(crate) struct And;

impl Two for And {
    ghost formula = { both };

    #[inline(always)]
    fn apply(a: i32, b: i32) -> i32 {
        mask::and(a, b)
    }
}

/// The mask that is set where one is.
pub(crate) struct Or;

impl Two for Or {
    ghost formula = { either };

    #[inline(always)]
    fn apply(a: i32, b: i32) -> i32 {
        mask::or(a, b)
    }
}
