// The times of motions.
ghost use Rattle.std.specs.Prelude.{◌≡◌, ◌&&◌};
ghost use Rattle.std.specs.Ordering.{int_eq};
ghost use Rattle.moving_maps.specs.declared.times.Times.TheVariants.{Between as between};
ghost use Rattle.moving_maps.specs.Motion.{joined as joined_of};

use fixed_math::Num;

/// Between which times something moves.
#[derive(Debug, Clone, Copy, PartialEq, Eq)]
pub enum Times {
    /// It doesn't move.
    Still,
    /// It moves from one time to another.
    Between { from: Num, to: Num },
    /// Motions between different times are in force.
    Mixed,
}

/// Whether both times are the same.
fn are_same(a: Num, b: Num, c: Num, d: Num) -> bool
    ensures { result ≡ (int_eq a c && int_eq b d) }
{
    a.raw() == c.raw() && b.raw() == d.raw()
}

/// The times from `a` to `b`, where those from `c` to `d` are the same.
fn common(a: Num, b: Num, c: Num, d: Num) -> Times
    ensures { result ≡ joined_of (between a b) (between c d) }
{
    if are_same(a, b, c, d) {
        Times::Between { from: a, to: b }
    } else {
        Times::Mixed
    }
}

impl Times {
    /// The times of two motions together: equal ones are the same, and what stays adds none.
    pub fn joined(self, other: Times) -> Times
        ensures { result ≡ joined_of self other }
    {
        match self {
            Times::Still => other,
            Times::Between { from, to } => match other {
                Times::Still => self,
                Times::Between {
                    from: other_from,
                    to: other_to,
                } => common(from, to, other_from, other_to),
                Times::Mixed => Times::Mixed,
            },
            Times::Mixed => Times::Mixed,
        }
    }
}
