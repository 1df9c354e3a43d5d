// Why a transformation or a camera is refused.
use std::error::Error;
use std::fmt;

/// Why a transformation or a camera is refused.
#[derive(Debug, Clone, Copy, PartialEq, Eq)]
pub enum FormFault {
    /// A transformation that has no inverse: a zero factor, a zero axis, a zero determinant.
    G1,
    /// An entry whose magnitude passes 2^47, which is 8388608 at 24 fraction bits.
    G2,
    /// A field of view that isn't above 0 and below 180 degrees, or whose tangent rounds to nothing.
    G3,
    /// A matrix whose fourth column isn't 0, 0, 0, 1.
    G4,
}

impl fmt::Display for FormFault {
    fn fmt<W: fmt::Write>(&self, f: &mut fmt::Formatter<W>) -> fmt::Result {
        write!(f, "{self:?}")
    }
}

impl Error for FormFault {}
