// Why points are no patches.
ghost use Rattle.std.specs.Prelude.{◌≡◌};
ghost use Rattle.mesh_basis.specs.declared.fault.MeshFault.TheVariants.{NoMemory as OutOfMemory};

use fixed_math::NoMemory;
use std::alloc::{AllocError, AllocFailed};
use std::error::Error;
use std::fmt;

/// Why points are no patches, the first one of these.
#[derive(Debug, Clone, Copy, PartialEq, Eq)]
pub enum MeshFault {
    /// A number of points that the shape doesn't have, or a shape that isn't made of whole patches.
    G5,
    /// A raw coordinate of a point, or of a control point that is made of them, whose magnitude passes 2^30.
    M7,
    /// Want of memory.
    NoMemory,
}

impl fmt::Display for MeshFault {
    fn fmt<W: fmt::Write>(&self, f: &mut fmt::Formatter<W>) -> fmt::Result {
        match self {
            MeshFault::NoMemory => NoMemory.fmt(f),
            code => write!(f, "{code:?}"),
        }
    }
}

impl Error for MeshFault {}

impl From<AllocError> for MeshFault {
    ghost from_gives = { λ _ e. e ≡ OutOfMemory };

    fn from(_: AllocError) -> MeshFault {
        MeshFault::NoMemory
    }
}

impl<T: Drop> From<AllocFailed<T>> for MeshFault {
    ghost from_gives = { λ _ e. e ≡ OutOfMemory };

    fn from(_: AllocFailed<T>) -> MeshFault {
        MeshFault::NoMemory
    }
}
