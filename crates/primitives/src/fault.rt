// Why a primitive has no patches.
ghost use Rattle.std.specs.Prelude.{◌≡◌};
ghost use Rattle.primitives.specs.declared.fault.PrimitiveFault.TheVariants.{NoMemory as OutOfMemory};

use fixed_math::NoMemory;
use scene_parts::StateCode;
use std::alloc::{AllocError, AllocFailed};
use std::error::Error;
use std::fmt;

/// Why a primitive has no patches: its first fault, or want of memory.
#[derive(Debug, Clone, Copy, PartialEq, Eq)]
pub enum PrimitiveFault {
    Refused(StateCode),
    NoMemory,
}

impl fmt::Display for PrimitiveFault {
    fn fmt<W: fmt::Write>(&self, f: &mut fmt::Formatter<W>) -> fmt::Result {
        match self {
            PrimitiveFault::Refused(code) => write!(f, "{code}"),
            PrimitiveFault::NoMemory => NoMemory.fmt(f),
        }
    }
}

impl Error for PrimitiveFault {}

impl From<NoMemory> for PrimitiveFault {
    ghost from_gives = { λ _ e. e ≡ OutOfMemory };

    fn from(_: NoMemory) -> PrimitiveFault {
        PrimitiveFault::NoMemory
    }
}

impl From<AllocError> for PrimitiveFault {
    ghost from_gives = { λ _ e. e ≡ OutOfMemory };

    fn from(_: AllocError) -> PrimitiveFault {
        PrimitiveFault::NoMemory
    }
}

impl<T: Drop> From<AllocFailed<T>> for PrimitiveFault {
    ghost from_gives = { λ _ e. e ≡ OutOfMemory };

    fn from(_: AllocFailed<T>) -> PrimitiveFault {
        PrimitiveFault::NoMemory
    }
}
