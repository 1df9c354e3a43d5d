// What stops the joining of parts.
ghost use Rattle.std.specs.Prelude.{◌≡◌};
ghost use Rattle.part_files.specs.declared.stop.JoinStop.TheVariants.{NoMemory as OutOfMemory};

use crate::cause::JoinCause;
use fixed_math::NoMemory;
use std::alloc::{AllocError, AllocFailed};
use std::error::Error;
use std::fmt;

/// What stops the joining of parts.
#[derive(Clone, Copy, Debug, PartialEq, Eq)]
pub enum JoinStop {
    /// The parts can't be joined.
    Cause(JoinCause),
    /// The library failed.
    ReadFault,
    NoMemory,
}

impl fmt::Display for JoinStop {
    fn fmt<W: fmt::Write>(&self, f: &mut fmt::Formatter<W>) -> fmt::Result {
        match self {
            JoinStop::Cause(cause) => write!(f, "{cause}"),
            JoinStop::ReadFault => write!(f, "the library failed"),
            JoinStop::NoMemory => NoMemory.fmt(f),
        }
    }
}

impl Error for JoinStop {}

impl From<NoMemory> for JoinStop {
    ghost from_gives = { λ _ e. e ≡ OutOfMemory };

    fn from(_: NoMemory) -> JoinStop {
        JoinStop::NoMemory
    }
}

impl From<AllocError> for JoinStop {
    ghost from_gives = { λ _ e. e ≡ OutOfMemory };

    fn from(_: AllocError) -> JoinStop {
        JoinStop::NoMemory
    }
}

impl<T: Drop> From<AllocFailed<T>> for JoinStop {
    ghost from_gives = { λ _ e. e ≡ OutOfMemory };

    fn from(_: AllocFailed<T>) -> JoinStop {
        JoinStop::NoMemory
    }
}
