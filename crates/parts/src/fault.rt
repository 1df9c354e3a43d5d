// Why parts can't be joined.
ghost use Rattle.std.specs.Prelude.{◌≡◌};
ghost use Rattle.parts.specs.declared.fault.JoinFault.TheVariants.{NoMemory as OutOfMemory};

use fixed_math::NoMemory;
use std::alloc::{AllocError, AllocFailed};
use std::error::Error;
use std::fmt;

/// Why parts can't be joined.
#[derive(Debug, Clone, Copy, PartialEq, Eq)]
pub enum JoinFault {
    /// The text of that number isn't a part's: the first such text.
    J1 { part: u32 },
    /// The header of that part differs from that of the first in its size, its greatest number, its side or its tag: the first such part.
    J2 { part: u32 },
    /// That bucket of that part stood in an earlier part: the first such part, and its least such bucket.
    J3 { part: u32, bucket: u32 },
    /// No part has that bucket: the least such.
    J4 { bucket: u32 },
    /// Memory was wanting.
    NoMemory,
}

impl fmt::Display for JoinFault {
    fn fmt<W: fmt::Write>(&self, f: &mut fmt::Formatter<W>) -> fmt::Result {
        match self {
            JoinFault::J1 { part } => write!(f, "J1 in part {part}"),
            JoinFault::J2 { part } => write!(f, "J2 in part {part}"),
            JoinFault::J3 { part, bucket } => write!(f, "J3 in part {part}, bucket {bucket}"),
            JoinFault::J4 { bucket } => write!(f, "J4, bucket {bucket}"),
            JoinFault::NoMemory => NoMemory.fmt(f),
        }
    }
}

impl Error for JoinFault {}

impl From<NoMemory> for JoinFault {
    ghost from_gives = { λ _ e. e ≡ OutOfMemory };

    fn from(_: NoMemory) -> JoinFault {
        JoinFault::NoMemory
    }
}

impl From<AllocError> for JoinFault {
    ghost from_gives = { λ _ e. e ≡ OutOfMemory };

    fn from(_: AllocError) -> JoinFault {
        JoinFault::NoMemory
    }
}

impl<T: Drop> From<AllocFailed<T>> for JoinFault {
    ghost from_gives = { λ _ e. e ≡ OutOfMemory };

    fn from(_: AllocFailed<T>) -> JoinFault {
        JoinFault::NoMemory
    }
}
