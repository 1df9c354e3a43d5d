// The faults of requests.
ghost use Rattle.std.specs.Prelude.{◌≡◌};
ghost use Rattle.rib_reader.specs.declared.faults.RibFault.TheVariants.{NoMemory as OutOfMemory};

use fixed_math::NoMemory;
use std::alloc::AllocFailed;
use std::error::Error;
use std::fmt;

/// The faults of requests, the lower one first where one request has several.
#[derive(Debug, Clone, Copy, PartialEq, Eq)]
pub enum RibCode {
    /// No request has this name.
    S1,
    /// It isn't supported.
    S2,
    /// Arguments or brackets that the request doesn't take.
    S3,
    /// A token that is neither declared nor an inline declaration.
    S4,
    /// A wrong number of numbers or strings.
    S5,
}

impl fmt::Display for RibCode {
    fn fmt<W: fmt::Write>(&self, f: &mut fmt::Formatter<W>) -> fmt::Result {
        write!(f, "{self:?}")
    }
}

impl Error for RibCode {}

/// Why there is no request list: the first fault, with the line of the request's name, or want of memory.
#[derive(Debug, Clone, Copy, PartialEq, Eq)]
pub enum RibFault {
    At { code: RibCode, line: u32 },
    NoMemory,
}

impl fmt::Display for RibFault {
    fn fmt<W: fmt::Write>(&self, f: &mut fmt::Formatter<W>) -> fmt::Result {
        match self {
            RibFault::At { code, line } => write!(f, "{code} in line {line}"),
            RibFault::NoMemory => NoMemory.fmt(f),
        }
    }
}

impl Error for RibFault {}

impl From<NoMemory> for RibFault {
    ghost from_gives = { λ _ e. e ≡ OutOfMemory };

    fn from(_: NoMemory) -> RibFault {
        RibFault::NoMemory
    }
}

impl<T: Drop> From<AllocFailed<T>> for RibFault {
    ghost from_gives = { λ _ e. e ≡ OutOfMemory };

    fn from(_: AllocFailed<T>) -> RibFault {
        RibFault::NoMemory
    }
}
