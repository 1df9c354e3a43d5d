// What bounds the drawing of a frame, and what is told of it.
ghost use Rattle.std.specs.Prelude.{◌≡◌};
ghost use Rattle.buckets.specs.declared.limits.DrawFault.TheVariants.{NoMemory as OutOfMemory, WriteFault};

use fixed_math::NoMemory;
use outside::Failed;
use std::error::Error;
use std::fmt;

/// The side of a bucket in pixels, 4 to 64, and the most points of the grids that are kept, 289 to 1,000,000.
#[derive(Clone, Copy)]
pub struct Limits {
    pub bucket: u32,
    pub grid_points: usize,
}

/// How many epochs frames took so far, the most points of grids that an epoch kept, and the most samples of a tile.
#[derive(Clone, Copy)]
pub struct Report {
    pub epochs: u64,
    pub most_points: u64,
    pub most_samples: u64,
}

/// Why a frame was not drawn to its end.
#[derive(Debug, Clone, Copy, PartialEq, Eq)]
pub enum DrawFault {
    /// The sink failed.
    WriteFault,
    NoMemory,
}

impl fmt::Display for DrawFault {
    fn fmt<W: fmt::Write>(&self, f: &mut fmt::Formatter<W>) -> fmt::Result {
        match self {
            DrawFault::WriteFault => write!(f, "write fault"),
            DrawFault::NoMemory => NoMemory.fmt(f),
        }
    }
}

impl Error for DrawFault {}

impl From<NoMemory> for DrawFault {
    ghost from_gives = { λ _ e. e ≡ OutOfMemory };

    fn from(_fault: NoMemory) -> DrawFault {
        DrawFault::NoMemory
    }
}

impl From<Failed> for DrawFault {
    ghost from_gives = { λ _ e. e ≡ WriteFault };

    fn from(_fault: Failed) -> DrawFault {
        DrawFault::WriteFault
    }
}
