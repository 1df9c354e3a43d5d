// Why bytes aren't a texture.
ghost use Rattle.std.specs.Prelude.{◌≡◌};
ghost use Rattle.texture.specs.declared.fault.TextureFault.TheVariants.{NoMemory as OutOfMemory};

use fixed_math::NoMemory;
use std::alloc::{AllocError, AllocFailed};
use std::error::Error;
use std::fmt;

/// Why bytes aren't a texture.
#[derive(Debug, Clone, Copy, PartialEq, Eq)]
pub enum TextureFault {
    /// They aren't a texture file.
    X1,
    /// They are one with a side past 2,048.
    M11,
    /// Memory was wanting.
    NoMemory,
}

impl fmt::Display for TextureFault {
    fn fmt<W: fmt::Write>(&self, f: &mut fmt::Formatter<W>) -> fmt::Result {
        match self {
            TextureFault::NoMemory => NoMemory.fmt(f),
            code => write!(f, "{code:?}"),
        }
    }
}

impl Error for TextureFault {}

impl From<NoMemory> for TextureFault {
    ghost from_gives = { λ _ e. e ≡ OutOfMemory };

    fn from(_: NoMemory) -> TextureFault {
        TextureFault::NoMemory
    }
}

impl From<AllocError> for TextureFault {
    ghost from_gives = { λ _ e. e ≡ OutOfMemory };

    fn from(_: AllocError) -> TextureFault {
        TextureFault::NoMemory
    }
}

impl<T: Drop> From<AllocFailed<T>> for TextureFault {
    ghost from_gives = { λ _ e. e ≡ OutOfMemory };

    fn from(_: AllocFailed<T>) -> TextureFault {
        TextureFault::NoMemory
    }
}
