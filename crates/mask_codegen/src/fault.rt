// Why a tree has no code.
ghost use Rattle.std.specs.Prelude.{◌≡◌};
ghost use Rattle.mask_codegen.specs.declared.fault.CodeFault.TheVariants.{NoMemory as OutOfMemory};

use fixed_math::NoMemory;
use std::error::Error;
use std::fmt;

/// Why a tree has no code.
#[derive(Debug, Clone, Copy, PartialEq, Eq)]
pub enum CodeFault {
    /// More than 4,096 rows of registers are counted.
    M9,
    NoMemory,
}

impl fmt::Display for CodeFault {
    fn fmt<W: fmt::Write>(&self, f: &mut fmt::Formatter<W>) -> fmt::Result {
        match self {
            CodeFault::NoMemory => NoMemory.fmt(f),
            code => write!(f, "{code:?}"),
        }
    }
}

impl Error for CodeFault {}

impl From<NoMemory> for CodeFault {
    ghost from_gives = { λ _ e. e ≡ OutOfMemory };

    fn from(_: NoMemory) -> CodeFault {
        CodeFault::NoMemory
    }
}
