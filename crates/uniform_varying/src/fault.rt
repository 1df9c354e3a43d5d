// Faults of classes and control.
ghost use Rattle.std.specs.Prelude.{◌≡◌};
ghost use Rattle.uniform_varying.specs.declared.fault.Stop.TheVariants.{NoMemory as OutOfMemory};
ghost use Rattle.uniform_varying.specs.Gives.{Refuses};

use sl_ast::ControlCode;
use std::alloc::{AllocError, AllocFailed};
use std::error::Error;
use std::fmt;

/// A fault of classes or control, with the line on which its token begins: the name that is declared or set, the called
/// name, or the word of the statement.
#[derive(Clone, Copy, Debug, PartialEq, Eq)]
pub struct ControlFault {
    pub code: ControlCode,
    pub line: u32,
}

impl fmt::Display for ControlFault {
    fn fmt<W: fmt::Write>(&self, f: &mut fmt::Formatter<W>) -> fmt::Result {
        let ControlFault { code, line } = self;
        write!(f, "{code:?} in line {line}")
    }
}

impl Error for ControlFault {}

// Why the rest of a tree isn't looked at.
#[derive(Clone, Copy)]
pub enum Stop {
    At(ControlFault),
    NoMemory,
}

impl From<AllocError> for Stop {
    ghost from_gives = { λ _ e. e ≡ OutOfMemory };

    fn from(_: AllocError) -> Self {
        Stop::NoMemory
    }
}

impl<T: Drop> From<AllocFailed<T>> for Stop {
    ghost from_gives = { λ _ e. e ≡ OutOfMemory };

    fn from(_: AllocFailed<T>) -> Self {
        Stop::NoMemory
    }
}

// Refuses what is wrong.
pub fn refuse(wrong: bool, code: ControlCode, line: u32) -> Result<(), Stop>
    ensures { Refuses wrong code line result }
{
    if wrong {
        return Err(Stop::At(ControlFault { code, line }));
    }
    Ok(())
}
