// Why there is no scene.
ghost use Rattle.std.specs.Prelude.{◌≡◌};
ghost use Rattle.scene_state.specs.State.{code_of};
ghost use Rattle.scene_state.specs.Answers.{fault_at, step_fault};
ghost use Rattle.scene_state.specs.declared.fault.StateFault.TheVariants.{NoMemory as OutOfMemory};
ghost use Rattle.scene_state.specs.declared.fault.StepFault.TheVariants.{Refused, NoMemory as Exhausted};

use fixed_math::NoMemory;
use primitives::PrimitiveFault;
use scene_parts::StateCode;
use std::alloc::{AllocError, AllocFailed};
use std::error::Error;
use std::fmt;
use transforms::FormFault;

/// Why there is no scene: the first fault, with the line of its request's name, or want of memory.
#[derive(Debug, Clone, Copy, PartialEq, Eq)]
pub enum StateFault {
    At { code: StateCode, line: u32 },
    NoMemory,
}

impl fmt::Display for StateFault {
    fn fmt<W: fmt::Write>(&self, f: &mut fmt::Formatter<W>) -> fmt::Result {
        match self {
            StateFault::At { code, line } => write!(f, "{code} in line {line}"),
            StateFault::NoMemory => NoMemory.fmt(f),
        }
    }
}

impl Error for StateFault {}

impl From<NoMemory> for StateFault {
    ghost from_gives = { λ _ e. e ≡ OutOfMemory };

    fn from(_: NoMemory) -> StateFault {
        StateFault::NoMemory
    }
}

/// Why a request doesn't change the state.
#[derive(Clone, Copy)]
pub(crate) enum StepFault {
    Refused(StateCode),
    NoMemory,
}

impl StepFault {
    /// The same, of a request whose name stands in that line.
    pub(crate) fn at(self, line: u32) -> StateFault
        ensures { result ≡ fault_at line self }
    {
        match self {
            StepFault::Refused(code) => StateFault::At { code, line },
            StepFault::NoMemory => StateFault::NoMemory,
        }
    }
}

impl From<NoMemory> for StepFault {
    ghost from_gives = { λ _ e. e ≡ Exhausted };

    fn from(_: NoMemory) -> StepFault {
        StepFault::NoMemory
    }
}

impl From<AllocError> for StepFault {
    ghost from_gives = { λ _ e. e ≡ Exhausted };

    fn from(_: AllocError) -> StepFault {
        StepFault::NoMemory
    }
}

impl<T: Drop> From<AllocFailed<T>> for StepFault {
    ghost from_gives = { λ _ e. e ≡ Exhausted };

    fn from(_: AllocFailed<T>) -> StepFault {
        StepFault::NoMemory
    }
}

impl From<PrimitiveFault> for StepFault {
    ghost from_gives = { λ fault e. e ≡ step_fault fault };

    fn from(fault: PrimitiveFault) -> StepFault {
        match fault {
            PrimitiveFault::Refused(code) => StepFault::Refused(code),
            PrimitiveFault::NoMemory => StepFault::NoMemory,
        }
    }
}

impl From<FormFault> for StepFault {
    ghost from_gives = { λ fault e. e ≡ Refused (code_of fault) };

    fn from(fault: FormFault) -> StepFault {
        StepFault::Refused(code_of(fault))
    }
}

// The code of a refused transformation.
fn code_of(fault: FormFault) -> StateCode
    ensures { result ≡ code_of fault }
{
    match fault {
        FormFault::G1 => StateCode::G1,
        FormFault::G2 => StateCode::G2,
        FormFault::G3 => StateCode::G3,
        FormFault::G4 => StateCode::G4,
    }
}
