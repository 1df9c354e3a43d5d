// The faults of types.
ghost use Rattle.std.specs.Prelude.{◌≡◌, Err};
ghost use Rattle.sl_expressions.specs.declared.faults.TypeFault.TheVariants.{At, NoMemory as OutOfMemory};

use fixed_math::NoMemory;
use std::alloc::{AllocError, AllocFailed};
use std::error::Error;
use std::fmt;

/// The faults of types, in the order in which the lower one comes first at one place.
#[derive(Debug, Clone, Copy, PartialEq, Eq)]
pub enum TypeCode {
    /// An unknown variable or function.
    T1,
    /// Operands, arguments, conditions, set or returned values without a rule.
    T2,
    /// A varying value that goes into a uniform variable, or that is the index of `comp`.
    T3,
    /// An assignment to a uniform variable under varying control.
    T4,
    /// A difference over the surface under varying control.
    T5,
    /// What isn't for this kind of shader, or a predefined variable outside its place.
    T6,
    /// A function that calls itself.
    T7,
    /// A `return` that isn't a function's last statement, or none; `break` or `continue` outside a loop.
    T8,
    /// More than one `illuminate` or `solar`, or one in a loop.
    T9,
    /// A name that is declared twice.
    T10,
    /// What this profile leaves out.
    T11,
    /// A tree of more than 65,536 nodes, or of more than 256 in one another.
    M8,
}

impl fmt::Display for TypeCode {
    fn fmt<W: fmt::Write>(&self, f: &mut fmt::Formatter<W>) -> fmt::Result {
        write!(f, "{self:?}")
    }
}

impl Error for TypeCode {}

/// Why there is no typed tree: the first fault, with the line on which its token begins, or want of memory.
#[derive(Debug, Clone, Copy, PartialEq, Eq)]
pub enum TypeFault {
    At { code: TypeCode, line: u32 },
    NoMemory,
}

impl fmt::Display for TypeFault {
    fn fmt<W: fmt::Write>(&self, f: &mut fmt::Formatter<W>) -> fmt::Result {
        match self {
            TypeFault::At { code, line } => write!(f, "{code} in line {line}"),
            TypeFault::NoMemory => NoMemory.fmt(f),
        }
    }
}

impl Error for TypeFault {}

impl From<AllocError> for TypeFault {
    ghost from_gives = { λ _ e. e ≡ OutOfMemory };

    fn from(_: AllocError) -> TypeFault {
        TypeFault::NoMemory
    }
}

impl<T: Drop> From<AllocFailed<T>> for TypeFault {
    ghost from_gives = { λ _ e. e ≡ OutOfMemory };

    fn from(_: AllocFailed<T>) -> TypeFault {
        TypeFault::NoMemory
    }
}

impl From<NoMemory> for TypeFault {
    ghost from_gives = { λ _ e. e ≡ OutOfMemory };

    fn from(_: NoMemory) -> TypeFault {
        TypeFault::NoMemory
    }
}

// The answer of a call that met a fault.
pub fn fault<T>(code: TypeCode, line: u32) -> Result<T, TypeFault>
    ensures { result ≡ Err (At code line) }
{
    Err(TypeFault::At { code, line })
}
