// Faults of a shader's text.
ghost use Rattle.std.specs.Prelude.{◌≡◌};
ghost use Rattle.sl_parser.specs.declared.fault.SlFault.TheVariants.{NoMemory as OutOfMemory};

use fixed_math::NoMemory;
use sl_expression_grammar::SlCode;
use std::error::Error;
use std::fmt;

/// The first fault of a shader's text with the line on which its token begins, or want of memory.
#[derive(Clone, Copy, Debug, PartialEq, Eq)]
pub enum SlFault {
    At { code: SlCode, line: u32 },
    NoMemory,
}

impl fmt::Display for SlFault {
    fn fmt<W: fmt::Write>(&self, f: &mut fmt::Formatter<W>) -> fmt::Result {
        match self {
            SlFault::At { code, line } => write!(f, "{code} in line {line}"),
            SlFault::NoMemory => NoMemory.fmt(f),
        }
    }
}

impl Error for SlFault {}

impl From<NoMemory> for SlFault {
    ghost from_gives = { λ _ e. e ≡ OutOfMemory };

    fn from(_: NoMemory) -> Self {
        SlFault::NoMemory
    }
}
