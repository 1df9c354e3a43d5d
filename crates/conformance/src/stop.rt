// What ends the program early.
ghost use Rattle.std.specs.Prelude.{◌≡◌};
ghost use Rattle.conformance.specs.declared.stop.Stop.TheVariants.{NoMemory as StopNoMemory};

use fixed_math::NoMemory;
use std::fmt;

/// What ends the program early.
#[derive(Clone, Copy, Debug, PartialEq, Eq)]
pub enum Stop {
    /// The text of the cases leaves their form in the line of this number, counted from 1.
    Form(usize),
    /// Standard input failed.
    Input,
    /// Standard output failed.
    Output,
    /// Want of memory.
    NoMemory,
}

impl fmt::Display for Stop {
    fn fmt<W: fmt::Write>(&self, f: &mut fmt::Formatter<W>) -> fmt::Result {
        match self {
            Stop::Form(line) => write!(f, "line {line}: not in the form of a case"),
            Stop::Input => write!(f, "standard input failed"),
            Stop::Output => write!(f, "standard output failed"),
            Stop::NoMemory => write!(f, "no memory"),
        }
    }
}

impl From<NoMemory> for Stop {
    ghost from_gives = { λ _ e. e ≡ StopNoMemory };

    fn from(_: NoMemory) -> Stop {
        Stop::NoMemory
    }
}
