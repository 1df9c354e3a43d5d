// Why parts aren't joined.
ghost use Rattle.std.specs.Prelude.{◌≡◌, ◌≤◌};
ghost use Rattle.part_files.specs.Parts.{join_code_text, status_of_join, status_of_join_code};

use std::error::Error;
use std::fmt;

/// The code of a fault that keeps parts from being joined, as notes have it.
#[derive(Clone, Copy, Debug, PartialEq, Eq)]
pub enum JoinCode {
    /// A file that isn't a part.
    J1,
    /// A part of another picture than the first one.
    J2,
    /// A part with a bucket that stands in an earlier one.
    J3,
    /// No part has some bucket.
    J4,
    /// The parts are longer together than 134,217,728 bytes.
    M10,
}

impl JoinCode {
    /// The code as notes have it.
    pub fn as_str(self) -> &'static str
        ensures { result.now ≡ join_code_text self }
    {
        match self {
            JoinCode::J1 => "J1",
            JoinCode::J2 => "J2",
            JoinCode::J3 => "J3",
            JoinCode::J4 => "J4",
            JoinCode::M10 => "M10",
        }
    }

    /// The status of a run that ends by this code.
    fn status(self) -> u8
        ensures status { result ≡ status_of_join_code self }
        ensures least { 3 ≤ result }
        ensures most { result ≤ 5 }
    {
        match self {
            JoinCode::J1 | JoinCode::J2 | JoinCode::J3 | JoinCode::J4 => 3,
            JoinCode::M10 => 5,
        }
    }
}

impl fmt::Display for JoinCode {
    fn fmt<W: fmt::Write>(&self, f: &mut fmt::Formatter<W>) -> fmt::Result {
        let text = self.as_str();
        write!(f, "{text}")
    }
}

impl Error for JoinCode {}

/// Why parts aren't joined.
#[derive(Clone, Copy, Debug, PartialEq, Eq)]
pub enum JoinCause {
    /// The library lacks that part.
    Missing { part: u32 },
    /// A fault in the first line: of that part's file, or of the picture where no part has it.
    At { part: Option<u32>, code: JoinCode },
}

impl JoinCause {
    /// The status of a run that ends so.
    pub fn status(self) -> u8
        ensures status { result ≡ status_of_join self }
        ensures least { 3 ≤ result }
        ensures most { result ≤ 6 }
    {
        match self {
            JoinCause::Missing { .. } => 6,
            JoinCause::At { code, .. } => code.status(),
        }
    }
}

impl fmt::Display for JoinCause {
    fn fmt<W: fmt::Write>(&self, f: &mut fmt::Formatter<W>) -> fmt::Result {
        match self {
            JoinCause::Missing { part } => write!(f, "part {part} is missing"),
            JoinCause::At {
                part: Some(part),
                code,
            } => write!(f, "{code} in part {part}"),
            JoinCause::At { part: None, code } => write!(f, "{code}"),
        }
    }
}

impl Error for JoinCause {}
