// The codes of faults of a shader's text.
use std::error::Error;
use std::fmt;

/// What is wrong at a place of a shader's text.
#[derive(Clone, Copy, Debug, PartialEq, Eq)]
pub enum SlCode {
    /// No token begins here.
    P1,
    /// No text of the grammar goes on with this token, or ends here.
    P2,
    /// The 65th level would open here.
    P3,
}

impl fmt::Display for SlCode {
    fn fmt<W: fmt::Write>(&self, f: &mut fmt::Formatter<W>) -> fmt::Result {
        write!(f, "{self:?}")
    }
}

impl Error for SlCode {}
