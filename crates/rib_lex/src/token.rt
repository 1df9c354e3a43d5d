// Tokens and the lexical faults.
ghost use Rattle.std.specs.Prelude.{◌≡◌};
ghost use Rattle.rib_lex.specs.declared.token.LexFault.TheVariants.{NoMemory as OutOfMemory};

use fixed_math::{Decimal, NoMemory, Text};
use std::alloc::{AllocError, AllocFailed};
use std::error::Error;
use std::fmt;

/// What a token is. A string's text has its escapes resolved.
#[derive(Drop)]
pub enum TokenKind {
    Name(Text),
    Str(Text),
    Number(Decimal),
    Open,
    Close,
}

/// A token and the line on which it begins, counted from 1 by line feeds.
#[derive(Drop)]
pub struct Token {
    pub kind: TokenKind,
    pub line: u32,
}

/// The lexical faults.
#[derive(Debug, Clone, Copy, PartialEq, Eq)]
pub enum LexCode {
    /// A byte that can't stand here.
    L1,
    /// A string without its closing quote.
    L2,
    /// A backslash before a byte that it can't escape.
    L3,
    /// A number without its digits, or with something directly behind it.
    L4,
}

impl fmt::Display for LexCode {
    fn fmt<W: fmt::Write>(&self, f: &mut fmt::Formatter<W>) -> fmt::Result {
        write!(f, "{self:?}")
    }
}

impl Error for LexCode {}

/// Why there is no token list: the first fault, with the line on which its token begins, or want of memory.
#[derive(Debug, Clone, Copy, PartialEq, Eq)]
pub enum LexFault {
    At { code: LexCode, line: u32 },
    NoMemory,
}

impl fmt::Display for LexFault {
    fn fmt<W: fmt::Write>(&self, f: &mut fmt::Formatter<W>) -> fmt::Result {
        match self {
            LexFault::At { code, line } => write!(f, "{code} in line {line}"),
            LexFault::NoMemory => NoMemory.fmt(f),
        }
    }
}

impl Error for LexFault {}

impl From<NoMemory> for LexFault {
    ghost from_gives = { λ _ e. e ≡ OutOfMemory };

    fn from(_: NoMemory) -> LexFault {
        LexFault::NoMemory
    }
}

impl From<AllocError> for LexFault {
    ghost from_gives = { λ _ e. e ≡ OutOfMemory };

    fn from(_: AllocError) -> LexFault {
        LexFault::NoMemory
    }
}

impl<T: Drop> From<AllocFailed<T>> for LexFault {
    ghost from_gives = { λ _ e. e ≡ OutOfMemory };

    fn from(_: AllocFailed<T>) -> LexFault {
        LexFault::NoMemory
    }
}
