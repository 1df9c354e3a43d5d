// Steps over single tokens, and the faults of the grammar.
ghost use Rattle.std.specs.Prelude.{◌≡◌, ◌<◌, Ok, IfOk, IfSome, length, option_map};
ghost use Rattle.sl_expression_grammar.specs.Reading.{head_is, is_bad, is_mark, code_for, rest_after, line_and_rest};
ghost use Rattle.sl_expression_grammar.specs.Parsing.{MatchPast, MatchClosed};
ghost use Rattle.sl_expression_grammar.specs.declared.reading.Stop.TheVariants.{NoMemory as OutOfMemory};

use crate::fault::SlCode;
use fixed_math::NoMemory;
use sl_lexer::{Mark, Token, TokenKind};
use std::alloc::{AllocError, AllocFailed};

/// A fault at the front of these tokens, or want of memory.
#[derive(Clone, Copy)]
pub enum Stop<'a> {
    At(SlCode, &'a [Token]),
    NoMemory,
}

impl From<AllocError> for Stop<'_> {
    ghost from_gives = { λ _ e. e ≡ OutOfMemory };

    fn from(_: AllocError) -> Self {
        Stop::NoMemory
    }
}

impl<T: Drop> From<AllocFailed<T>> for Stop<'_> {
    ghost from_gives = { λ _ e. e ≡ OutOfMemory };

    fn from(_: AllocFailed<T>) -> Self {
        Stop::NoMemory
    }
}

impl From<NoMemory> for Stop<'_> {
    ghost from_gives = { λ _ e. e ≡ OutOfMemory };

    fn from(_: NoMemory) -> Self {
        Stop::NoMemory
    }
}

/// The code of a fault at these tokens, which no text goes on with.
pub fn code_at(ts: &[Token]) -> SlCode
    ensures { result ≡ code_for (head_is is_bad ts.now) }
{
    match ts {
        [
            Token {
                kind: TokenKind::Bad,
                ..
            },
            ..
        ] => SlCode::P1,
        _ => SlCode::P2,
    }
}

fn is_mark(mark: Mark, kind: &TokenKind) -> bool
    ensures { result ≡ is_mark mark kind.now }
{
    match (mark, kind) {
        (Mark::LeftParen, TokenKind::Mark(Mark::LeftParen)) => true,
        (Mark::RightParen, TokenKind::Mark(Mark::RightParen)) => true,
        (Mark::LeftBrace, TokenKind::Mark(Mark::LeftBrace)) => true,
        (Mark::RightBrace, TokenKind::Mark(Mark::RightBrace)) => true,
        (Mark::Semicolon, TokenKind::Mark(Mark::Semicolon)) => true,
        (Mark::Comma, TokenKind::Mark(Mark::Comma)) => true,
        (Mark::Question, TokenKind::Mark(Mark::Question)) => true,
        (Mark::Colon, TokenKind::Mark(Mark::Colon)) => true,
        _ => false,
    }
}

/// The tokens after that mark, where it stands at the front.
pub fn rest_after(mark: Mark, ts: &[Token]) -> Option<&[Token]>
    ensures at { option_map (λ o. o.now) result ≡ rest_after (is_mark mark) ts.now }
    ensures within { IfSome result (λ o. length o.now < length ts.now) }
{
    match ts {
        [first, rest @ ..] if is_mark(mark, &first.kind) => Some(rest),
        _ => None,
    }
}

// The line of that mark at the front and the tokens after it.
pub fn line_and_rest(mark: Mark, ts: &[Token]) -> Option<(u32, &[Token])>
    ensures at { option_map (λ o. (o.0, o.1.now)) result ≡ line_and_rest mark ts.now }
    ensures within { IfSome result (λ o. length o.1.now < length ts.now) }
{
    match ts {
        [first, rest @ ..] if is_mark(mark, &first.kind) => Some((first.line, rest)),
        _ => None,
    }
}

/// The tokens after that mark, which has to stand at the front.
pub fn past(mark: Mark, ts: &[Token]) -> Result<&[Token], Stop<'_>>
    ensures gives { MatchPast mark ts.now result }
    ensures within { IfOk result (λ rest. length rest.now < length ts.now) }
{
    match rest_after(mark, ts) {
        Some(rest) => Ok(rest),
        None => Err(Stop::At(code_at(ts), ts)),
    }
}

/// An item that was read, and that mark after it.
pub fn closed<T: Drop>(item: T, mark: Mark, ts: &[Token]) -> Result<(T, &[Token]), Stop<'_>>
    ensures gives { MatchClosed item mark ts.now result }
    ensures within { IfOk result (λ r. length r.1.now < length ts.now) }
{
    let rest = past(mark, ts)?;
    Ok((item, rest))
}
