// Brackets, separators and operators.
ghost use Rattle.std.specs.Prelude.{◌≡◌, ◌+◌, length};
ghost use Rattle.sl_lexer.specs.Found.{with_equals, twice, mark_at, found_operator, found_sign, IsWithin};
ghost use Rattle.sl_lexer.specs.declared.token.TokenKind.TheVariants as kinds;

use crate::bytes::begins_with;
use crate::found::Found;
use crate::token::{Mark, TokenKind};
use sl_ast::{Operator, SetOperator};

fn with_equals(single: TokenKind, double: TokenKind, rest: &[u8]) -> Found
    ensures found { result ≡ with_equals single double rest.now }
    ensures within { IsWithin result (length rest.now + 1) }
{
    if begins_with(rest, b'=') {
        Found::Whole(double, 2)
    } else {
        Found::Whole(single, 1)
    }
}

// An operator, or the assignment that changes by it.
pub fn changing(operator: Operator, set: SetOperator, rest: &[u8]) -> Found
    ensures found { result ≡ with_equals (kinds.Operator operator) (kinds.Set set) rest.now }
    ensures within { IsWithin result (length rest.now + 1) }
{
    with_equals(TokenKind::Operator(operator), TokenKind::Set(set), rest)
}

fn comparing(strict: Operator, loose: Operator, rest: &[u8]) -> Found
    ensures found { result ≡ with_equals (kinds.Operator strict) (kinds.Operator loose) rest.now }
    ensures within { IsWithin result (length rest.now + 1) }
{
    with_equals(
        TokenKind::Operator(strict),
        TokenKind::Operator(loose),
        rest,
    )
}

fn twice(byte: u8, double: TokenKind, rest: &[u8]) -> Found
    ensures found { result ≡ twice byte double rest.now }
    ensures within { IsWithin result (length rest.now + 1) }
{
    if begins_with(rest, byte) {
        Found::Whole(double, 2)
    } else {
        Found::Bad
    }
}

fn mark_at(byte: u8) -> Option<Mark>
    ensures { result ≡ mark_at byte }
{
    match byte {
        b'(' => Some(Mark::LeftParen),
        b')' => Some(Mark::RightParen),
        b'{' => Some(Mark::LeftBrace),
        b'}' => Some(Mark::RightBrace),
        b';' => Some(Mark::Semicolon),
        b',' => Some(Mark::Comma),
        b'?' => Some(Mark::Question),
        b':' => Some(Mark::Colon),
        _ => None,
    }
}

fn find_operator(byte: u8, rest: &[u8]) -> Found
    ensures found { result ≡ found_operator byte rest.now }
    ensures within { IsWithin result (length rest.now + 1) }
{
    match byte {
        b'+' => changing(Operator::Add, SetOperator::Add, rest),
        b'-' => changing(Operator::Subtract, SetOperator::Subtract, rest),
        b'*' => changing(Operator::Multiply, SetOperator::Multiply, rest),
        b'=' => {
            let equal = TokenKind::Operator(Operator::Equal);
            with_equals(TokenKind::Set(SetOperator::Set), equal, rest)
        }
        b'!' => {
            let different = TokenKind::Operator(Operator::NotEqual);
            with_equals(TokenKind::Not, different, rest)
        }
        b'<' => comparing(Operator::Less, Operator::LessEqual, rest),
        b'>' => comparing(Operator::Greater, Operator::GreaterEqual, rest),
        b'^' => Found::Whole(TokenKind::Operator(Operator::Cross), 1),
        b'.' => Found::Whole(TokenKind::Operator(Operator::Dot), 1),
        b'|' => twice(b'|', TokenKind::Operator(Operator::Or), rest),
        b'&' => twice(b'&', TokenKind::Operator(Operator::And), rest),
        _ => Found::Bad,
    }
}

pub fn find_sign(byte: u8, rest: &[u8]) -> Found
    ensures found { result ≡ found_sign byte rest.now (mark_at byte) }
    ensures within { IsWithin result (length rest.now + 1) }
{
    match mark_at(byte) {
        Some(mark) => Found::Whole(TokenKind::Mark(mark), 1),
        None => find_operator(byte, rest),
    }
}
