// What stands at the front of bytes.
ghost use Rattle.std.specs.Prelude.{◌≡◌, ◌<◌, ◌+◌, IfOk, length, true, false};
ghost use Rattle.sl_lexer.specs.Bytes.{is_letter, head_byte};
ghost use Rattle.sl_lexer.specs.Numbers.{number_len};
ghost use Rattle.sl_lexer.specs.Found.{found_slash, found_string, string_in, found_word, found_number, begins_number, found_in, IsWithin};

use crate::bytes::{begins_digit, digit, letter, line_len, name_len, white};
use crate::found::Found;
use crate::numbers::number_len;
use crate::signs::{changing, find_sign};
use crate::strings::{comment_len, read_string};
use crate::token::TokenKind;
use crate::words::kind_named;
use fixed_math::{NoMemory, Text};
use sl_ast::{Operator, SetOperator};
use std::alloc::Global;

// After a slash.
fn find_slash(rest: &[u8]) -> Found
    ensures found { result ≡ found_slash rest.now }
    ensures within { IsWithin result (length rest.now + 1) }
{
    match rest {
        [b'/', line @ ..] => Found::Blank(line_len(line) + 2),
        [b'*', comment @ ..] => match comment_len(comment) {
            Some(len) => Found::Blank(len + 2),
            None => Found::Bad,
        },
        _ => changing(Operator::Divide, SetOperator::Divide, rest),
    }
}

fn find_string(alloc: Global, rest: &[u8]) -> Result<Found, NoMemory>
    ensures found { IfOk result (λ f. f ≡ found_string (string_in false rest.now)) }
    ensures within { IfOk result (λ f. IsWithin f (length rest.now + 1)) }
{
    Ok(match read_string(alloc, rest)? {
        Some((text, len)) => Found::Whole(TokenKind::Str(text), len + 1),
        None => Found::Bad,
    })
}

#[tactic(auto, using(crate::proofs::Spans::number_ascii, crate::proofs::Spans::number_some))]
fn find_number(alloc: Global, bytes: &[u8]) -> Result<Found, NoMemory>
    requires { begins_number bytes.now ≡ true }
    ensures found { IfOk result (λ f. f ≡ found_number bytes.now (number_len bytes.now)) }
    ensures within { IfOk result (λ f. IsWithin f (length bytes.now)) }
{
    match number_len(bytes) {
        Some(len) => {
            let (text, _) = bytes.split_at(len);
            Ok(Found::Whole(TokenKind::Number(Text::from_bytes(alloc, text)?), len))
        }
        None => Ok(Found::Bad),
    }
}

#[tactic(auto, using(crate::proofs::Spans::name_ascii, crate::proofs::Spans::name_some))]
fn find_word(alloc: Global, bytes: &[u8]) -> Result<Found, NoMemory>
    requires { head_byte is_letter bytes.now ≡ true }
    ensures found { IfOk result (λ f. f ≡ found_word bytes.now) }
    ensures within { IfOk result (λ f. IsWithin f (length bytes.now)) }
{
    let len = name_len(bytes);
    let (text, _) = bytes.split_at(len);
    Ok(Found::Whole(kind_named(Text::from_bytes(alloc, text)?), len))
}

// What stands at the front.
pub fn find(alloc: Global, bytes: &[u8]) -> Result<Found, NoMemory>
    ensures found { IfOk result (λ f. f ≡ found_in bytes.now) }
    ensures within { IfOk result (λ f. IsWithin f (length bytes.now)) }
{
    let Some((first, rest)) = bytes.split_first() else {
        return Ok(Found::Bad);
    };
    if white(*first) {
        return Ok(Found::Blank(1));
    }
    if *first == b'/' {
        return Ok(find_slash(rest));
    }
    if *first == b'"' {
        return find_string(alloc, rest);
    }
    if digit(*first) || (*first == b'.' && begins_digit(rest)) {
        return find_number(alloc, bytes);
    }
    if letter(*first) {
        return find_word(alloc, bytes);
    }
    Ok(find_sign(*first, rest))
}
