// How many bytes a number takes.
ghost use Rattle.std.specs.Prelude.{◌≡◌, ◌≤◌, ◌+◌, IfSome, length};
ghost use Rattle.sl_lexer.specs.Numbers.{fraction_len, sign_len, power_of, exponent_len, decimal_len, number_len};

use crate::bytes::{begins_sign, begins_stuck, digit_len};

fn fraction_len(bytes: &[u8]) -> usize
    ensures within { result ≤ length bytes.now }
    ensures len { result ≡ fraction_len bytes.now }
{
    match bytes {
        [b'.', rest @ ..] => 1 + digit_len(rest),
        _ => 0,
    }
}

fn sign_len(bytes: &[u8]) -> usize
    ensures within { result ≤ length bytes.now }
    ensures len { result ≡ sign_len bytes.now }
{
    if begins_sign(bytes) { 1 } else { 0 }
}

fn power_len(bytes: &[u8]) -> Option<usize>
    ensures within { IfSome result (λ n. n ≤ 1 + length bytes.now) }
    ensures len { result ≡ power_of bytes.now }
{
    let sign = sign_len(bytes);
    let (_, rest) = bytes.split_at(sign);
    let digits = digit_len(rest);
    if digits == 0 {
        return None;
    }
    Some(1 + sign + digits)
}

fn exponent_len(bytes: &[u8]) -> Option<usize>
    ensures within { IfSome result (λ n. n ≤ length bytes.now) }
    ensures len { result ≡ exponent_len bytes.now }
{
    match bytes {
        [b'e' | b'E', rest @ ..] => power_len(rest),
        _ => Some(0),
    }
}

fn decimal_len(bytes: &[u8]) -> usize
    ensures within { result ≤ length bytes.now }
    ensures len { result ≡ decimal_len bytes.now }
{
    let whole = digit_len(bytes);
    let (_, rest) = bytes.split_at(whole);
    whole + fraction_len(rest)
}

// How many bytes a well formed number takes at the front.
pub fn number_len(bytes: &[u8]) -> Option<usize>
    ensures within { IfSome result (λ n. n ≤ length bytes.now) }
    ensures len { result ≡ number_len bytes.now }
{
    let decimal = decimal_len(bytes);
    let (_, rest) = bytes.split_at(decimal);
    let exponent = exponent_len(rest)?;
    let (_, after) = rest.split_at(exponent);
    if begins_stuck(after) {
        return None;
    }
    Some(decimal + exponent)
}
