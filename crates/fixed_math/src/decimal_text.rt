// The number at the front of a text.
ghost use Rattle.std.specs.Prelude.{◌≡◌, ◌≤◌, ◌<◌, ◌+◌, ◌-◌, ◌^◌, ◌++◌, ◌&&◌, IfSome, length, min, option_map, slice_index, true, ℕ, pos, unsigned_abs, ◌+ℤ◌, ◌-ℤ◌};
ghost use Rattle.std.specs.List.{prefix_len};
ghost use Rattle.fixed_math.specs.NumberBytes.{is_digit, is_sign, is_minus, is_point};
ghost use Rattle.fixed_math.specs.Digits.{IsDigitsOf, value_of};
ghost use Rattle.fixed_math.specs.Decimal.{signed};
ghost use Rattle.fixed_math.specs.DecimalText.{head_is, behind_one, digits_at, behind_digits, is_none, exponent_behind, exponent_at, exponent_text, exponent_value, cut, decimal_of, decimal_at};

use crate::decimal::Decimal;
use crate::digit_rows::add_all;
use crate::digits::Digits;

// An exponent as it is written, and what stands behind it.
#[derive(Clone, Copy)]
struct Exponent<'a> {
    negative: bool,
    digits: &'a [u8],
    rest: &'a [u8],
}

fn behind_sign(bytes: &[u8]) -> &[u8]
    ensures value { result.now ≡ behind_one is_sign bytes.now }
    ensures within { length result.now ≤ length bytes.now }
{
    match bytes {
        [b'+' | b'-', rest @ ..] => rest,
        _ => bytes,
    }
}

fn begins_minus(bytes: &[u8]) -> bool
    ensures { result ≡ head_is is_minus bytes.now }
{
    matches!(bytes, [b'-', ..])
}

fn behind_point(bytes: &[u8]) -> &[u8]
    ensures value { result.now ≡ behind_one is_point bytes.now }
    ensures within { length result.now ≤ length bytes.now }
{
    match bytes {
        [b'.', rest @ ..] => rest,
        _ => bytes,
    }
}

fn is_digit(b: u8) -> bool
    ensures { result ≡ is_digit b }
{
    b.is_ascii_digit()
}

fn digit_len(bytes: &[u8]) -> usize
    ensures within { result ≤ length bytes.now }
    ensures len { result ≡ prefix_len is_digit bytes.now }
{
    bytes.iter().take_while(|b| is_digit(**b)).count()
}

// The digits at the front, and what stands behind them.
#[tactic(auto, using(crate::proofs::DecimalTexts::digits_pass))]
fn split_digits(bytes: &[u8]) -> (&[u8], &[u8])
    ensures digits { result.0.now ≡ digits_at bytes.now }
    ensures behind { result.1.now ≡ behind_digits bytes.now }
    ensures len { length result.0.now + length result.1.now ≡ length bytes.now }
    ensures each { (k : ℕ) → k < length result.0.now → is_digit (slice_index result.0.now k) ≡ true }
{
    bytes.split_at(digit_len(bytes))
}

// The exponent behind its mark.
fn exponent_behind(bytes: &[u8]) -> Option<Exponent<'_>>
    ensures gives { option_map (λ e. exponent_text e.negative e.digits.now e.rest.now) result ≡ exponent_behind bytes.now }
    ensures within { IfSome result (λ e. length e.rest.now ≤ length bytes.now) }
{
    let (digits, rest) = split_digits(behind_sign(bytes));
    if digits.is_empty() {
        return None;
    }
    Some(Exponent {
        negative: begins_minus(bytes),
        digits,
        rest,
    })
}

// The exponent at the front, of no digits where no mark stands there.
fn split_exponent(bytes: &[u8]) -> Option<Exponent<'_>>
    ensures gives { option_map (λ e. exponent_text e.negative e.digits.now e.rest.now) result ≡ exponent_at bytes.now }
    ensures within { IfSome result (λ e. length e.rest.now ≤ length bytes.now) }
{
    match bytes {
        [b'e' | b'E', rest @ ..] => exponent_behind(rest),
        _ => Some(Exponent {
            negative: false,
            digits: &[],
            rest: bytes,
        }),
    }
}

// An exponent that no number of digits in a text makes up for: 10^20.
const FARTHEST: u128 = 100_000_000_000_000_000_000;

// The value of digits, but at most 10^20.
fn capped_value(digits: &[u8]) -> u128
    ensures { result ≡ min (value_of digits.now) 100000000000000000000 }
{
    let mut value = 0u128;
    for digit in digits {
        value = (value * 10 + u128::from(digit.saturating_sub(b'0'))).min(FARTHEST);
    }
    value
}

// The written exponent, but within 10^20 of 0.
fn capped(negative: bool, digits: &[u8]) -> i128
    ensures value { result ≡ signed negative (min (value_of digits.now) 100000000000000000000) }
    ensures small { unsigned_abs result ≤ 100000000000000000000 }
{
    let value = capped_value(digits) as i128;
    if negative { -value } else { value }
}

fn cut(exponent: i128) -> i32
    ensures { result ≡ cut exponent }
{
    if exponent < -9999 {
        -9999
    } else if exponent > 9999 {
        9999
    } else {
        exponent as i32
    }
}

fn balance(written: i128, dropped: u64, places: u64) -> i128
    requires { unsigned_abs written ≤ 100000000000000000000 }
    ensures { result ≡ ((written +ℤ pos dropped) -ℤ pos places) }
{
    written + dropped as i128 - places as i128
}

// The exponent of a decimal: the written one, which may be of any size, and the digits that aren't kept, less those
// behind the point, cut to -9999 to 9999.
fn decimal_exponent(negative: bool, digits: &[u8], dropped: u64, places: u64) -> i32
    ensures { result ≡ cut ((exponent_value negative digits.now +ℤ pos dropped) -ℤ pos places) }
{
    cut(balance(capped(negative, digits), dropped, places))
}

fn no_digit(whole: &[u8], fraction: &[u8]) -> bool
    ensures { result ≡ (is_none whole.now && is_none fraction.now) }
{
    whole.is_empty() && fraction.is_empty()
}

// The digits before and behind the point.
fn all_digits(whole: &[u8], fraction: &[u8]) -> Digits
    requires whole_digits { (k : ℕ) → k < length whole.now → is_digit (slice_index whole.now k) ≡ true }
    requires fraction_digits { (k : ℕ) → k < length fraction.now → is_digit (slice_index fraction.now k) ≡ true }
    requires room { length whole.now + length fraction.now < 2 ^ 64 }
    ensures { IsDigitsOf (whole.now ++ fraction.now) result }
{
    add_all(add_all(Digits::none(), whole), fraction)
}

// The decimal of the parts of a number.
fn assembled(negative: bool, whole: &[u8], fraction: &[u8], exponent: &Exponent<'_>) -> Decimal
    requires whole_digits { (k : ℕ) → k < length whole.now → is_digit (slice_index whole.now k) ≡ true }
    requires fraction_digits { (k : ℕ) → k < length fraction.now → is_digit (slice_index fraction.now k) ≡ true }
    requires room { length whole.now + length fraction.now < 2 ^ 64 }
    ensures { result ≡ decimal_of negative (whole.now ++ fraction.now) (length fraction.now) (exponent_value exponent.now.negative exponent.now.digits.now) }
{
    let digits = all_digits(whole, fraction);
    Decimal {
        negative,
        digits: digits.value(),
        exponent: decimal_exponent(
            exponent.negative,
            exponent.digits,
            digits.dropped(),
            fraction.len() as u64,
        ),
    }
}

impl Decimal {
    /// The number at the front of a text, with what stands behind it: a sign or none, digits with at most one point, and an
    /// exponent of ten or none (`-1.50e+3`). `None` where it has no digit, or its exponent has none.
    ///
    /// The first 18 digits behind leading zeros are kept; those behind them count as zeros. Linear in the number's bytes.
    pub fn read(bytes: &[u8]) -> Option<(Decimal, &[u8])>
        ensures gives { option_map (λ n. (n.0, n.1.now)) result ≡ decimal_at bytes.now }
        ensures shorter { IfSome result (λ n. length n.1.now < length bytes.now) }
    {
        let (whole, behind_whole) = split_digits(behind_sign(bytes));
        let (fraction, behind_fraction) = split_digits(behind_point(behind_whole));
        let exponent = split_exponent(behind_fraction)?;
        if no_digit(whole, fraction) {
            return None;
        }
        Some((
            assembled(begins_minus(bytes), whole, fraction, &exponent),
            exponent.rest,
        ))
    }
}
