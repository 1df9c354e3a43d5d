// Exact decimals.
ghost use Rattle.std.specs.Prelude.{◌≡◌, ◌≤◌, ◌<◌, ◌+◌, ◌++◌, ◌∷◌, [], IfOk, OnOk, string_bytes};
ghost use Rattle.account_text.specs.Decimals.{places, exact};

use fixed_math::NoMemory;
use std::alloc::Global;

// Adds a digit.
fn push_digit(text: &mut String, digit: u8) -> Result<(), NoMemory>
    requires { digit ≤ 9 }
    ensures { OnOk result (string_bytes text.new ≡ string_bytes text.old ++ (48 + digit) ∷ []) }
{
    Ok(text.push((b'0' + digit) as char)?)
}

// Adds the digits after the point of `rest / ones`.
fn push_places(text: &mut String, ones: u64, rest: u64) -> Result<(), NoMemory>
    requires some { 1 ≤ ones }
    requires few { ones ≤ 4294967296 }
    requires rest { rest < ones }
    ensures { OnOk result (string_bytes text.new ≡ string_bytes text.old ++ places 32 ones rest) }
{
    let mut left = rest;
    for place in 0..32u32 {
        if left > 0 {
            push_digit(text, (10 * left / ones) as u8)?;
            left = 10 * left % ones;
        }
    }
    Ok(())
}

/// The decimal that is exactly `raw / ones`, where `ones` is a power of 2 of at most 2^32.
#[tactic(auto, unfolding(crate::specs::Decimals::exact))]
pub(crate) fn exact(alloc: Global, ones: u64, raw: i128) -> Result<String, NoMemory>
    requires some { 1 ≤ ones }
    requires few { ones ≤ 4294967296 }
    ensures { IfOk result (λ t. string_bytes t ≡ exact ones raw) }
{
    let size = raw.unsigned_abs();
    let whole = size / ones as u128;
    let rest = (size % ones as u128) as u64;
    let sign = if raw < 0 { "-" } else { "" };
    let mut text = format!(in alloc; "{sign}{whole}")?;
    if rest > 0 {
        text.push('.')?;
        push_places(&mut text, ones, rest)?;
    }
    Ok(text)
}
