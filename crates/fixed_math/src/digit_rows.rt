// Rows of digits.
ghost use Rattle.std.specs.Prelude.{◌≡◌, ◌<◌, ◌≤◌, ◌^◌, ◌+◌, ◌++◌, List, ℕ, true, length, slice_index};
ghost use Rattle.fixed_math.specs.NumberBytes.{is_digit};
ghost use Rattle.fixed_math.specs.Digits.{IsDigitsOf};

use crate::digits::Digits;

/// All of these digits more.
pub fn add_all(digits: Digits, bytes: &[u8]) -> Digits
    requires each { (k : ℕ) → k < length bytes.now → is_digit (slice_index bytes.now k) ≡ true }
    requires room { digits.dropped + length bytes.now < 2 ^ 64 }
    ensures more { (ds : List ℕ) → IsDigitsOf ds digits → IsDigitsOf (ds ++ bytes.now) result }
    ensures dropped { result.dropped ≤ digits.dropped + length bytes.now }
{
    let mut all = digits;
    for byte in bytes {
        all = all.add(*byte);
    }
    all
}
