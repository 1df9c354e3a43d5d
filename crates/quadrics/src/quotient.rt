// Blossoms of three control numbers, and denominators.
ghost use Rattle.std.specs.Prelude.{◌≡◌, ◌≤◌, ◌<◌, ◌*◌, ◌+◌, ◌^◌, ℕ, List, [], ◌∷◌, pos, ◌*ℤ◌, unsigned_abs, slice_index_or};
ghost use Rattle.fixed_math.specs.Blossom.{blossom};
ghost use Rattle.quadrics.specs.Rational.{quarter, spread};

use crate::mixing::mix;
use crate::spans::Span;

/// Two arguments of a blossom.
#[derive(Clone, Copy)]
pub(crate) struct Pair {
    pub(crate) first: u16,
    pub(crate) second: u16,
    ghost first_in: { first ≤ 4096 },
    ghost second_in: { second ≤ 4096 },
}

impl Pair {
    ghost use Rattle.std.specs.Prelude.{◌-◌};
    ghost use Rattle.fixed_math.specs.Blossom.{ends};

    /// The same parameter twice.
    pub(crate) fn equal(s: u16) -> Pair
        requires { s ≤ 4096 }
        ensures { result.first ∷ result.second ∷ [] ≡ s ∷ s ∷ [] }
    {
        Pair {
            first: s,
            second: s,
        }
    }

    /// The low end `2 - k` times and then the high end `k` times.
    pub(crate) fn ends(span: Span, k: usize) -> Pair
        requires { k ≤ 2 }
        ensures { result.first ∷ result.second ∷ [] ≡ ends (2 - k) k span.low span.high }
    {
        Pair {
            first: if k < 2 { span.low } else { span.high },
            second: if k < 1 { span.low } else { span.high },
        }
    }
}

/// The blossom of three control numbers, times 4096 twice.
pub(crate) fn blossom_2(s: Pair, a: i128, b: i128, c: i128) -> i128
    requires small_a { unsigned_abs a ≤ 2 ^ 70 }
    requires small_b { unsigned_abs b ≤ 2 ^ 70 }
    requires small_c { unsigned_abs c ≤ 2 ^ 70 }
    ensures value { result ≡ blossom (s.first ∷ s.second ∷ []) (λ k. slice_index_or (a ∷ b ∷ c ∷ []) k (pos 0)) 0 }
    ensures bound { (r : ℕ) → unsigned_abs a ≤ r → unsigned_abs b ≤ r → unsigned_abs c ≤ r → unsigned_abs result ≤ 2 ^ 24 * r }
{
    let ab = mix(s.second, a, b);
    let bc = mix(s.second, b, c);
    mix(s.first, ab, bc)
}

/// The denominator of a quarter's points: the blossom of the weights 1, 1, 2.
pub(crate) fn quarter_at(s: Pair) -> u64
    ensures value { result ≡ spread (s.first ∷ s.second ∷ []) quarter 0 }
    ensures low { 2 ^ 24 ≤ result }
    ensures high { result ≤ 2 ^ 25 }
{
    (1 << 24) + s.first as u64 * s.second as u64
}

/// The product of factors of a denominator.
pub(crate) fn under(a: u128, b: u64) -> u128
    requires small_a { a ≤ 2 ^ 50 }
    requires small_b { b ≤ 2 ^ 25 }
    ensures value { result ≡ a * b }
    ensures bound { result ≤ 2 ^ 75 }
{
    a * b as u128
}
