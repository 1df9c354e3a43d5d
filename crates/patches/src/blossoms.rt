// Blossoms of cubic control numbers.
ghost use Rattle.std.specs.Prelude.{◌≡◌, ◌≤◌, ◌*◌, ◌^◌, ◌+◌, ◌-◌, ℕ, ℤ, [], ◌∷◌, pos, ◌*ℤ◌, ◌-ℤ◌, unsigned_abs};
ghost use Rattle.fixed_math.specs.Blossom.{blossom, denominator, ends};

use crate::mixing::{mix, mix_short};
use crate::piece::Span;
use fixed_math::{minus, scaled};

/// Three arguments of a blossom.
#[derive(Clone, Copy)]
pub(crate) struct Arguments {
    pub(crate) first: u16,
    pub(crate) second: u16,
    pub(crate) third: u16,
    ghost first_in: { first ≤ 4096 },
    ghost second_in: { second ≤ 4096 },
    ghost third_in: { third ≤ 4096 },
}

impl Arguments {
    /// The same parameter three times.
    pub(crate) fn equal(s: u16) -> Arguments
        requires { s ≤ 4096 }
        ensures { result.first ∷ result.second ∷ result.third ∷ [] ≡ s ∷ s ∷ s ∷ [] }
    {
        Arguments {
            first: s,
            second: s,
            third: s,
        }
    }

    /// The low end `3 - k` times and then the high end `k` times.
    pub(crate) fn ends(span: Span, k: usize) -> Arguments
        requires { k ≤ 3 }
        ensures { result.first ∷ result.second ∷ result.third ∷ [] ≡ ends (3 - k) k span.low span.high }
    {
        Arguments {
            first: if k < 3 { span.low } else { span.high },
            second: if k < 2 { span.low } else { span.high },
            third: if k < 1 { span.low } else { span.high },
        }
    }
}

/// The blossoms at two arguments of the first three of four numbers and of the last three, times 4096 twice.
#[derive(Clone, Copy)]
struct Pair {
    low: i64,
    high: i64,
}

fn blossoms_2(s: u16, t: u16, a: i64, b: i64, c: i64, d: i64) -> Pair
    requires first { s ≤ 4096 }
    requires second { t ≤ 4096 }
    requires small_a { unsigned_abs a ≤ 2 ^ 31 }
    requires small_b { unsigned_abs b ≤ 2 ^ 31 }
    requires small_c { unsigned_abs c ≤ 2 ^ 31 }
    requires small_d { unsigned_abs d ≤ 2 ^ 31 }
    ensures low { (f : ℕ → ℤ) → a ≡ f 0 → b ≡ f 1 → c ≡ f 2 → result.low ≡ blossom (s ∷ t ∷ []) f 0 }
    ensures high { (f : ℕ → ℤ) → b ≡ f 1 → c ≡ f 2 → d ≡ f 3 → result.high ≡ blossom (s ∷ t ∷ []) f 1 }
    ensures low_small { unsigned_abs result.low ≤ 2 ^ 55 }
    ensures high_small { unsigned_abs result.high ≤ 2 ^ 55 }
{
    let ab = mix_short(t, a, b);
    let bc = mix_short(t, b, c);
    let cd = mix_short(t, c, d);
    Pair {
        low: mix_short(s, ab, bc),
        high: mix_short(s, bc, cd),
    }
}

/// The blossom of four control numbers, times 4096 three times.
pub(crate) fn blossom_3(s: Arguments, a: i64, b: i64, c: i64, d: i64) -> i128
    requires small_a { unsigned_abs a ≤ 2 ^ 31 }
    requires small_b { unsigned_abs b ≤ 2 ^ 31 }
    requires small_c { unsigned_abs c ≤ 2 ^ 31 }
    requires small_d { unsigned_abs d ≤ 2 ^ 31 }
    ensures value { (f : ℕ → ℤ) → a ≡ f 0 → b ≡ f 1 → c ≡ f 2 → d ≡ f 3 → result ≡ blossom (s.first ∷ s.second ∷ s.third ∷ []) f 0 }
    ensures bound { unsigned_abs result ≤ 2 ^ 67 }
{
    let pair = blossoms_2(s.second, s.third, a, b, c, d);
    mix(s.first, pair.low as i128, pair.high as i128)
}

/// What a column of control numbers gives at one argument: its value times 4096 three times, and its derivative times 4096 twice.
#[derive(Clone, Copy)]
pub(crate) struct Column {
    pub(crate) place: i128,
    pub(crate) rise: i128,
}

/// The column of four control numbers at `v`.
pub(crate) fn column_at(v: u16, a: i64, b: i64, c: i64, d: i64) -> Column
    requires from_zero { v ≤ 4096 }
    requires small_a { unsigned_abs a ≤ 2 ^ 31 }
    requires small_b { unsigned_abs b ≤ 2 ^ 31 }
    requires small_c { unsigned_abs c ≤ 2 ^ 31 }
    requires small_d { unsigned_abs d ≤ 2 ^ 31 }
    ensures place { (f : ℕ → ℤ) → a ≡ f 0 → b ≡ f 1 → c ≡ f 2 → d ≡ f 3 → result.place ≡ blossom (v ∷ v ∷ v ∷ []) f 0 }
    ensures rise { (f : ℕ → ℤ) → a ≡ f 0 → b ≡ f 1 → c ≡ f 2 → d ≡ f 3 → result.rise ≡ pos 3 *ℤ blossom (v ∷ v ∷ []) (λ k. f (k + 1) -ℤ f k) 0 }
    ensures place_small { unsigned_abs result.place ≤ 2 ^ 67 }
    ensures rise_small { unsigned_abs result.rise ≤ 2 ^ 67 }
{
    let pair = blossoms_2(v, v, a, b, c, d);
    let low = pair.low as i128;
    let high = pair.high as i128;
    Column {
        place: mix(v, low, high),
        rise: scaled(3, minus(high, low)),
    }
}

/// The blossoms of four control numbers at all lists of three ends of an interval, from its low end thrice on; times 4096 three times.
#[derive(Clone, Copy)]
pub(crate) struct Ends {
    pub(crate) first: i128,
    pub(crate) second: i128,
    pub(crate) third: i128,
    pub(crate) fourth: i128,
}

/// The control numbers over an interval, by de Casteljau's steps.
pub(crate) fn ends_of(span: Span, a: i128, b: i128, c: i128, d: i128) -> Ends
    requires small_a { unsigned_abs a ≤ 2 ^ 67 }
    requires small_b { unsigned_abs b ≤ 2 ^ 67 }
    requires small_c { unsigned_abs c ≤ 2 ^ 67 }
    requires small_d { unsigned_abs d ≤ 2 ^ 67 }
    ensures first { (f : ℕ → ℤ) → a ≡ f 0 → b ≡ f 1 → c ≡ f 2 → d ≡ f 3 → result.first ≡ blossom (span.low ∷ span.low ∷ span.low ∷ []) f 0 }
    ensures second { (f : ℕ → ℤ) → a ≡ f 0 → b ≡ f 1 → c ≡ f 2 → d ≡ f 3 → result.second ≡ blossom (span.low ∷ span.low ∷ span.high ∷ []) f 0 }
    ensures third { (f : ℕ → ℤ) → a ≡ f 0 → b ≡ f 1 → c ≡ f 2 → d ≡ f 3 → result.third ≡ blossom (span.low ∷ span.high ∷ span.high ∷ []) f 0 }
    ensures fourth { (f : ℕ → ℤ) → a ≡ f 0 → b ≡ f 1 → c ≡ f 2 → d ≡ f 3 → result.fourth ≡ blossom (span.high ∷ span.high ∷ span.high ∷ []) f 0 }
{
    let (low, high) = (span.low, span.high);
    let lows = wide_2(low, low, a, b, c, d);
    let middles = wide_2(low, high, a, b, c, d);
    let highs = wide_2(high, high, a, b, c, d);
    Ends {
        first: mix(low, lows.low, lows.high),
        second: mix(low, middles.low, middles.high),
        third: mix(low, highs.low, highs.high),
        fourth: mix(high, highs.low, highs.high),
    }
}

/// The blossoms at two arguments of the first three of four wide numbers and of the last three, times 4096 twice.
#[derive(Clone, Copy)]
struct WidePair {
    low: i128,
    high: i128,
}

fn wide_2(s: u16, t: u16, a: i128, b: i128, c: i128, d: i128) -> WidePair
    requires first { s ≤ 4096 }
    requires second { t ≤ 4096 }
    requires small_a { unsigned_abs a ≤ 2 ^ 67 }
    requires small_b { unsigned_abs b ≤ 2 ^ 67 }
    requires small_c { unsigned_abs c ≤ 2 ^ 67 }
    requires small_d { unsigned_abs d ≤ 2 ^ 67 }
    ensures low { (f : ℕ → ℤ) → a ≡ f 0 → b ≡ f 1 → c ≡ f 2 → result.low ≡ blossom (s ∷ t ∷ []) f 0 }
    ensures high { (f : ℕ → ℤ) → b ≡ f 1 → c ≡ f 2 → d ≡ f 3 → result.high ≡ blossom (s ∷ t ∷ []) f 1 }
    ensures low_small { unsigned_abs result.low ≤ 2 ^ 91 }
    ensures high_small { unsigned_abs result.high ≤ 2 ^ 91 }
{
    let ab = mix(t, a, b);
    let bc = mix(t, b, c);
    let cd = mix(t, c, d);
    WidePair {
        low: mix(s, ab, bc),
        high: mix(s, bc, cd),
    }
}
