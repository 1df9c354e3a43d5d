// Exact mixes of whole numbers over 4096.
ghost use Rattle.std.specs.Prelude.{◌≡◌, ◌≤◌, ◌*◌, ◌+◌, ◌^◌, ℕ, pos, ◌*ℤ◌, ◌+ℤ◌, unsigned_abs};
ghost use Rattle.fixed_math.specs.Blossom.{mix as mix_of};

/// 4096 times the value at `s`/4096 on the way from `a` to `b`.
pub(crate) fn mix(s: u16, a: i128, b: i128) -> i128
    requires from_zero { s ≤ 4096 }
    requires small_a { unsigned_abs a ≤ 2 ^ 110 }
    requires small_b { unsigned_abs b ≤ 2 ^ 110 }
    ensures value { result ≡ mix_of s a b }
    ensures bound { (r : ℕ) → unsigned_abs a ≤ r → unsigned_abs b ≤ r → unsigned_abs result ≤ 4096 * r }
{
    (4096 - s) as i128 * a + s as i128 * b
}

/// `s` times `a` and `b` to it.
pub(crate) fn raised(s: u16, a: i128, b: i128) -> i128
    requires from_zero { s ≤ 4096 }
    requires small_a { unsigned_abs a ≤ 2 ^ 110 }
    requires small_b { unsigned_abs b ≤ 2 ^ 110 }
    ensures value { result ≡ pos s *ℤ a +ℤ b }
    ensures bound { unsigned_abs result ≤ 4096 * unsigned_abs a + unsigned_abs b }
{
    s as i128 * a + b
}

/// 4096 times the value at `s`/4096 on the way from `a` to `b`, of numbers of at most 46 bits.
pub(crate) fn mix_short(s: u16, a: i64, b: i64) -> i64
    requires from_zero { s ≤ 4096 }
    requires small_a { unsigned_abs a ≤ 2 ^ 46 }
    requires small_b { unsigned_abs b ≤ 2 ^ 46 }
    ensures value { result ≡ mix_of s a b }
    ensures bound { (r : ℕ) → unsigned_abs a ≤ r → unsigned_abs b ≤ r → unsigned_abs result ≤ 4096 * r }
{
    (4096 - s) as i64 * a + s as i64 * b
}
