// Parts of a vector by one inverse of its length. The inverse is tested once, so that no part has to be.
ghost use Rattle.std.specs.Prelude.{◌≡◌, ◌*◌, ◌/◌, ◌<◌, ◌≤◌, ◌^◌, pos, ◌*ℤ◌, true, unsigned_abs};
ghost use Rattle.fixed_math.specs.Fixed.{IsRaw};
ghost use Rattle.fixed_math.specs.Unit.{part};
ghost use Rattle.fixed_math.specs.Whole.{floor_by};
ghost use Rattle.lanes.specs.Directions.{IsFine};

/// About 2^83 over a length whose first bit is brought to the top of 32, and by how many bits that is: of any quality.
#[derive(Clone, Copy)]
pub(crate) struct Fine {
    factor: u64,
    zeros: u32,
    ghost few: { zeros < 32 },
}

/// The inverse by three terms of a series from `first`, about 2^63 over the length with its first bit brought to the top of 32, which
/// are `zeros` bits. It is a little more than the inverse, by as much as parts allow: the less the length, the more.
#[inline(always)]
pub(crate) fn fine_inverse(n: u64, first: u64, zeros: u32) -> Fine {
    let zeros = zeros & 31;
    let length = n << zeros;
    let rest = 9223372036854775808u64.wrapping_sub(length.wrapping_mul(first)) >> 19;
    let more = rest.wrapping_add(rest.wrapping_mul(rest) >> 44);
    let correction = first.wrapping_mul(more) >> 24;
    Fine {
        factor: (first << 20)
            .wrapping_add(correction)
            .wrapping_add(2 << zeros),
        zeros,
    }
}

impl Fine {
    /// Whether parts of a vector of length `n` by this inverse need no test.
    #[inline(always)]
    #[tactic(auto, using(crate::proofs::Inverses::fine_shifted))]
    pub(crate) fn serves(self, n: u64) -> bool
        requires { n < 2 ^ 32 }
        ensures { result ≡ true → IsFine n self.factor self.zeros }
    {
        let length = n << self.zeros;
        if length >= 4294967296 {
            return false;
        }
        let product = length as u128 * self.factor as u128;
        if product >> 64 != 524288 {
            return false;
        }
        (product % 18446744073709551616) as u64 >> self.zeros < 17179869184
    }
}

// The whole part of 65536 x over n.
#[inline(always)]
#[tactic(auto, using(crate::proofs::Inverses::steps_shifted, crate::proofs::Inverses::steps_small))]
fn steps(x: u64, n: u64, by: Fine) -> u64
    requires x { x ≤ 2 * n }
    requires bound { n < 2 ^ 32 }
    requires fine { IsFine n by.factor by.zeros }
    ensures value { result ≡ x * 65536 / n }
    ensures small { result ≤ 131072 }
{
    ((x << by.zeros) as u128 * by.factor as u128 >> 67) as u64
}

// 65536 c over n, rounded down.
#[inline(always)]
#[tactic(auto, using(crate::proofs::Inverses::part_shifted))]
fn floor_of(c: i32, n: u64, by: Fine) -> i64
    requires some { 0 < n }
    requires le { unsigned_abs c ≤ n }
    requires bound { n < 2 ^ 32 }
    requires fine { IsFine n by.factor by.zeros }
    ensures value { result ≡ floor_by (c *ℤ pos 65536) n }
    ensures small { unsigned_abs result ≤ 65536 }
{
    let x = (c as i64 + n as i64) as u64;
    steps(x, n, by) as i64 - 65536
}

/// The part `c` of a vector of length `n`.
#[inline(always)]
#[tactic(auto, using(crate::proofs::Inverses::part_of))]
pub(crate) fn fine_part(c: i32, n: u64, by: Fine) -> i32
    requires some { 0 < n }
    requires le { unsigned_abs c ≤ n }
    requires bound { n < 2 ^ 32 }
    requires fine { IsFine n by.factor by.zeros }
    ensures value { result ≡ part c n }
    ensures raw { IsRaw result }
{
    floor_of(c, n, by) as i32
}
