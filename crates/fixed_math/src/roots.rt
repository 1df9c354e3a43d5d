// The root of a whole number.
ghost use Rattle.std.specs.Prelude.{◌≡◌, ◌≤◌, ◌<◌, ◌^◌};
ghost use Rattle.fixed_math.specs.Root.{IsRoot, isqrt};

use crate::tables::INVERSE_ROOTS;

// About the root of n, by two steps of Newton's from a table: of any quality, since what uses it tests it.
fn guess(n: u64) -> u64
    ensures { result < 2 ^ 32 }
{
    let zeros = n.leading_zeros() & 62;
    let top = n << zeros;
    let x = top >> 32;
    let first = INVERSE_ROOTS[(top >> 55) as usize] as u64;
    let e = 844424930131968u64.wrapping_sub(x.wrapping_mul(first * first) >> 2);
    let second = first.wrapping_mul(e) >> 28;
    let e = 13835058055282163712u64.wrapping_sub(x.wrapping_mul(second.wrapping_mul(second) >> 30));
    let third = second.wrapping_mul(e >> 32) >> 30;
    ((x.wrapping_mul(third) >> 31) & 4294967295) >> (zeros / 2)
}

// The root, at once where r is at most one off.
#[tactic(auto, using(crate::proofs::Root::isqrt_is))]
fn settled(n: u64, r: u64) -> u64
    requires { r < 2 ^ 32 }
    ensures value { result ≡ isqrt n }
    ensures small { result < 2 ^ 32 }
{
    let square = r * r;
    if square <= n {
        let rest = n - square;
        if rest <= 2 * r {
            return r;
        }
        if rest - 2 * r <= 2 * r + 3 {
            return r + 1;
        }
    } else if square - n <= 2 * r - 1 {
        return r - 1;
    }
    n.isqrt()
}

/// The root of a number of 64 bits.
pub(crate) fn isqrt_short(n: u64) -> u64
    ensures value { result ≡ isqrt n }
    ensures small { result < 2 ^ 32 }
{
    settled(n, guess(n))
}

#[tactic(auto, using(crate::proofs::Root::isqrt_is))]
fn isqrt_long(n: u128) -> u128
    ensures value { result ≡ isqrt n }
    ensures bound { result < 2 ^ 64 }
{
    n.isqrt()
}

/// The greatest whole number whose square is not above `n`.
pub fn isqrt(n: u128) -> u128
    ensures root { IsRoot n result }
    ensures value { result ≡ isqrt n }
    ensures bound { result < 2 ^ 64 }
{
    if n < 18446744073709551616 {
        isqrt_short(n as u64) as u128
    } else {
        isqrt_long(n)
    }
}
