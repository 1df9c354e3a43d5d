// Logarithms and powers of two.
ghost use Rattle.std.specs.Prelude.{◌≡◌, ◌+◌, ◌*◌, ◌-◌, ◌/◌, ◌%◌, ◌^◌, ◌<◌, ◌≤◌, ℤ, pos, negsuc, ◌-ℤ◌, ◌≤ℤ◌, unsigned_abs, IsTrue, length, cond, nat_le};
ghost use Rattle.fixed_math.specs.Fixed.{sat, IsRaw};
ghost use Rattle.fixed_math.specs.Power.{log_bits, floor_log2, log2_of, log2, exp_bits, with_exponent, exp2, pow};
ghost use Rattle.fixed_math.specs.PowerTable.{factor, with_middle, with_low, high_power, checked};

use crate::num::Num;
use crate::tables::POWERS;

/// The greatest `k` with `2^k` at most `x`.
#[tactic(auto, using(crate::proofs::Logs::floor_log2_is, crate::proofs::Logs::log_small))]
fn floor_log2(x: u64) -> u32
    requires some { 0 < x }
    requires small { x < 2 ^ 31 }
    ensures value { result ≡ floor_log2 x }
    ensures low { 2 ^ result ≤ x }
    ensures high { x < 2 * 2 ^ result }
    ensures place { result ≤ 30 }
{
    x.ilog2()
}

/// `x` moved up to the place of `2^30`.
#[tactic(auto, using(crate::proofs::Logs::mantissa_is, crate::proofs::Logs::mantissa_small))]
fn mantissa(x: u64, k: u32) -> u64
    requires place { k ≤ 30 }
    requires below { x < 2 * 2 ^ k }
    ensures value { result ≡ x * 2 ^ (30 - k) }
    ensures small { result < 2 ^ 31 }
{
    x << (30 - k)
}

// `m` times `s / 2^30` where the bit `k` of `f` is set.
fn factor(f: u64, k: u32, m: u64, s: u64) -> u64
    requires place { k < 12 }
    requires m_small { m < 2 ^ 33 }
    requires s_low { 2 ^ 30 ≤ s }
    requires s_high { s ≤ 2 ^ 30 + 2 ^ 25 }
    ensures value { result ≡ factor k f m s }
    ensures low { m ≤ result }
    ensures high { 32 * result ≤ 33 * m }
{
    if (f >> k) % 2 == 1 {
        m * s / 1073741824
    } else {
        m
    }
}

// The factors of the four bits below the high ones: the fifth to the eighth root of two, each the root of the one before, in 30 fraction bits.
fn with_middle(f: u64, m: u64) -> u64
    requires { m ≤ 2 ^ 31 }
    ensures value { result ≡ with_middle f m }
    ensures low { m ≤ result }
    ensures high { result < 2 ^ 32 }
{
    let a = factor(f, 11, m, 1097253707);
    let b = factor(f, 10, a, 1085434105);
    let c = factor(f, 9, b, 1079572135);
    factor(f, 8, c, 1076653032)
}

// The factors of the eight low bits: the ninth to the sixteenth root of two.
fn with_low(f: u64, m: u64) -> u64
    requires { m < 2 ^ 32 }
    ensures value { result ≡ with_low f m }
    ensures low { m ≤ result }
    ensures high { result < 2 ^ 33 }
{
    let a = factor(f, 7, m, 1075196442);
    let b = factor(f, 6, a, 1074468886);
    let c = factor(f, 5, b, 1074105293);
    let d = factor(f, 4, c, 1073923543);
    let e = factor(f, 3, d, 1073832679);
    let g = factor(f, 2, e, 1073787250);
    let h = factor(f, 1, g, 1073764536);
    factor(f, 0, h, 1073753179)
}

// The power of an entry, of a table that is checked entry by entry when this is proved.
fn lookup(table: &[u32], j: u64) -> u64
    requires checked { IsTrue (checked table.now 0) }
    requires place { j < length table.now }
    ensures value { result ≡ high_power j }
    ensures low { 2 ^ 30 ≤ result }
    ensures high { result ≤ 2 ^ 31 }
{
    table[j as usize] as u64
}

// The product of the roots that the four high bits name.
fn high_power(j: u64) -> u64
    requires { j < 16 }
    ensures value { result ≡ high_power j }
    ensures low { 2 ^ 30 ≤ result }
    ensures high { result ≤ 2 ^ 31 }
{
    lookup(&POWERS, j)
}

#[tactic(auto, using(crate::proofs::PowerTable::sixteen))]
fn exp_bits(f: u64) -> u64
    requires { f < 65536 }
    ensures value { result ≡ exp_bits 16 f (2 ^ 30) (2 ^ 31) }
    ensures low { 2 ^ 30 ≤ result }
    ensures high { result < 2 ^ 33 }
{
    with_low(f, with_middle(f, high_power(f / 4096)))
}

// Whether a square passes 2, and what is left of it.
fn bit_of(square: u64) -> u64
    requires { square < 2 ^ 32 }
    ensures value { result ≡ cond (nat_le 2147483648 square) 1 0 }
    ensures bound { result ≤ 1 }
{
    square / 2147483648
}

fn halved(square: u64) -> u64
    requires { square < 2 ^ 32 }
    ensures value { result ≡ cond (nat_le 2147483648 square) (square / 2) square }
    ensures bound { result < 2 ^ 31 }
{
    if square >= 2147483648 {
        square / 2
    } else {
        square
    }
}

// The next `k` bits of the logarithm of `m / 2^30` behind those before.
fn log_bits(k: u32, m: u64, before: u64) -> u64
    requires steps { k ≤ 16 }
    requires small { m < 2 ^ 31 }
    requires room { before * 2 ^ k + 2 ^ k ≤ 2 ^ 16 }
    ensures value { result ≡ before * 2 ^ k + log_bits k m }
    ensures bound { result < 2 ^ 16 }
{
    if k == 0 {
        return before;
    }
    let square = m * m / 1073741824;
    log_bits(k - 1, halved(square), 2 * before + bit_of(square))
}

/// The logarithm of a raw value above 0.
fn log2_of(x: u64) -> Num
    requires some { 0 < x }
    requires small { x < 2 ^ 31 }
    ensures { result ≡ log2_of x }
{
    let k = floor_log2(x);
    let bits = log_bits(16, mantissa(x, k), 0);
    Num::from_raw((k as i64 - 16) * 65536 + bits as i64)
}

/// The raw nearest below `m` times `2^(w - 14)`.
fn with_exponent(m: u64, w: i64) -> Num
    requires low { 2 ^ 30 ≤ m }
    requires high { m < 2 ^ 33 }
    requires w_in_range { IsRaw w }
    ensures { result ≡ sat (with_exponent m (w -ℤ pos 14)) }
{
    if w >= 15 {
        Num::from_raw(2147483647)
    } else if w < -40 {
        Num::from_raw(0)
    } else if w == 14 {
        Num::sat(m as i128)
    } else {
        Num::sat((m >> (14 - w)) as i128)
    }
}

impl Num {
    /// The logarithm to the base two, rounded down to sixteen bits; 0 for a number that isn't above 0.
    #[tactic(auto, using(crate::proofs::Logs::log2_above, crate::proofs::Logs::log2_none))]
    pub fn log2(self) -> Num
        ensures { result ≡ log2 self }
    {
        let x = self.raw();
        if x <= 0 {
            Num::from_raw(0)
        } else {
            log2_of(x as u64)
        }
    }

    /// Two to the power of the number, by the product of the roots of two that its fraction bits name.
    #[tactic(auto, unfolding(crate::specs::Power::exp2))]
    pub fn exp2(self) -> Num
        ensures { result ≡ exp2 self }
    {
        let x = self.raw();
        let fraction = x.rem_euclid(65536);
        with_exponent(exp_bits(fraction as u64), x.div_euclid(65536))
    }

    /// The power `self^y`: 1 for `y` 0, else 0 for a base that isn't above 0.
    #[tactic(auto, unfolding(crate::specs::Power::pow))]
    pub fn pow(self, y: Num) -> Num
        ensures { result ≡ pow self y }
    {
        if y.raw() == 0 {
            Num::from_raw(65536)
        } else if self.raw() <= 0 {
            Num::from_raw(0)
        } else {
            y.mul(self.log2()).exp2()
        }
    }
}
