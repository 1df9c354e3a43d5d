// Masks of comparisons, and choices by a mask.
ghost use Rattle.std.specs.Prelude.{◌≡◌, ◌⊎◌, ℤ, pos, negsuc, cond, not};
ghost use Rattle.std.specs.Ordering.{int_eq};
ghost use Rattle.fixed_math.specs.Fixed.{IsRaw};
ghost use Rattle.lanes.specs.Masks.{mask_of, is_set, less, less_equal, equal, both, either, turned, choose};

/// The mask of `a < b`.
#[inline(always)]
pub fn less(a: i32, b: i32) -> i32
    ensures value { result ≡ less a b }
    ensures raw { IsRaw result }
{
    if a < b { -1 } else { 0 }
}

/// The mask of `a <= b`.
#[inline(always)]
pub fn less_equal(a: i32, b: i32) -> i32
    ensures value { result ≡ less_equal a b }
    ensures raw { IsRaw result }
{
    if a <= b { -1 } else { 0 }
}

/// The mask of `a == b`.
#[inline(always)]
pub fn equal(a: i32, b: i32) -> i32
    ensures value { result ≡ equal a b }
    ensures raw { IsRaw result }
{
    if a == b { -1 } else { 0 }
}

/// The mask that is set where both are.
#[inline(always)]
pub fn and(a: i32, b: i32) -> i32
    ensures value { result ≡ both a b }
    ensures raw { IsRaw result }
{
    if (a < 0) & (b < 0) { -1 } else { 0 }
}

/// The mask that is set where one is.
#[inline(always)]
pub fn or(a: i32, b: i32) -> i32
    ensures value { result ≡ either a b }
    ensures raw { IsRaw result }
{
    if (a < 0) | (b < 0) { -1 } else { 0 }
}

/// The mask that is set where `a` isn't.
#[inline(always)]
pub fn not(a: i32) -> i32
    ensures value { result ≡ turned a }
    ensures raw { IsRaw result }
{
    if a < 0 { 0 } else { -1 }
}

/// The mask of a number that isn't 0.
#[inline(always)]
pub fn some(a: i32) -> i32
    ensures value { result ≡ mask_of (not (int_eq a (pos 0))) }
    ensures raw { IsRaw result }
{
    if a == 0 { 0 } else { -1 }
}

// All bits of a mask as its sign.
#[inline(always)]
fn spread(m: i32) -> i32
    ensures { result ≡ mask_of (is_set m) }
{
    m >> 31
}

// A choice by bits: the compiler turns no `if` with two loads into lanes.
#[inline(always)]
fn by_bits(m: i32, x: i32, y: i32) -> i32
    requires { (m ≡ pos 0) ⊎ (m ≡ negsuc 0) }
    ensures { result ≡ choose m x y }
{
    (m & x) | (!m & y)
}

/// `x` where the mask is set, else `y`.
#[inline(always)]
pub fn chosen(m: i32, x: i32, y: i32) -> i32
    ensures value { result ≡ choose m x y }
    ensures raw { IsRaw x → IsRaw y → IsRaw result }
{
    by_bits(spread(m), x, y)
}
