// The pixels for which a sample counts in one direction.
ghost use Rattle.std.specs.Prelude.{ℕ, ◌≡◌, ◌≤◌, ◌<◌, ◌*◌, ◌+◌, ◌+ℤ◌, ◌-ℤ◌, ◌*ℤ◌, ◌≤ℤ◌, ◌<ℤ◌, ◌⊎◌, pos, unsigned_abs, true, false};
ghost use Rattle.fixed_math.specs.Whole.{floor_by};
ghost use Rattle.filter_ppm.specs.Weight.{counts};

/// Pixels from `first` to below `end`, by their columns or rows.
#[derive(Clone, Copy)]
pub(crate) struct Span {
    pub(crate) first: usize,
    pub(crate) end: usize,
}

/// Numbers of half a 256th of a pixel in whole pixels, rounded down.
#[tactic(auto, using(fixed_math::proofs::Floor::shr_is, crate::proofs::Spans::pixels_small))]
fn pixels_of(n: i64) -> i64
    requires { unsigned_abs n ≤ 536875264 }
    ensures value { result ≡ floor_by n 512 }
    ensures size { unsigned_abs result ≤ 1048600 }
{
    n >> 9
}

/// Twice a place less a pixel and the filter's width.
fn start_of(width: u32, s: i64) -> i64
    requires width { width ≤ 4096 }
    requires s { unsigned_abs s ≤ 268435456 }
    ensures value { result ≡ pos 2 *ℤ s -ℤ pos 256 -ℤ pos width }
    ensures size { unsigned_abs result ≤ 536875264 }
{
    2 * s - 256 - width as i64
}

/// Twice a place less a pixel and with the filter's width.
fn stop_of(width: u32, s: i64) -> i64
    requires width { width ≤ 4096 }
    requires s { unsigned_abs s ≤ 268435456 }
    ensures value { result ≡ pos 2 *ℤ s -ℤ pos 256 +ℤ pos width }
    ensures size { unsigned_abs result ≤ 536875264 }
{
    2 * s - 256 + width as i64
}

/// The first pixel for which a sample at `s` may count: for those before it the sample lies too far to the right.
fn low_of(width: u32, s: i64) -> i64
    requires width { width ≤ 4096 }
    requires s { unsigned_abs s ≤ 268435456 }
    ensures value { result ≡ floor_by (pos 2 *ℤ s -ℤ pos 256 -ℤ pos width) 512 +ℤ pos 1 }
    ensures size { unsigned_abs result ≤ 1048601 }
{
    pixels_of(start_of(width, s)) + 1
}

/// One past the last pixel for which it may.
fn high_of(width: u32, s: i64) -> i64
    requires width { width ≤ 4096 }
    requires s { unsigned_abs s ≤ 268435456 }
    ensures value { result ≡ floor_by (pos 2 *ℤ s -ℤ pos 256 +ℤ pos width) 512 +ℤ pos 1 }
    ensures size { unsigned_abs result ≤ 1048601 }
{
    pixels_of(stop_of(width, s)) + 1
}

/// A number put into `from` to `to`.
fn put_into(p: i64, from: usize, to: usize) -> usize
    requires order { from ≤ to }
    requires most { to ≤ 4096 }
    ensures low { from ≤ result }
    ensures high { result ≤ to }
    ensures before { (x : ℕ) → x < to → result ≤ x → p ≤ℤ pos x }
    ensures behind { (x : ℕ) → from ≤ x → x < result → pos x <ℤ p }
{
    if p <= from as i64 {
        from
    } else if p >= to as i64 {
        to
    } else {
        p as usize
    }
}

/// The pixels, of those from `from` to below `to`, for which a sample at `s` counts in one direction.
pub(crate) fn span_of(width: u32, s: i64, from: usize, to: usize) -> Span
    requires width { width ≤ 4096 }
    requires s { unsigned_abs s ≤ 268435456 }
    requires order { from ≤ to }
    requires most { to ≤ 4096 }
    ensures low { from ≤ result.first }
    ensures order { result.first ≤ result.end }
    ensures high { result.end ≤ to }
    ensures inside { (x : ℕ) → result.first ≤ x → x < result.end → counts width (s -ℤ pos (256 * x + 128)) ≡ true }
    ensures outside { (x : ℕ) → from ≤ x → x < to → (x < result.first) ⊎ (result.end ≤ x) → counts width (s -ℤ pos (256 * x + 128)) ≡ false }
{
    let first = put_into(low_of(width, s), from, to);
    let end = put_into(high_of(width, s), first, to);
    Span { first, end }
}
