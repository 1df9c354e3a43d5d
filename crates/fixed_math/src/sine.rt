// Sine and cosine.
ghost use Rattle.std.specs.Prelude.{◌≡◌, ℕ, ◌<◌, ◌≤◌, pos, negsuc, ◌≤ℤ◌, unsigned_abs};
ghost use Rattle.fixed_math.specs.Fixed.{IsRaw};
ghost use Rattle.fixed_math.specs.Whole.{floor_by};
ghost use Rattle.fixed_math.specs.Sine.{sin, cos, reduced, folded, one_less, series};

use crate::num::Num;

#[tactic(auto, unfolding(crate::specs::Sine::reduced))]
fn reduced(x: i64) -> i64
    requires { IsRaw x }
    ensures value { result ≡ reduced x }
    ensures low { negsuc 205885 ≤ℤ result }
    ensures high { result ≤ℤ pos 205887 }
{
    let r = x.rem_euclid(411774);
    if r > 205887 { r - 411774 } else { r }
}

#[tactic(auto, unfolding(crate::specs::Sine::folded))]
fn folded(r: i64) -> i64
    requires low { negsuc 205885 ≤ℤ r }
    requires high { r ≤ℤ pos 205887 }
    ensures value { result ≡ folded r }
    ensures in_range { IsRaw result }
{
    if r > 102943 {
        205887 - r
    } else if r < -102943 {
        -205887 - r
    } else {
        r
    }
}

/// The `n`th part, rounded down.
#[tactic(auto, using(crate::proofs::Floor::div_euclid_is))]
fn part(p: i64, n: i64) -> i64
    requires low { pos 6 ≤ℤ n }
    requires high { n ≤ℤ pos 72 }
    ensures { result ≡ floor_by p (unsigned_abs n) }
{
    p.div_euclid(n)
}

/// 1 less the `n`th part.
#[tactic(auto, unfolding(crate::specs::Sine::one_less), using(crate::proofs::Bounds::one_less_in_range))]
fn one_less(p: Num, n: i64) -> Num
    requires low { pos 6 ≤ℤ n }
    requires high { n ≤ℤ pos 72 }
    ensures { result ≡ one_less p (unsigned_abs n) }
{
    Num::from_raw(65536 - part(p.raw(), n))
}

#[tactic(auto, unfolding(crate::specs::Sine::series))]
fn series(r: Num, s: Num) -> Num
    ensures { result ≡ series r s }
{
    let a = one_less(s, 72);
    let b = one_less(s.mul(a), 42);
    let c = one_less(s.mul(b), 20);
    let d = one_less(s.mul(c), 6);
    r.mul(d)
}

impl Num {
    /// The sine of an angle in radians, by a series on the folded angle.
    #[tactic(auto, unfolding(crate::specs::Sine::sin))]
    pub fn sin(self) -> Num
        ensures { result ≡ sin self }
    {
        let r = Num::from_raw(folded(reduced(self.raw())));
        series(r, r.mul(r))
    }

    /// The cosine of an angle in radians.
    #[tactic(auto, unfolding(crate::specs::Sine::cos))]
    pub fn cos(self) -> Num
        ensures { result ≡ cos self }
    {
        self.add(Num::from_raw(102944)).sin()
    }
}
