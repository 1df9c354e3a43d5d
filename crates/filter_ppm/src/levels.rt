// From a pixel's colour to the numbers of the picture.
ghost use Rattle.std.specs.Prelude.{◌≡◌, ◌≤◌, ◌<◌, ◌*◌, ◌^◌, ◌+ℤ◌, ◌*ℤ◌, pos, unsigned_abs};
ghost use Rattle.fixed_math.specs.Whole.{floor_by};
ghost use Rattle.filter_ppm.specs.Levels.{exposed_part, exposed, level, limited, quantized, levels};

use crate::total::product;
use fixed_math::{Num, Vec3};
use scene::Options;

#[tactic(auto, unfolding(crate::specs::Levels::exposed_part))]
fn expose_part(o: &Options, v: Num) -> Num
    ensures { result ≡ exposed_part o.now v }
{
    let bright = v.mul(o.gain);
    if o.gamma == Num::sat(65536) {
        bright
    } else {
        bright.pow(Num::sat(65536).div(o.gamma))
    }
}

/// The exposed colour: each channel times the gain, to the power 1 / gamma (RenderMan Interface 3.2, exposure).
pub fn expose(o: &Options, c: Vec3) -> Vec3
    ensures { result ≡ exposed o.now c }
{
    Vec3 {
        x: expose_part(o, c.x),
        y: expose_part(o, c.y),
        z: expose_part(o, c.z),
    }
}

/// Twice `one` times a channel.
fn doubled(one: u32, v: Num) -> i64
    requires one { one ≤ 65535 }
    ensures value { result ≡ pos (2 * one) *ℤ v }
    ensures size { unsigned_abs result < 2 ^ 49 }
{
    product((2 * one) as i64, v.raw())
}

/// A number over 131072, rounded to the nearest whole number, a half up.
#[tactic(auto, using(fixed_math::proofs::Floor::div_euclid_is))]
fn rounded(n: i64) -> i64
    requires { unsigned_abs n < 2 ^ 49 }
    ensures { result ≡ floor_by (n +ℤ pos 65536) 131072 }
{
    (n + 65536).div_euclid(131072)
}

/// `one` times a channel, rounded to the nearest whole number, a half up.
#[tactic(auto, unfolding(crate::specs::Levels::level))]
fn level_of(one: u32, v: Num) -> i64
    requires { one ≤ 65535 }
    ensures { result ≡ level one v }
{
    rounded(doubled(one, v))
}

/// A number put into `low` to `high`.
#[tactic(auto, unfolding(crate::specs::Levels::limited))]
fn put_into(low: u32, high: u32, n: i64) -> u32
    requires { low ≤ high }
    ensures value { result ≡ limited low high n }
    ensures low { low ≤ result }
    ensures high { result ≤ high }
{
    if n < low as i64 {
        low
    } else if n > high as i64 {
        high
    } else {
        n as u32
    }
}

/// The number of a channel in the picture: `one` times it, rounded to the nearest whole number, a half up, and put into
/// `min` to `max` (RenderMan Interface 3.2, quantization).
pub fn quantize(o: &Options, v: Num) -> u32
    ensures value { result ≡ quantized o.now v }
    ensures low { o.now.min ≤ result }
    ensures high { result ≤ o.now.max }
    ensures most { result ≤ o.now.one }
{
    put_into(o.min, o.max, level_of(o.one, v))
}

/// The three numbers of a pixel of this colour.
#[tactic(auto, unfolding(crate::specs::Levels::levels))]
pub fn pixel_levels(o: &Options, c: Vec3) -> [u32; 3]
    ensures { result ≡ levels o.now c }
{
    let exposed = expose(o, c);
    [
        quantize(o, exposed.x),
        quantize(o, exposed.y),
        quantize(o, exposed.z),
    ]
}
