// From the mean of a pixel's samples to its numbers in the picture.
ghost use Rattle.std.specs.Prelude.{ℤ, ◌≡◌, ◌≤◌, ◌<◌, ◌*◌, ◌^◌, pos, ◌+ℤ◌, ◌*ℤ◌, ◌∷◌, [], All, unsigned_abs};
ghost use Rattle.fixed_math.specs.Whole.{floor_by};
ghost use Rattle.filter_ppm.specs.Levels.{level, levels};
ghost use Rattle.pixel_account.specs.Account.{brightened};
ghost use Rattle.pixel_account.specs.Toning.{AreTonesOf};

use filter_ppm::{expose, pixel_levels};
use fixed_math::{Num, Vec3, floor_by, plus, times};
use pixel_record::Tones;
use scene::Options;

/// A colour times the gain.
fn brightened(options: &Options, colour: &Vec3) -> Vec3
    ensures { result ≡ brightened options.now colour.now }
{
    Vec3 {
        x: colour.x.mul(options.gain),
        y: colour.y.mul(options.gain),
        z: colour.z.mul(options.gain),
    }
}

/// `one` times a channel, rounded to the nearest whole number, a half up.
#[tactic(auto, unfolding(filter_ppm::specs::Levels::level))]
fn rounded(one: u32, v: Num) -> i64
    requires { one ≤ 65535 }
    ensures { result ≡ level one v }
{
    let doubled = times::<17, 31>(2 * one as i128, v.raw() as i128);
    floor_by(plus(doubled, 65536), 131072) as i64
}

/// The numbers of a pixel whose samples have this mean.
pub(crate) fn tones_of(options: &Options, mean: Vec3) -> Tones
    ensures value { AreTonesOf options.now mean result }
{
    options.ranges_known();
    let exposed = expose(options, mean);
    let one = options.one;
    Tones {
        mean,
        bright: brightened(options, &mean),
        exposed,
        rounded: [
            rounded(one, exposed.x),
            rounded(one, exposed.y),
            rounded(one, exposed.z),
        ],
        levels: pixel_levels(options, mean),
    }
}
