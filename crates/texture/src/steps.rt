// The level for a step.
ghost use Rattle.std.specs.Prelude.{◌≡◌, ◌≤◌, ◌≤ℤ◌, ◌*◌, ◌^◌, pos, nat_le, int_le};
ghost use Rattle.texture.specs.Levels.{last_level, level_of};

use crate::texture::{Texture, side_of};

/// Whether one square of level `k` holds sides of at most `most`.
fn holds(most: u32, k: u32) -> bool
    requires { k ≤ 11 }
    ensures { result ≡ nat_le most (2 ^ k) }
{
    most <= side_of(k)
}

/// Whether level `k` is coarse enough for a step.
fn reaches(step: i64, k: u32) -> bool
    requires { k ≤ 11 }
    ensures { result ≡ int_le step (pos (65536 * 2 ^ k)) }
{
    step <= 65536 * side_of(k) as i64
}

/// The level for a step: the least that is coarse enough, or the last one where that is less.
pub fn level(t: &Texture, step: i64) -> u8
    requires { pos 0 ≤ℤ step }
    ensures value { result ≡ level_of t.now step }
    ensures bound { result ≤ 11 }
{
    let most = t.most_side();
    for k in 0..11u32 {
        if reaches(step, k) {
            return k as u8;
        }
        if holds(most, k) {
            return k as u8;
        }
    }
    11
}
