// How far on its way something is at a moment.
ghost use Rattle.std.specs.Prelude.{◌≡◌, ◌≤◌, pos, ◌≤ℤ◌};
ghost use Rattle.fixed_math.specs.Whole.{clamp};
ghost use Rattle.moving.specs.Moments.{steps_at as steps_of};

use fixed_math::Num;

/// A raw number put into 0 to 65536.
fn within_way(share: i64) -> i64
    ensures value { result ≡ clamp (pos 0) (pos 65536) share }
    ensures low { pos 0 ≤ℤ result }
    ensures high { result ≤ℤ pos 65536 }
{
    if share < 0 {
        0
    } else if 65536 < share {
        65536
    } else {
        share
    }
}

/// How many of 65536 equal steps are made at a moment by what moves from the time `from` to the time `to`: none before, all behind.
pub fn steps_at(from: Num, to: Num, moment: Num) -> u32
    ensures value { result ≡ steps_of from to moment }
    ensures bound { result ≤ 65536 }
{
    let share = moment.sub(from).div(to.sub(from)).raw();
    within_way(share) as u32
}
