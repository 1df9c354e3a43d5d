// Places on the way from one point to another.
ghost use Rattle.std.specs.Prelude.{◌≡◌, ◌≤◌, ◌*◌, ◌^◌, ℕ, pos, ◌-ℤ◌, ◌*ℤ◌, unsigned_abs};
ghost use Rattle.fixed_math.specs.declared.vec3.Axis.{Axis};
ghost use Rattle.fixed_math.specs.Axes.{part_of};
ghost use Rattle.fixed_math.specs.Fixed.{IsRaw};
ghost use Rattle.fixed_math.specs.Whole.{floor_by};
ghost use Rattle.moving.specs.Ways.{on_way as on_way_of, place_on_way as place_of, IsBetween};

use fixed_math::{Num, Vec3};

/// `steps` of 65536 equal parts of a difference, rounded down.
#[tactic(auto, using(fixed_math::proofs::Floor::shr_is))]
fn share(difference: i64, steps: u32) -> i64
    requires small { unsigned_abs difference ≤ 2 ^ 32 }
    requires steps { steps ≤ 65536 }
    ensures value { result ≡ floor_by (pos steps *ℤ difference) 65536 }
    ensures bound { unsigned_abs result ≤ 2 ^ 32 }
{
    (steps as i64 * difference) >> 16
}

/// The same of the difference of two numbers.
fn step(p: Num, q: Num, steps: u32) -> i64
    requires { steps ≤ 65536 }
    ensures value { result ≡ floor_by (pos steps *ℤ (q -ℤ p)) 65536 }
    ensures bound { unsigned_abs result ≤ 2 ^ 32 }
    ensures start { unsigned_abs p ≤ 2147483647 }
    ensures end { unsigned_abs q ≤ 2147483647 }
{
    share(q.raw() - p.raw(), steps)
}

/// The raw number `steps` of 65536 equal steps from `p` towards `q`, rounded down.
fn reached(p: Num, q: Num, steps: u32) -> i64
    requires { steps ≤ 65536 }
    ensures value { result ≡ on_way_of steps p q }
    ensures raw { IsRaw (on_way_of steps p q) }
{
    p.raw() + step(p, q, steps)
}

/// The number `steps` of 65536 equal steps from `p` towards `q`, rounded down. It lies between both, so it is in range.
pub fn on_way(p: Num, q: Num, steps: u32) -> Num
    requires { steps ≤ 65536 }
    ensures { result ≡ on_way_of steps p q }
{
    Num::from_raw(reached(p, q, steps))
}

/// The place `steps` of 65536 equal steps on the straight way from `p` to `q`, each coordinate rounded down once. `steps` is at most
/// 65536. At a time between two others a coordinate lies between those at these times.
pub fn place_on_way(p: Vec3, q: Vec3, steps: u32) -> Vec3
    requires { steps ≤ 65536 }
    ensures value { result ≡ place_of steps p q }
    ensures between { (k n : ℕ) (a : Axis) → k ≤ steps → steps ≤ n → IsBetween (part_of a (place_of k p q)) (part_of a (place_of n p q)) (part_of a result) }
    ensures within { (a : Axis) → IsBetween (part_of a p) (part_of a q) (part_of a result) }
{
    Vec3 {
        x: on_way(p.x, q.x, steps),
        y: on_way(p.y, q.y, steps),
        z: on_way(p.z, q.z, steps),
    }
}
