// The built-in functions of points, vectors, normals and colours.
ghost use Rattle.std.specs.Prelude.{◌≡◌, ◌<◌, ◌^◌};
ghost use Rattle.fixed_math.specs.Fixed.{sub};
ghost use Rattle.fixed_math.specs.Unit as Unit;
ghost use Rattle.builtins.specs.Triples as spec;

use fixed_math::{Num, Vec3, isqrt, unit};

#[tactic(auto, unfolding(crate::specs::Triples::dot))]
fn products(a: &Vec3, b: &Vec3) -> Num
    ensures { result ≡ spec.dot a.now b.now }
{
    a.x.mul(b.x).add(a.y.mul(b.y)).add(a.z.mul(b.z))
}

/// The sum of the products of the parts.
pub fn dot(a: Vec3, b: Vec3) -> Num
    ensures { result ≡ spec.dot a b }
{
    products(&a, &b)
}

/// The cross product.
#[tactic(auto, unfolding(crate::specs::Triples::cross))]
pub fn cross(a: Vec3, b: Vec3) -> Vec3
    ensures { result ≡ spec.cross a b }
{
    Vec3 {
        x: a.y.mul(b.z).sub(a.z.mul(b.y)),
        y: a.z.mul(b.x).sub(a.x.mul(b.z)),
        z: a.x.mul(b.y).sub(a.y.mul(b.x)),
    }
}

/// The first part.
pub fn xcomp(v: Vec3) -> Num
    ensures { result ≡ v.x }
{
    v.x
}

/// The second part.
pub fn ycomp(v: Vec3) -> Num
    ensures { result ≡ v.y }
{
    v.y
}

/// The third part.
pub fn zcomp(v: Vec3) -> Num
    ensures { result ≡ v.z }
{
    v.z
}

fn square(c: Num) -> u128
    ensures value { result ≡ Unit.square c }
    ensures bound { result < 2 ^ 62 }
{
    let magnitude = c.raw().unsigned_abs() as u128;
    magnitude * magnitude
}

/// The length: the root of the exact sum of squares, rounded down.
#[tactic(auto, unfolding(crate::specs::Triples::length))]
pub fn length(v: Vec3) -> Num
    ensures { result ≡ spec.length v }
{
    Num::sat(isqrt(square(v.x) + square(v.y) + square(v.z)) as i128)
}

fn less(a: Vec3, b: Vec3) -> Vec3
    ensures { result ≡ spec.each_two sub a b }
{
    Vec3 {
        x: a.x.sub(b.x),
        y: a.y.sub(b.y),
        z: a.z.sub(b.z),
    }
}

/// The length of the difference.
#[tactic(auto, unfolding(crate::specs::Triples::distance))]
pub fn distance(a: Vec3, b: Vec3) -> Num
    ensures { result ≡ spec.distance a b }
{
    length(less(a, b))
}

/// The vector of length 1 of that direction; 0 for one of no length.
#[tactic(auto, unfolding(crate::specs::Triples::normalize))]
pub fn normalize(v: Vec3) -> Vec3
    ensures { result ≡ spec.normalize v }
{
    unit([v.x.raw() as i128, v.y.raw() as i128, v.z.raw() as i128])
}

/// The direction `i` thrown back by a surface of normal `n`: `i - 2 (i . n) n`.
#[tactic(auto, unfolding(crate::specs::Triples::reflect))]
pub fn reflect(i: Vec3, n: Vec3) -> Vec3
    ensures { result ≡ spec.reflect i n }
{
    let twice = Num::sat(131072).mul(products(&i, &n));
    let part = Vec3 {
        x: twice.mul(n.x),
        y: twice.mul(n.y),
        z: twice.mul(n.z),
    };
    less(i, part)
}

/// `n` where the product of `i` and `r` isn't above 0, else `n` turned.
#[tactic(auto, unfolding(crate::specs::Triples::faceforward))]
pub fn faceforward(n: Vec3, i: Vec3, r: Vec3) -> Vec3
    ensures { result ≡ spec.faceforward n i r }
{
    if dot(i, r).raw() > 0 {
        Vec3 {
            x: n.x.neg(),
            y: n.y.neg(),
            z: n.z.neg(),
        }
    } else {
        n
    }
}

/// A channel of a colour by its number, which is rounded down and put into 0 to 2.
#[tactic(auto, unfolding(crate::specs::Triples::comp))]
pub fn comp(c: Vec3, index: Num) -> Num
    ensures { result ≡ spec.comp c index }
{
    if index.raw() < 65536 {
        c.x
    } else if index.raw() < 131072 {
        c.y
    } else {
        c.z
    }
}

/// The depth of a point of camera space: 0 at the near plane, 1 at the far one.
#[tactic(auto, unfolding(crate::specs::Triples::depth))]
pub fn depth(p: Vec3, near: Num, far: Num) -> Num
    ensures { result ≡ spec.depth p near far }
{
    p.z.sub(near).div(far.sub(near))
}
