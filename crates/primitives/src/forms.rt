// Quadrics by their requests, and the patches that they are made of.
ghost use Rattle.std.specs.Prelude.{◌≡◌, ◌≤◌, ◌<◌, ◌*◌, [], ◌∷◌};
ghost use Rattle.primitives.specs.Quadrics.{form_of, circle, turned, placed_arc, round_at, ruled_at, half_at, patch_at, halves};

use crate::points::camera_point;
use fixed_math::{Num, Vec3};
use mesh_basis::are_in_range;
use quadrics::Quadric;
use rib_reader::{Req, Request};
use transforms::Affine;

/// A circle about the z axis, by its radius and its height.
#[derive(Clone, Copy)]
pub(crate) struct Circle {
    pub(crate) radius: Num,
    pub(crate) height: Num,
}

impl Circle {
    fn new(radius: Num, height: Num) -> Circle
        ensures { result ≡ circle radius height }
    {
        Circle { radius, height }
    }
}

/// A quadric: a sphere about the origin by its radius, or the straight lines from one circle to another.
#[derive(Clone, Copy)]
pub(crate) enum Form {
    Sphere(Num),
    Ruled(Circle, Circle),
}

/// The quadric of a request; other requests have none.
pub(crate) fn form_of(request: &Request) -> Option<Form>
    ensures { result ≡ form_of request.now.name request.now.args }
{
    match request.name {
        Req::Sphere => Some(Form::Sphere(request.number(0))),
        Req::Cylinder => Some(Form::Ruled(
            Circle::new(request.number(0), request.number(1)),
            Circle::new(request.number(0), request.number(2)),
        )),
        Req::Cone => Some(Form::Ruled(
            Circle::new(request.number(1), Num::sat(0)),
            Circle::new(Num::sat(0), request.number(0)),
        )),
        Req::Disk => Some(Form::Ruled(
            Circle::new(request.number(1), request.number(0)),
            Circle::new(Num::sat(0), request.number(0)),
        )),
        _ => None,
    }
}

// The point turned about the z axis by so many right angles, each of which takes (x, y) to (-y, x).
fn turned(point: Vec3, quarter: u64) -> Vec3
    requires { quarter < 4 }
    ensures { result ≡ turned quarter point }
{
    let Vec3 { x, y, z } = point;
    match quarter {
        0 => point,
        1 => Vec3 {
            x: y.neg(),
            y: x,
            z,
        },
        2 => Vec3 {
            x: x.neg(),
            y: y.neg(),
            z,
        },
        _ => Vec3 {
            x: y,
            y: x.neg(),
            z,
        },
    }
}

// A quarter of a circle, by its three points in camera space.
fn placed_arc(object: &Affine, quarter: u64, circle: Circle) -> [Vec3; 3]
    requires { quarter < 4 }
    ensures { result ≡ placed_arc object.now quarter circle }
{
    let Circle { radius, height } = circle;
    let start = Vec3 {
        x: radius,
        y: Num::sat(0),
        z: height,
    };
    let corner = Vec3 {
        x: radius,
        y: radius,
        z: height,
    };
    let end = Vec3 {
        x: Num::sat(0),
        y: radius,
        z: height,
    };
    [
        camera_point(object, turned(start, quarter)),
        camera_point(object, turned(corner, quarter)),
        camera_point(object, turned(end, quarter)),
    ]
}

// The patch of three rows, where its points are in range.
#[tactic(auto, unfolding(crate::specs::Quadrics::round_at))]
fn round_at(
    object: &Affine,
    quarter: u64,
    low: Circle,
    middle: Circle,
    high: Circle,
) -> Option<Quadric>
    requires { quarter < 4 }
    ensures { result ≡ round_at object.now quarter low middle high }
{
    let [a, b, c] = placed_arc(object, quarter, low);
    let [d, e, f] = placed_arc(object, quarter, middle);
    let [g, h, i] = placed_arc(object, quarter, high);
    let points = [a, b, c, d, e, f, g, h, i];
    if are_in_range(&points) {
        Some(Quadric::round(points))
    } else {
        None
    }
}

// The patch of two rows, where its points are in range.
#[tactic(auto, unfolding(crate::specs::Quadrics::ruled_at))]
fn ruled_at(object: &Affine, quarter: u64, low: Circle, high: Circle) -> Option<Quadric>
    requires { quarter < 4 }
    ensures { result ≡ ruled_at object.now quarter low high }
{
    let [a, b, c] = placed_arc(object, quarter, low);
    let [d, e, f] = placed_arc(object, quarter, high);
    let points = [a, b, c, d, e, f];
    if are_in_range(&points) {
        Some(Quadric::ruled(points))
    } else {
        None
    }
}

// A patch of a half of a sphere: of the south, half 0, or of the north.
fn half_at(object: &Affine, quarter: u64, half: u64, radius: Num) -> Option<Quadric>
    requires { quarter < 4 }
    ensures { result ≡ half_at object.now quarter half radius }
{
    let equator = Circle::new(radius, Num::sat(0));
    if half == 0 {
        let pole = Circle::new(Num::sat(0), radius.neg());
        let corner = Circle::new(radius, radius.neg());
        round_at(object, quarter, pole, corner, equator)
    } else {
        let corner = Circle::new(radius, radius);
        let pole = Circle::new(Num::sat(0), radius);
        round_at(object, quarter, equator, corner, pole)
    }
}

impl Form {
    /// How many halves it has, each of four patches.
    pub(crate) fn halves(&self) -> u32
        ensures value { result ≡ halves self.now }
        ensures some { 1 ≤ result }
        ensures few { result ≤ 2 }
    {
        match self {
            Form::Sphere(_) => 2,
            Form::Ruled(_, _) => 1,
        }
    }

    /// Patch `k` under this map, where its points are in range.
    pub(crate) fn patch_at(&self, object: &Affine, k: u64) -> Option<Quadric>
        ensures { result ≡ patch_at object.now self.now k }
    {
        let (quarter, half) = (k % 4, k / 4);
        match self {
            Form::Sphere(radius) => half_at(object, quarter, half, *radius),
            Form::Ruled(low, high) => ruled_at(object, quarter, *low, *high),
        }
    }
}
