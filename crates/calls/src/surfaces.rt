// Surfaces, maps, cameras, the tree of splits, grids and samples.
ghost use Rattle.std.specs.Prelude.{◌≡◌, ◌≤◌, ◌^◌, pos, ◌≤ℤ◌, IfOk, unsigned_abs};
ghost use Rattle.patches.specs.Boxes.{IsWithin};
ghost use Rattle.bound_split.specs.Decisions.{decision_of};
ghost use Rattle.bound_split.specs.Leaves.{leaves};

use bound_split::{Decision, Leaf, Reach, Walk, decide, extent_of, halves, meets};
use bumpalo::Bump;
use dice::{line_at, placed_derivative, placed_parameter, placed_step, points, positions};
use fixed_math::{Num, Vec3};
use patches::{Bicubic, Bilinear, Dyadic, Patch, Piece, Surface};
use std::alloc::Global;
use std::test::Fail;
use transforms::{Affine, Camera, FormFault, Spaces, View};

const ONE: i64 = 65536;

pub fn raw(x: i64) -> Num {
    Num::sat(x as i128)
}

pub fn vec3(x: i64, y: i64, z: i64) -> Vec3 {
    Vec3 {
        x: raw(x),
        y: raw(y),
        z: raw(z),
    }
}

pub fn raws(p: Vec3) -> (i64, i64, i64) {
    (p.x.raw(), p.y.raw(), p.z.raw())
}

/// A point by its raw coordinates.
pub fn at(x: i128, y: i128, z: i128) -> Vec3
    requires x_small { unsigned_abs x ≤ 2 ^ 30 }
    requires y_small { unsigned_abs y ≤ 2 ^ 30 }
    requires z_small { unsigned_abs z ≤ 2 ^ 30 }
    ensures { IsWithin (2 ^ 30) result }
{
    Vec3 {
        x: Num::sat(x),
        y: Num::sat(y),
        z: Num::sat(z),
    }
}

pub fn bilinear(a: Vec3, b: Vec3, c: Vec3, d: Vec3) -> Bilinear
    requires a_small { IsWithin (2 ^ 30) a }
    requires b_small { IsWithin (2 ^ 30) b }
    requires c_small { IsWithin (2 ^ 30) c }
    requires d_small { IsWithin (2 ^ 30) d }
{
    Bilinear::new([a, b, c, d])
}

/// The square from (0, 0) to (1, 1) at depth 1, whose last corner is lower by 3/65536.
fn unit_square() -> Patch {
    Patch::Bilinear(bilinear(
        at(0, 0, 65536),
        at(65536, 0, 65536),
        at(0, 65536, 65536),
        at(65536, 65536, 65533),
    ))
}

#[test]
fn points_and_slopes(rt: HostRuntime) -> Result<(), Fail> {
    let square = unit_square();
    for (u, v, point) in [
        (2048, 1024, (32768, 16384, 65535)),
        (4096, 4096, (65536, 65536, 65533)),
        (0, 0, (0, 0, 65536)),
    ] {
        assert_eq!(rt; raws(square.point(Dyadic::new(u), Dyadic::new(v))), point);
    }
    let (half, quarter) = (Dyadic::new(2048), Dyadic::new(1024));
    assert_eq!(rt; square.du_at(half, quarter), [65536, 0, -1]);
    assert_eq!(rt; square.dv_at(half, quarter), [0, 65536, -2]);
    assert_eq!(rt; Dyadic::default().numerator(), 0);
    Ok(())
}

fn left() -> Vec3
    ensures { IsWithin (2 ^ 30) result }
{
    at(0, 0, 65536)
}

fn right() -> Vec3
    ensures { IsWithin (2 ^ 30) result }
{
    at(65536, 0, 65536)
}

/// The patch whose last column of control points alone lies one to the right.
fn bent() -> Bicubic {
    Bicubic::new([
        left(),
        left(),
        left(),
        right(),
        left(),
        left(),
        left(),
        right(),
        left(),
        left(),
        left(),
        right(),
        left(),
        left(),
        left(),
        right(),
    ])
}

#[test]
fn bicubic_points_and_slopes(rt: HostRuntime) -> Result<(), Fail> {
    let bent = Patch::Bicubic(bent());
    for (u, v, x, slope) in [
        (2048, 0, 8192, 49152),
        (2048, 1365, 8192, 49152),
        (4096, 4096, 65536, 196608),
        (0, 2048, 0, 0),
    ] {
        let (u, v) = (Dyadic::new(u), Dyadic::new(v));
        assert_eq!(rt; raws(bent.point(u, v)), (x, 0, 65536));
        assert_eq!(rt; bent.du_at(u, v), [slope, 0, 0]);
        assert_eq!(rt; bent.dv_at(u, v), [0, 0, 0]);
    }
    let [_, right] = halves(&Piece::whole(0), true);
    let net = bent.net(&right);
    assert_eq!(rt; (bent.net_width(), net.len()), (4, 16));
    for (point, x) in net.iter().zip([8192, 16384, 32768, 65536]) {
        assert_eq!(rt; raws(*point), (x, 0, 65536));
    }
    let [low, high] = bent.box_of(&right);
    assert_eq!(rt;
        (raws(low), raws(high)),
        ((8192, 0, 65536), (65536, 0, 65536))
    );
    Ok(())
}

#[test]
fn net_and_box(rt: HostRuntime) -> Result<(), Fail> {
    let square = unit_square();
    let [_, right] = halves(&Piece::whole(5), true);
    let [lower, _] = halves(&right, false);
    let [piece, _] = halves(&lower, false);
    let net = square.net(&piece);
    let want = [
        (32768, 0, 65536),
        (65536, 0, 65536),
        (32768, 16384, 65535),
        (65536, 16384, 65535),
    ];
    assert_eq!(rt; (square.net_width(), net.len()), (2, 4));
    for (point, want) in net.iter().zip(want) {
        assert_eq!(rt; raws(*point), want);
    }
    let [low, high] = square.box_of(&piece);
    assert_eq!(rt; raws(low), (32768, 0, 65535));
    assert_eq!(rt; raws(high), (65536, 16384, 65536));
    assert_eq!(rt;
        (piece.prim, piece.a, piece.i, piece.b, piece.j),
        (5, 1, 1, 2, 0)
    );
    assert!(rt; Piece::default() == Piece::whole(0));
    Ok(())
}

#[test]
fn grid_of_a_quarter(rt: HostRuntime) -> Result<(), Fail> {
    let [_, right] = halves(&Piece::whole(3), true);
    let [quarter, _] = halves(&right, false);
    let points = positions(rt.alloc(), &unit_square(), &quarter, 2, 0)?;
    let want = [
        (32768, 0, 65536),
        (40960, 0, 65536),
        (49152, 0, 65536),
        (57344, 0, 65536),
        (65536, 0, 65536),
        (32768, 32768, 65535),
        (40960, 32768, 65535),
        (49152, 32768, 65534),
        (57344, 32768, 65534),
        (65536, 32768, 65534),
    ];
    assert_eq!(rt; points.len(), want.len());
    for (point, want) in points.iter().zip(want) {
        assert_eq!(rt; raws(*point), want);
    }
    Ok(())
}

#[test]
fn grid_with_normals(rt: HostRuntime) -> Result<(), Fail> {
    let [_, right] = halves(&Piece::whole(3), true);
    let [quarter, _] = halves(&right, false);
    let square = unit_square();
    let arena = Bump::new(rt.alloc());
    let grid = points(&arena, &square, &quarter, 2, 0)?;
    assert_eq!(rt;
        (grid.columns, grid.rows, grid.p.len(), grid.n.len()),
        (5, 2, 10, 10)
    );
    assert_eq!(rt; raws(grid.p[0]), (32768, 0, 65536));
    assert_eq!(rt; raws(grid.p[9]), (65536, 32768, 65534));
    // the derivatives there are (65536, 0, 0) and (0, 65536, -2)
    assert_eq!(rt; raws(grid.n[0]), (0, 1, 65535));
    Ok(())
}

#[test]
fn places_on_a_primitive(rt: HostRuntime) -> Result<(), Fail> {
    let middle = line_at(1, 1, 2, 2);
    assert_eq!(rt; middle.numerator(), 3072);
    assert_eq!(rt; placed_parameter(1, 3, middle).raw(), 38229);
    assert_eq!(rt; placed_step(3, 1, 2).raw(), 2730);
    assert_eq!(rt; placed_step(65536, 8, 4).raw(), 1);
    assert_eq!(rt;
        raws(placed_derivative(3, [7, -2, 1 << 30])),
        (21, -6, 2147483647)
    );
    Ok(())
}

#[test]
fn places_and_times_of_samples(rt: HostRuntime) -> Result<(), Fail> {
    assert_eq!(rt; sample_pattern::position(0, 0, 0, 1, 1), [140, 252]);
    assert_eq!(rt; sample_pattern::position(3, 5, 1, 2, 3), [925, 1333]);
    assert_eq!(rt;
        sample_pattern::position(4095, 4095, 255, 16, 16),
        [1048566, 1048573]
    );
    for (x, y, cell, time) in [(0, 0, 0, 16748), (3, 5, 1, 3168), (4095, 4095, 255, 59225)] {
        assert_eq!(rt; sample_pattern::time(x, y, cell), time);
    }
    Ok(())
}

/// The camera of a window from -1 to 1 both ways over so many pixels both ways.
fn camera(fov: Option<Num>, pixels: u32, near: i64) -> Result<Camera, FormFault>
    requires some { 1 ≤ pixels }
    requires few { pixels ≤ 64 }
    requires near { pos 1 ≤ℤ near }
    requires near_limit { near ≤ℤ pos 64 }
{
    let (low, high) = (Num::sat(-65536), Num::sat(65536));
    Camera::new(View {
        fov,
        window: [low, high, low, high],
        width: pixels,
        height: pixels,
        near: Num::sat(near as i128),
        far: Num::sat(2147418112),
    })
}

/// Where a point lies on the raster, unless it is too near.
fn place(camera: &Camera, p: Vec3) -> Option<[i64; 2]> {
    let near = camera.view().near;
    if near <= p.z {
        Some(camera.raster(p))
    } else {
        None
    }
}

#[test]
fn places_on_the_raster(rt: HostRuntime) -> Result<(), Fail> {
    let perspective = camera(Some(raw(90 * ONE)), 2, 64)?;
    let orthographic = camera(None, 2, 64)?;
    for (x, y, z, seen, flat) in [
        (ONE, ONE, 2 * ONE, Some([384, 128]), Some([512, 0])),
        (-ONE, 0, 64, Some([-261888, 256]), Some([0, 256])),
        (
            2147483647,
            0,
            64,
            Some([268435456, 256]),
            Some([8388863, 256]),
        ),
        (0, 0, 63, None, None),
    ] {
        assert_eq!(rt; place(&perspective, vec3(x, y, z)), seen);
        assert_eq!(rt; place(&orthographic, vec3(x, y, z)), flat);
    }
    assert_eq!(rt; perspective.view().fov, Some(raw(90 * ONE)));
    assert_eq!(rt; perspective.view().width, 2);
    Ok(())
}

#[test]
fn fields_of_view(rt: HostRuntime) -> Result<(), Fail> {
    for (fov, accepted) in [
        (0, false),
        (229, false),
        (230, true),
        (-5898240, false),
        (5898240, true),
        (11796414, true),
        (11796479, false),
        (11796480, false),
    ] {
        let fault = camera(Some(raw(fov)), 2, 64).err();
        assert_eq!(rt; fault == Some(FormFault::G3), !accepted, "{fov}");
        assert_eq!(rt; fault.is_none(), accepted, "{fov}");
    }
    Ok(())
}

#[test]
fn turns(rt: HostRuntime) -> Result<(), Fail> {
    let turn = Affine::rotate(raw(90 * ONE), vec3(0, 0, 5))?;
    assert_eq!(rt; turn.point(vec3(7, 3, 2)), [-3, 7, 2]);
    assert_eq!(rt; turn.inverse().point(vec3(-3, 7, 2)), [7, 3, 2]);
    assert_eq!(rt; turn.normal(vec3(1, 0, 0)), [0, 1, 0]);
    assert!(rt; !turn.mirrored());
    // 60 degrees: the cosine is 32767 and the sine 56755
    let sixth = Affine::rotate(raw(60 * ONE), vec3(0, 0, ONE))?;
    assert_eq!(rt; sixth.point(vec3(ONE, 0, 0)), [32767, 56755, 0]);
    Ok(())
}

#[test]
fn maps_in_order(rt: HostRuntime) -> Result<(), Fail> {
    let shift = Affine::translate(vec3(ONE, 0, 0));
    let scale = Affine::scale(vec3(2 * ONE, ONE, -3 * ONE))?;
    let both = scale.before(&shift)?;
    assert_eq!(rt; both.point(vec3(5, 6, 7)), [2 * ONE + 10, 6, -21]);
    assert_eq!(rt; both.vector(vec3(5, 6, 7)), [10, 6, -21]);
    assert_eq!(rt; both.inverse().point(vec3(2 * ONE + 10, 6, -21)), [5, 6, 7]);
    assert!(rt; both.mirrored());
    assert!(rt; !both.before(&scale)?.mirrored());
    assert_eq!(rt; Affine::identity().point(vec3(1, 2, 3)), [1, 2, 3]);
    let spaces = Spaces {
        world: shift,
        object: both,
        shader: scale,
        near: raw(64),
        far: raw(ONE),
        flip: false,
    };
    assert_eq!(rt; spaces.object.vector(vec3(5, 6, 7)), [10, 6, -21]);
    Ok(())
}

/// The sixteen numbers of a matrix that scales by `a`, `b` and `c` and shifts by `t`, with `w` at their end.
fn numbers(a: i64, b: i64, c: i64, t: i64, w: i64) -> [Num; 16] {
    let o = raw(0);
    let (a, b, c, t, w) = (raw(a), raw(b), raw(c), raw(t), raw(w));
    [a, o, o, o, o, b, o, o, o, o, c, o, t, o, o, w]
}

#[test]
fn refused_maps(rt: HostRuntime) -> Result<(), Fail> {
    // the inverse's entries are 2^40, its shift is at the limit and then past it
    let limit = 128 * ONE;
    let great = Affine::scale(vec3(2147418112, ONE, ONE))?;
    for (answer, fault) in [
        (Affine::scale(vec3(ONE, 0, ONE)), Some(FormFault::G1)),
        (Affine::rotate(raw(ONE), vec3(0, 0, 0)), Some(FormFault::G1)),
        (
            Affine::concat(&numbers(0, ONE, ONE, 0, ONE + 1)),
            Some(FormFault::G4),
        ),
        (
            Affine::concat(&numbers(0, ONE, ONE, 0, ONE)),
            Some(FormFault::G1),
        ),
        (Affine::concat(&numbers(1, 1, 1, limit, ONE)), None),
        (
            Affine::concat(&numbers(1, 1, 1, limit + 1, ONE)),
            Some(FormFault::G2),
        ),
        (
            Affine::concat(&numbers(0, 1, 1, limit + 1, ONE)),
            Some(FormFault::G1),
        ),
        (great.before(&great), Some(FormFault::G2)),
    ] {
        assert_eq!(rt; answer.err(), fault);
    }
    let map = Affine::concat(&numbers(-2 * ONE, ONE, 4 * ONE, ONE, ONE))?;
    assert_eq!(rt; map.point(vec3(3, 5, 7)), [ONE - 6, 5, 28]);
    assert_eq!(rt; map.inverse().point(vec3(ONE - 6, 5, 28)), [3, 5, 7]);
    assert!(rt; map.mirrored());
    Ok(())
}

/// The square from -1 to 1 both ways, by the depths of its lower and its upper side.
fn square(low: i128, high: i128) -> Bilinear
    requires low_small { unsigned_abs low ≤ 2 ^ 30 }
    requires high_small { unsigned_abs high ≤ 2 ^ 30 }
{
    bilinear(
        at(-65536, -65536, low),
        at(65536, -65536, low),
        at(-65536, 65536, high),
        at(65536, 65536, high),
    )
}

#[test]
fn decisions_of_a_flat_square(rt: HostRuntime) -> Result<(), Fail> {
    let square = square(65536, 65536);
    let camera = camera(None, 17, 1)?;
    let whole = Piece::whole(3);
    let [half, _] = halves(&whole, true);
    let [quarter, _] = halves(&half, false);
    for (piece, decision) in [
        (whole, Decision::SplitU),
        (half, Decision::SplitV),
        (quarter, Decision::Dice { p: 4, q: 4 }),
    ] {
        assert_eq!(rt;
            decide(&square, &piece, &camera, Num::sat(65536), Num::sat(0)),
            decision
        );
    }
    Ok(())
}

/// The leaves that a test keeps, by the places of their parts.
fn kept<F: Fn(Piece) -> bool>(
    alloc: Global,
    square: &Bilinear,
    camera: &Camera,
    keeps: F,
) -> Result<Vec<(u16, u16)>, Fail>
    requires { F.IsAlwaysCallable keeps }
{
    let mut found = Vec::new(alloc);
    let mut walk = Walk::new(Piece::whole(3));
    for _ in 0..100 {
        match walk.next_kept(square, camera, Num::sat(65536), Num::sat(0), &keeps) {
            None => return Ok(found),
            Some(leaf) => found.push((leaf.piece.i, leaf.piece.j))?,
        }
    }
    Ok(found)
}

#[test]
fn leaves_in_order(rt: HostRuntime) -> Result<(), Fail> {
    let square = square(65536, 65536);
    let camera = camera(None, 17, 1)?;
    let mut walk = Walk::new(Piece::whole(3));
    for place in [Some((0, 0)), Some((0, 1)), Some((1, 0)), Some((1, 1)), None] {
        let leaf = walk.next(&square, &camera, Num::sat(65536), Num::sat(0));
        assert_eq!(rt; leaf.map(|l| (l.piece.i, l.piece.j)), place);
    }
    let right = kept(rt.alloc(), &square, &camera, |p| p.a == 0 || p.i == 1)?;
    assert_eq!(rt; right.as_slice(), [(1, 0), (1, 1)].as_slice());
    Ok(())
}

#[test]
fn across_the_near_plane(rt: HostRuntime) -> Result<(), Fail> {
    let square = square(-65536, 65536);
    let camera = camera(Some(Num::sat(5898240)), 17, 1)?;
    let mut walk = Walk::new(Piece::whole(0));
    let Leaf { piece, p, q } = walk
        .next(&square, &camera, Num::sat(65536), Num::sat(0))
        .ok_or("a leaf")?;
    assert_eq!(rt; (piece.a, piece.b, p, q), (1, 1, 0, 0));
    let second = walk
        .next(&square, &camera, Num::sat(65536), Num::sat(0))
        .ok_or("a leaf")?;
    assert!(rt; second.piece.a <= 8 && second.piece.b <= 8);
    Ok(())
}

#[test]
fn pieces_in_tiles(rt: HostRuntime) -> Result<(), Fail> {
    // half of the window's width and its lower half: 8.5 pixels both ways
    let flat = square(65536, 65536);
    let camera = camera(None, 17, 1)?;
    let whole = Piece::whole(3);
    let [half, _] = halves(&whole, true);
    let [quarter, _] = halves(&half, false);
    assert!(rt; meets(&flat, &quarter, &camera, Num::sat(0), [8, 8, 9, 9]));
    assert!(rt; !meets(&flat, &quarter, &camera, Num::sat(0), [9, 8, 10, 9]));
    assert!(rt; !meets(&flat, &quarter, &camera, Num::sat(0), [8, 7, 9, 8]));
    // displacement by a half of a pixel and more reaches further
    assert!(rt; meets(&flat, &quarter, &camera, Num::sat(4096), [8, 7, 9, 8]));
    let steep = square(-65536, 65536);
    let extent = extent_of(&steep, &whole, &camera, Num::sat(5));
    assert_eq!(rt; extent.reach, Reach::Everywhere);
    assert_eq!(rt; extent.nearest, raw(-65541));
    assert!(rt; extent.meets([16, 16, 17, 17]));
    Ok(())
}
