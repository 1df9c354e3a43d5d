// How far out on the raster what lies between two depths can lie. In perspective a point right of the middle lies further right
// when it is nearer, and one left of it further left.
ghost use Rattle.std.specs.Prelude.{◌≤◌, ◌^◌, ◌≤ℤ◌, unsigned_abs};
ghost use Rattle.hider.specs.Outermost.{IsLeftmost, IsRightmost, IsTopmost, IsBottommost};

use fixed_math::{Num, Vec3};
use transforms::Camera;

/// How far left what is at least so far right can lie, from one depth to another.
pub(crate) fn leftmost(camera: &Camera, x: Num, near: Num, far: Num) -> i64
    requires near { camera.now.near ≤ℤ near }
    requires far { camera.now.near ≤ℤ far }
    ensures value { IsLeftmost camera.now x near far result }
    ensures bound { unsigned_abs result ≤ 2 ^ 28 }
{
    // that the camera has a view tells the proof what holds of that
    let _view = camera.view();
    if x.raw() < 0 {
        camera.column(Vec3 { x, y: x, z: near })
    } else {
        camera.column(Vec3 { x, y: x, z: far })
    }
}

/// How far right what is at most so far right can lie.
pub(crate) fn rightmost(camera: &Camera, x: Num, near: Num, far: Num) -> i64
    requires near { camera.now.near ≤ℤ near }
    requires far { camera.now.near ≤ℤ far }
    ensures value { IsRightmost camera.now x near far result }
    ensures bound { unsigned_abs result ≤ 2 ^ 28 }
{
    let _view = camera.view();
    if x.raw() < 0 {
        camera.column(Vec3 { x, y: x, z: far })
    } else {
        camera.column(Vec3 { x, y: x, z: near })
    }
}

/// How far up what is at most so high can lie.
pub(crate) fn topmost(camera: &Camera, y: Num, near: Num, far: Num) -> i64
    requires near { camera.now.near ≤ℤ near }
    requires far { camera.now.near ≤ℤ far }
    ensures value { IsTopmost camera.now y near far result }
    ensures bound { unsigned_abs result ≤ 2 ^ 28 }
{
    let _view = camera.view();
    if y.raw() < 0 {
        camera.row(Vec3 { x: y, y, z: far })
    } else {
        camera.row(Vec3 { x: y, y, z: near })
    }
}

/// How far down what is at least so high can lie.
pub(crate) fn bottommost(camera: &Camera, y: Num, near: Num, far: Num) -> i64
    requires near { camera.now.near ≤ℤ near }
    requires far { camera.now.near ≤ℤ far }
    ensures value { IsBottommost camera.now y near far result }
    ensures bound { unsigned_abs result ≤ 2 ^ 28 }
{
    let _view = camera.view();
    if y.raw() < 0 {
        camera.row(Vec3 { x: y, y, z: near })
    } else {
        camera.row(Vec3 { x: y, y, z: far })
    }
}
