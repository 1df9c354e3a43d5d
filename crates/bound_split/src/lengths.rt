// Lengths of nets on the raster.
ghost use Rattle.std.specs.Prelude.{◌≡◌, ◌≤◌, ◌<◌, ◌+◌, ◌*◌, ◌%◌, ◌^◌, ◌≤ℤ◌, All, length, map};
ghost use Rattle.transforms.specs.declared.view.View.{View};
ghost use Rattle.bound_split.specs.Lengths.{place_of, step_length, line_length, rows_length, columns_length};

use arrayvec::ArrayVec;
use fixed_math::Vec3;
use transforms::Camera;

/// A place on the raster, in 1/256 pixel.
#[derive(Debug, Clone, Copy, Default, PartialEq, Eq)]
pub struct Place {
    pub x: i32,
    pub y: i32,
}

/// The length of a step: the greater of its distances across and down.
fn step_length(from: Place, to: Place) -> u64
    ensures value { result ≡ step_length from to }
    ensures bound { result < 2 ^ 32 }
{
    let across = to.x.abs_diff(from.x);
    let down = to.y.abs_diff(from.y);
    across.max(down) as u64
}

/// The length of the line of `steps` steps that begins at index `start` and goes `stride` on with each.
#[tactic(auto, using(crate::proofs::Sums::next_inside))]
fn line_length(places: &[Place], start: usize, stride: usize, steps: usize) -> u64
    requires few { steps ≤ 16 }
    requires inside { start + stride * steps < length places.now }
    ensures { result ≡ line_length places.now start stride steps }
{
    let mut total = 0;
    for step in 0..steps {
        let index = start + stride * step;
        total += step_length(places[index], places[index + stride]);
    }
    total
}

/// The greatest length of a row, of places in rows of `width`.
#[tactic(auto, using(crate::proofs::Sums::row_inside))]
pub(crate) fn rows_length(places: &[Place], width: usize) -> u64
    requires few { length places.now ≤ 16 }
    requires wide { 1 ≤ width }
    ensures { result ≡ rows_length width places.now }
{
    let mut most: u64 = 0;
    for row in 0..places.len() / width {
        most = most.max(line_length(places, width * row, 1, width - 1));
    }
    most
}

/// The greatest length of a column, of places in rows of `width`.
#[tactic(auto, using(crate::proofs::Sums::column_inside))]
pub(crate) fn columns_length(places: &[Place], width: usize) -> u64
    requires few { length places.now ≤ 16 }
    requires wide { 1 ≤ width }
    requires some { 0 < length places.now }
    requires rows { length places.now % width ≡ 0 }
    ensures { result ≡ columns_length width places.now }
{
    let steps = places.len() / width - 1;
    let mut most: u64 = 0;
    for column in 0..width {
        most = most.max(line_length(places, column, width, steps));
    }
    most
}

/// Where points of camera space lie on the raster; none of them lies before the near plane.
pub(crate) fn places_of(camera: &Camera, points: &[Vec3]) -> ArrayVec<Place, 16>
    requires few { length points.now ≤ 16 }
    requires seen { All (λ p. camera.now.near ≤ℤ p.z) points.now }
    ensures { result.items ≡ map (place_of camera.now) points.now }
{
    let mut places = ArrayVec::new();
    for point in points {
        let [x, y] = camera.raster(*point);
        places.push(Place {
            x: x as i32,
            y: y as i32,
        });
    }
    places
}
