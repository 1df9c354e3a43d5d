// The points of primitives in camera space.
ghost use Rattle.std.specs.Prelude.{◌≡◌, true, IfOk};
ghost use Rattle.rib_reader.specs.Table.{row_of};
ghost use Rattle.rib_reader.specs.Lists.{has_points, points_in};
ghost use Rattle.mesh_basis.specs.Polygons.{point};
ghost use Rattle.primitives.specs.Points.{saturated, camera_point, points_from, placed_points, face_points};

use fixed_math::{List, NoMemory, Num, Vec3};
use rib_reader::Request;
use std::alloc::Global;
use transforms::Affine;

// A raw place in camera space as a point.
fn saturated(raw: [i64; 3]) -> Vec3
    ensures { result ≡ saturated raw }
{
    Vec3 {
        x: Num::sat(raw[0] as i128),
        y: Num::sat(raw[1] as i128),
        z: Num::sat(raw[2] as i128),
    }
}

/// The image of a point.
pub(crate) fn camera_point(object: &Affine, point: Vec3) -> Vec3
    ensures { result ≡ camera_point object.now point }
{
    saturated(object.point(point))
}

// The points of three coordinates each, in camera space; none where a coordinate is left over.
fn points_from(
    alloc: Global,
    object: &Affine,
    numbers: &[Num],
) -> Result<Option<List<Vec3>>, NoMemory>
    ensures { IfOk result (λ r. r ≡ points_from object.now numbers.now) }
{
    let mut points = Vec::new(alloc);
    let mut rest = numbers;
    while let [x, y, z, behind @ ..] = rest {
        let point = Vec3 {
            x: *x,
            y: *y,
            z: *z,
        };
        points.push(camera_point(object, point))?;
        rest = behind;
    }
    if rest.is_empty() {
        Ok(Some(List(points)))
    } else {
        Ok(None)
    }
}

fn point(points: &[Vec3], place: usize) -> Vec3
    ensures { result ≡ point points.now place }
{
    points.get(place).copied().unwrap_or_default()
}

/// The points of a face.
pub(crate) fn face_points(
    alloc: Global,
    points: &[Vec3],
    corners: &[usize],
) -> Result<List<Vec3>, NoMemory>
    ensures { IfOk result (λ r. r ≡ face_points points.now corners.now) }
{
    let mut face = Vec::new(alloc);
    for corner in corners {
        face.push(point(points, *corner))?;
    }
    Ok(List(face))
}

/// A primitive's points in camera space, to which this map takes its object space; none where a coordinate is left over.
pub(crate) fn placed_points(
    alloc: Global,
    object: &Affine,
    request: &Request,
) -> Result<Option<List<Vec3>>, NoMemory>
    requires { has_points (row_of request.now.name).tail ≡ true }
    ensures { IfOk result (λ r. r ≡ placed_points object.now (points_in request.now.params)) }
{
    points_from(alloc, object, request.points())
}
