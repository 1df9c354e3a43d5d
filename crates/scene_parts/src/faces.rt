// The faces of polygons.
ghost use Rattle.std.specs.Prelude.{◌≡◌, ◌≤◌, ◌<◌, ◌^◌, true, option_map, IfOk, IfSome, length};
ghost use Rattle.std.specs.List.{sum_by, range_with_len};
ghost use Rattle.rib_reader.specs.declared.req.Req.TheVariants as reqs;
ghost use Rattle.mesh_basis.specs.Polygons.{piece_count};
ghost use Rattle.fixed_math.specs.Decimal.{whole};
ghost use Rattle.scene_parts.specs.Faces.{FaceValues, AreFaces, natural, naturals, use_up, are_places, faces_over, one_face, faces_in};

use fixed_math::{Decimal, List, NoMemory};
use rib_reader::Request;
use std::alloc::Global;
use std::marker::Model;

/// How many corners each face has, at least three, and the places of their points, face after face. Contracts see it as a record.
#[derive(Drop)]
pub struct Faces {
    pub sizes: List<usize>,
    pub corners: List<usize>,
}

impl Model for Faces {
    ghost Value = { FaceValues };

    ghost view = { λ f. record { sizes = f.sizes; corners = f.corners } };

    ghost invariant = { λ f. AreFaces (record { sizes = f.sizes; corners = f.corners }) };
}

// A whole number that isn't below 0.
fn natural(number: &Decimal) -> Option<usize>
    ensures { result ≡ natural (whole number.now) }
{
    usize::try_from(number.whole()?).ok()
}

// Whole numbers, where none is below 0.
fn naturals(alloc: Global, numbers: &[Decimal]) -> Result<Option<List<usize>>, NoMemory>
    ensures { IfOk result (λ r. r ≡ naturals numbers.now) }
{
    let mut all = Vec::new(alloc);
    for number in numbers {
        let Some(natural) = natural(number) else {
            return Ok(None);
        };
        all.push(natural)?;
    }
    Ok(Some(List(all)))
}

// Whether faces of these sizes use up so many corners.
fn use_up(sizes: &[usize], corners: usize) -> bool
    ensures { result ≡ use_up sizes.now corners }
{
    let mut left = corners;
    for size in sizes {
        if *size < 3 || *size > left {
            return false;
        }
        left -= *size;
    }
    left == 0
}

// Whether each is the place of one of so many points.
fn are_places(points: usize, corners: &[usize]) -> bool
    ensures { result ≡ are_places points corners.now }
{
    corners.iter().all(|corner| *corner < points)
}

// The faces over so many points, where they are some.
fn faces_over(points: usize, sizes: List<usize>, corners: List<usize>) -> Option<Faces>
    ensures value { result ≡ faces_over points sizes corners }
    ensures places { IfSome result (λ f. are_places points f.corners ≡ true) }
{
    if use_up(sizes.as_slice(), corners.len()) && are_places(points, corners.as_slice()) {
        Some(Faces { sizes, corners })
    } else {
        None
    }
}

// The numbers from 0 to before `n`.
fn below(alloc: Global, n: usize) -> Result<List<usize>, NoMemory>
    ensures { IfOk result (λ r. r ≡ range_with_len 0 n) }
{
    let mut all = Vec::new(alloc);
    for k in 0..n {
        all.push(k)?;
    }
    Ok(List(all))
}

/// One face round all points, where they are enough.
pub fn one_face(alloc: Global, points: usize) -> Result<Option<Faces>, NoMemory>
    ensures value { IfOk result (λ r. r ≡ one_face points) }
    ensures places { IfOk result (λ r. IfSome r (λ f. are_places points f.corners ≡ true)) }
{
    let mut sizes = Vec::new(alloc);
    sizes.push(points)?;
    Ok(faces_over(points, List(sizes), below(alloc, points)?))
}

/// The faces over so many points of `PointsPolygons`, where they are some.
pub fn faces_in(alloc: Global, request: &Request, points: usize) -> Result<Option<Faces>, NoMemory>
    requires { request.now.name ≡ reqs.PointsPolygons }
    ensures value { IfOk result (λ r. r ≡ faces_in points request.now.args) }
    ensures places { IfOk result (λ r. IfSome r (λ f. are_places points f.corners ≡ true)) }
{
    let Some(sizes) = naturals(alloc, request.wholes(0))? else {
        return Ok(None);
    };
    let Some(corners) = naturals(alloc, request.wholes(1))? else {
        return Ok(None);
    };
    Ok(faces_over(points, sizes, corners))
}

/// How many pieces faces of these sizes have.
pub fn piece_total(sizes: &[usize]) -> usize
    requires { sum_by piece_count sizes.now < 2 ^ 64 }
    ensures { result ≡ sum_by piece_count sizes.now }
{
    sizes.iter().map(|size| size.saturating_sub(1) / 2).sum()
}
