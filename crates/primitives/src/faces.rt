// The patches of faces.
ghost use Rattle.std.specs.Prelude.{◌≡◌, ◌<◌, ◌≤◌, ◌+◌, ◌^◌, ◌++◌, ℕ, true, Some, All, IfOk, IfSome, length};
ghost use Rattle.std.specs.List.{sum_by};
ghost use Rattle.mesh_basis.specs.Ranges.{are_in_range};
ghost use Rattle.mesh_basis.specs.Polygons.{piece_count, pieces_of};
ghost use Rattle.quadrics.specs.declared.any_patch.AnyPatch.TheVariants.{Plain};
ghost use Rattle.scene.specs.Scene.{most_prims};
ghost use Rattle.scene_parts.specs.Faces.{use_up, are_places};
ghost use Rattle.scene.specs.Seats.{IsOfKind, IsThere};
ghost use Rattle.primitives.specs.Variables.{are_counted, faces_extent, face_seat};
ghost use Rattle.primitives.specs.Patches.{seated, face_patches, pieces_at, faces_from, faces_patches};
ghost use Rattle.primitives.specs.Answers.{GivesMade};

use crate::fault::PrimitiveFault;
use crate::patch::{PrimitivePatch, patch_with};
use crate::points::face_points;
use crate::seat::{Face, face_seat, faces_extent};
use crate::variables::are_counted;
use fixed_math::{List, NoMemory, Vec3};
use mesh_basis::{are_in_range, flat_normal, piece_of};
use quadrics::AnyPatch;
use scene::{RequestVariables, Shared};
use scene_parts::{Faces, StateCode, piece_total};
use std::alloc::Global;

// Adds the pieces of a face over these points, which have this normal.
fn add_seated(
    alloc: Global,
    all: &mut Vec<PrimitivePatch>,
    variables: &Shared<RequestVariables>,
    face: &Face<'_>,
    flat: &Vec3,
    points: &[Vec3],
) -> Result<(), NoMemory>
    requires some { 3 ≤ length points.now }
    requires near { are_in_range points.now ≡ true }
    requires room { piece_count (length points.now) ≤ most_prims }
    requires same { length face.now.points.now ≡ length points.now }
    requires few { face.now.first + length points.now < 2 ^ 64 }
    requires there { (i : ℕ) → i < piece_count (length face.now.points.now) → All (IsThere (face_seat face.now.index face.now.first face.now.points.now i)) variables.now }
    ensures { IfOk result (λ _. all.new.items ≡ all.old.items ++ seated Plain variables.now (Some flat.now) (face_seat face.now.index face.now.first face.now.points.now) 0 (pieces_of points.now)) }
{
    for i in 0..(points.len() - 1) / 2 {
        let patch = piece_of(points, i);
        let seat = face_seat(face.index, face.first, face.points, i);
        let placed = patch_with(variables, Some(*flat), seat, AnyPatch::Plain(patch))?;
        all.push(placed)?;
    }
    Ok(())
}

// Adds the pieces of a face over these points.
fn add_pieces(
    alloc: Global,
    all: &mut Vec<PrimitivePatch>,
    variables: &Shared<RequestVariables>,
    face: &Face<'_>,
    points: &[Vec3],
) -> Result<(), NoMemory>
    requires some { 3 ≤ length points.now }
    requires near { are_in_range points.now ≡ true }
    requires room { piece_count (length points.now) ≤ most_prims }
    requires same { length face.now.points.now ≡ length points.now }
    requires few { face.now.first + length points.now < 2 ^ 64 }
    requires there { (i : ℕ) → i < piece_count (length face.now.points.now) → All (IsThere (face_seat face.now.index face.now.first face.now.points.now i)) variables.now }
    ensures { IfOk result (λ _. all.new.items ≡ all.old.items ++ face_patches variables.now (face_seat face.now.index face.now.first face.now.points.now) points.now) }
{
    let flat = flat_normal(points);
    add_seated(alloc, all, variables, face, &flat, points)
}

// Adds the pieces of a face.
fn add_face(
    alloc: Global,
    all: &mut Vec<PrimitivePatch>,
    variables: &Shared<RequestVariables>,
    points: &[Vec3],
    face: &Face<'_>,
) -> Result<(), NoMemory>
    requires some { 3 ≤ length face.now.points.now }
    requires near { are_in_range points.now ≡ true }
    requires room { piece_count (length face.now.points.now) ≤ most_prims }
    requires few { face.now.first + length face.now.points.now < 2 ^ 64 }
    requires there { (i : ℕ) → i < piece_count (length face.now.points.now) → All (IsThere (face_seat face.now.index face.now.first face.now.points.now i)) variables.now }
    ensures { IfOk result (λ _. all.new.items ≡ all.old.items ++ pieces_at variables.now points.now face.now.index face.now.first face.now.points.now) }
{
    let corners = face_points(alloc, points, face.points)?;
    add_pieces(alloc, all, variables, face, corners.as_slice())
}

// The pieces of faces of these sizes, one after another.
fn faces_seated(
    alloc: Global,
    variables: &Shared<RequestVariables>,
    points: &[Vec3],
    sizes: &[usize],
    corners: &[usize],
) -> Result<List<PrimitivePatch>, NoMemory>
    requires near { are_in_range points.now ≡ true }
    requires faces { use_up sizes.now (length corners.now) ≡ true }
    requires room { sum_by piece_count sizes.now ≤ most_prims }
    requires few { length corners.now < 2 ^ 64 }
    requires points { are_places (length points.now) corners.now ≡ true }
    requires kinds { All IsOfKind variables.now }
    requires counted { are_counted (faces_extent (length points.now) (record { sizes = sizes.now; corners = corners.now })) variables.now ≡ true }
    ensures { IfOk result (λ all. all ≡ faces_from variables.now points.now 0 0 sizes.now corners.now) }
{
    let mut all = Vec::new(alloc);
    let (mut index, mut first, mut rest) = (0, 0, corners);
    for size in sizes {
        let (front, behind) = rest.split_at(*size);
        let face = Face {
            index,
            first,
            points: front,
        };
        add_face(alloc, &mut all, variables, points, &face)?;
        index += 1;
        first += *size;
        rest = behind;
    }
    Ok(List(all))
}

// The patches of these faces.
fn counted_faces(
    alloc: Global,
    variables: &Shared<RequestVariables>,
    room: usize,
    points: &[Vec3],
    faces: &Faces,
) -> Result<List<PrimitivePatch>, PrimitiveFault>
    requires points { are_places (length points.now) faces.now.corners ≡ true }
    requires room { room ≤ most_prims }
    requires kinds { All IsOfKind variables.now }
    ensures { GivesMade result (faces_patches variables.now room points.now (Some faces.now)) }
{
    if !are_counted(
        &faces_extent(faces, points.len()),
        variables.get().as_slice(),
    ) {
        return Err(PrimitiveFault::Refused(StateCode::G5));
    }
    let (sizes, corners) = (faces.sizes.as_slice(), faces.corners.as_slice());
    if piece_total(sizes) > room {
        return Err(PrimitiveFault::Refused(StateCode::M3));
    }
    if !are_in_range(points) {
        return Err(PrimitiveFault::Refused(StateCode::M7));
    }
    let all = faces_seated(alloc, variables, points, sizes, corners)?;
    Ok(all)
}

/// The patches of faces over these points, where they are some, with these variables, where so many more may be.
pub(crate) fn faces_patches(
    alloc: Global,
    variables: &Shared<RequestVariables>,
    room: usize,
    points: &[Vec3],
    faces: Option<Faces>,
) -> Result<List<PrimitivePatch>, PrimitiveFault>
    requires points { IfSome faces (λ f. are_places (length points.now) f.corners ≡ true) }
    requires room { room ≤ most_prims }
    requires kinds { All IsOfKind variables.now }
    ensures { GivesMade result (faces_patches variables.now room points.now faces) }
{
    match faces {
        Some(faces) => counted_faces(alloc, variables, room, points, &faces),
        None => Err(PrimitiveFault::Refused(StateCode::G5)),
    }
}
