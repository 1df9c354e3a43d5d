// The fragments of a sample in JSON.
ghost use Rattle.std.specs.Prelude.{◌≡◌, ◌≤◌, ◌∷◌, [], IfOk, codes};
ghost use Rattle.serde_json.specs.Data.{object, put as with_member};
ghost use Rattle.account_text.specs.Numbers.{list_of};
ghost use Rattle.serde_json.specs.View.{view, members_view};
ghost use Rattle.account_text.specs.Fragments.{part_json, piece_json, cell_json, composite_json, corner_json, corners_json, shown_members, fragment_json, fragments_json};

use crate::numbers::{num, spot, triple};
use crate::primitive::primitive_json;
use fixed_math::NoMemory;
use hider::Corner;
use patches::Piece;
use pixel_record::{FragmentAccount, GridCell, GridPoint};
use serde_json::{Map, Value, json, put};
use std::alloc::Global;

// The part of that number of 2^`halvings` equal ones.
fn part_json(alloc: Global, halvings: u8, number: u16) -> Result<Value, NoMemory>
    requires { halvings ≤ 8 }
    ensures { IfOk result (λ v. view v ≡ part_json halvings number) }
{
    let parts = 1u32 << halvings;
    Ok(json!(in alloc; {"part": number, "of": parts})?)
}

fn piece_json(alloc: Global, piece: Piece) -> Result<Value, NoMemory>
    ensures { IfOk result (λ v. view v ≡ piece_json piece) }
{
    let u = part_json(alloc, piece.a, piece.i)?;
    let v = part_json(alloc, piece.b, piece.j)?;
    Ok(json!(in alloc; {"u": u, "v": v})?)
}

// Where a cell stands in its grid.
fn cell_json(alloc: Global, cell: &GridCell) -> Result<Value, NoMemory>
    ensures { IfOk result (λ v. view v ≡ cell_json cell.now) }
{
    Ok(json!(in alloc; {
        "row": cell.row,
        "column": cell.column,
        "rows": cell.rows,
        "columns": cell.columns
    })?)
}

// What the fragments to this one make.
#[tactic(auto, unfolding(crate::specs::Fragments::composite_json))]
fn composite_json(alloc: Global, fragment: &FragmentAccount) -> Result<Value, NoMemory>
    ensures { IfOk result (λ v. view v ≡ composite_json fragment.now) }
{
    let colour = triple(alloc, &fragment.colour)?;
    let passed = triple(alloc, &fragment.passed)?;
    Ok(json!(in alloc; {"colour": colour, "passed": passed})?)
}

// A corner of a micropolygon, as the grid has it and as the sample sees it.
#[tactic(auto, unfolding(crate::specs::Fragments::corner_json))]
fn corner_json(alloc: Global, point: &GridPoint, seen: &Corner) -> Result<Value, NoMemory>
    ensures { IfOk result (λ v. view v ≡ corner_json point.now seen.now) }
{
    let place = triple(alloc, &point.point)?;
    let ci = triple(alloc, &point.colour)?;
    let oi = triple(alloc, &point.opacity)?;
    let u = num(alloc, point.u)?;
    let v = num(alloc, point.v)?;
    let raster = spot(alloc, seen.place)?;
    let depth = num(alloc, seen.depth)?;
    let colour = triple(alloc, &seen.colour)?;
    let opacity = triple(alloc, &seen.opacity)?;
    let mut members = Map::new(alloc);
    put(&mut members, alloc, "v", v)?;
    put(&mut members, alloc, "u", u)?;
    put(&mut members, alloc, "raster", raster)?;
    put(&mut members, alloc, "opacity", opacity)?;
    put(&mut members, alloc, "depth", depth)?;
    put(&mut members, alloc, "colour", colour)?;
    put(&mut members, alloc, "P", place)?;
    put(&mut members, alloc, "Oi", oi)?;
    put(&mut members, alloc, "Ci", ci)?;
    Ok(Value::Object(members))
}

// Four values as a list.
fn four_json(alloc: Global, a: Value, b: Value, c: Value, d: Value) -> Result<Value, NoMemory>
    ensures { IfOk result (λ v. view v ≡ list_of (view a ∷ view b ∷ view c ∷ view d ∷ [])) }
{
    let mut list = Vec::new(alloc);
    list.push(a)?;
    list.push(b)?;
    list.push(c)?;
    list.push(d)?;
    Ok(Value::Array(list))
}

// The four corners in turn.
#[tactic(auto, unfolding(crate::specs::Fragments::corners_json))]
fn corners_json(alloc: Global, fragment: &FragmentAccount) -> Result<Value, NoMemory>
    ensures { IfOk result (λ v. view v ≡ corners_json fragment.now) }
{
    let points = &fragment.cell.points;
    let seen = &fragment.seen;
    let a = corner_json(alloc, &points[0], &seen.a)?;
    let b = corner_json(alloc, &points[1], &seen.b)?;
    let c = corner_json(alloc, &points[2], &seen.c)?;
    let d = corner_json(alloc, &points[3], &seen.d)?;
    four_json(alloc, a, b, c, d)
}

// The members of a fragment but for its corners.
#[tactic(auto, unfolding(crate::specs::Fragments::shown_members))]
fn shown_members(alloc: Global, fragment: &FragmentAccount) -> Result<Map<String, Value>, NoMemory>
    ensures { IfOk result (λ m. members_view m.entries ≡ shown_members fragment.now) }
{
    let mut members = Map::new(alloc);
    let shown = &fragment.fragment;
    let primitive = primitive_json(alloc, &fragment.primitive)?;
    put(&mut members, alloc, "primitive", primitive)?;
    put(
        &mut members,
        alloc,
        "piece",
        piece_json(alloc, fragment.cell.piece)?,
    )?;
    put(
        &mut members,
        alloc,
        "opacity",
        triple(alloc, &shown.opacity)?,
    )?;
    put(&mut members, alloc, "depth", num(alloc, shown.depth)?)?;
    put(
        &mut members,
        alloc,
        "composite",
        composite_json(alloc, fragment)?,
    )?;
    put(&mut members, alloc, "colour", triple(alloc, &shown.colour)?)?;
    put(
        &mut members,
        alloc,
        "cell",
        cell_json(alloc, &fragment.cell)?,
    )?;
    Ok(members)
}

// A fragment with the corners of its micropolygon.
fn with_corners(
    alloc: Global,
    fragment: &FragmentAccount,
    shown: Map<String, Value>,
) -> Result<Value, NoMemory>
    ensures { IfOk result (λ v. view v ≡ object (with_member (codes "corners") (corners_json fragment.now) (members_view shown.entries))) }
{
    let corners = corners_json(alloc, fragment)?;
    let mut members = shown;
    put(&mut members, alloc, "corners", corners)?;
    Ok(Value::Object(members))
}

// A fragment, with the corners of its micropolygon where they are wanted.
#[tactic(auto, unfolding(crate::specs::Fragments::fragment_json))]
fn fragment_json(alloc: Global, points: bool, fragment: &FragmentAccount) -> Result<Value, NoMemory>
    ensures { IfOk result (λ v. view v ≡ fragment_json points fragment.now) }
{
    let members = shown_members(alloc, fragment)?;
    if points {
        with_corners(alloc, fragment, members)
    } else {
        Ok(Value::Object(members))
    }
}

/// The fragments of a sample in turn.
pub(crate) fn fragments_json(
    alloc: Global,
    points: bool,
    fragments: &[FragmentAccount],
) -> Result<Value, NoMemory>
    ensures { IfOk result (λ v. view v ≡ fragments_json points fragments.now) }
{
    let mut list = Vec::new(alloc);
    for fragment in fragments {
        list.push(fragment_json(alloc, points, fragment)?)?;
    }
    Ok(Value::Array(list))
}
