// What the variables of a primitive give at all points of a leaf.
ghost use Rattle.std.specs.Prelude.{◌≡◌, ℕ, length, map, IfOk, IfSome};
ghost use Rattle.fixed_math.specs.Axes.{part_of};
ghost use Rattle.builtins.specs.Triples.{normalize as unit_of};
ghost use Rattle.grid_variables.specs.Points.{turned as turned_by, normal_of};
ghost use Rattle.grid_variables.specs.Variables.{spread_by, spread as spread_of, triple_or, variable_named as variable_of, is_pair as is_pair_of, setter as setter_of, texture_part, texture_or as coordinate_or, cs_at, os_at, s_at, t_at, given_normal, n_at};
ghost use Rattle.grid_variables.specs.Places.{point_count, over, parameter_at};

use crate::corners::{between, corners_of};
use crate::leaf::{Along, Leaf};
use crate::moves::{same, turned};
use crate::named::{is_pair, setter, variable_named};
use crate::places::parameters;
use builtins::normalize;
use bumpalo::Bump;
use bumpalo::collections::into_bump_slice;
use fixed_math::{Axis, NoMemory, Num, Vec3};
use scene::Variable;

/// The values of a variable at all points, turned over at the corners where that is asked.
pub fn spread<'a>(
    arena: &'a Bump,
    leaf: &Leaf,
    variable: &Variable,
    turn: bool,
) -> Result<&'a [Vec3], NoMemory>
    ensures { IfOk result (λ ts. ts.now ≡ over (point_count leaf.now) (spread_by turn leaf.now variable.now)) }
{
    let corners = corners_of(turn, variable, leaf.object());
    let varying = variable.is_varying();
    let mut values = Vec::with_capacity(arena, leaf.point_count())?;
    for i in 0..leaf.point_count() {
        values.push(between(varying, &corners, leaf.own_u(i), leaf.own_v(i)))?;
    }
    Ok(into_bump_slice(values))
}

/// The values of the variable of that name at all points, or one triple where there is none.
fn triples_or<'a>(
    arena: &'a Bump,
    leaf: &Leaf,
    name: &str,
    triple: &Vec3,
) -> Result<&'a [Vec3], NoMemory>
    ensures { IfOk result (λ ts. ts.now ≡ over (point_count leaf.now) (λ i. triple_or leaf.now i (variable_of name.now leaf.now.prim.vars) triple.now)) }
{
    match variable_named(leaf.variables(), name) {
        None => same(arena, leaf.point_count(), triple),
        Some(variable) => spread(arena, leaf, &variable, false),
    }
}

/// The one colour that shaders begin with, where no variable sets it.
pub fn one_colour(leaf: &Leaf) -> Option<Vec3>
    ensures { IfSome result (λ colour. (i : ℕ) → cs_at leaf.now i ≡ colour) }
{
    match variable_named(leaf.variables(), "Cs") {
        None => Some(*leaf.cs()),
        Some(_) => None,
    }
}

/// The one opacity that shaders begin with, where no variable sets it.
pub fn one_opacity(leaf: &Leaf) -> Option<Vec3>
    ensures { IfSome result (λ opacity. (i : ℕ) → os_at leaf.now i ≡ opacity) }
{
    match variable_named(leaf.variables(), "Os") {
        None => Some(*leaf.os()),
        Some(_) => None,
    }
}

/// The colours that shaders begin with.
pub fn first_colours<'a>(arena: &'a Bump, leaf: &Leaf) -> Result<&'a [Vec3], NoMemory>
    ensures { IfOk result (λ ts. ts.now ≡ over (point_count leaf.now) (cs_at leaf.now)) }
{
    triples_or(arena, leaf, "Cs", leaf.cs())
}

/// The opacities that shaders begin with.
pub fn first_opacities<'a>(arena: &'a Bump, leaf: &Leaf) -> Result<&'a [Vec3], NoMemory>
    ensures { IfOk result (λ ts. ts.now ≡ over (point_count leaf.now) (os_at leaf.now)) }
{
    triples_or(arena, leaf, "Os", leaf.os())
}

/// One coordinate of triples.
fn parts<'a>(arena: &'a Bump, triples: &[Vec3], axis: Axis) -> Result<&'a [Num], NoMemory>
    ensures { IfOk result (λ xs. xs.now ≡ map (part_of axis) triples.now) }
{
    let mut numbers = Vec::with_capacity(arena, triples.len())?;
    for triple in triples {
        numbers.push(triple.part(axis))?;
    }
    Ok(into_bump_slice(numbers))
}

/// The part of a value that is a coordinate of textures: of a pair the one along that axis, else the number.
fn texture_axis(axis: Axis, pair: bool) -> Axis
    ensures { (p : Vec3) → part_of result p ≡ texture_part axis pair p }
{
    if pair { axis } else { Axis::X }
}

/// The coordinate of textures that a variable gives at all points.
fn texture_by<'a>(
    arena: &'a Bump,
    leaf: &Leaf,
    variable: &Variable,
    axis: Axis,
) -> Result<&'a [Num], NoMemory>
    ensures { IfOk result (λ xs. xs.now ≡ over (point_count leaf.now) (λ i. texture_part axis (is_pair_of variable.now) (spread_of leaf.now variable.now i))) }
{
    let values = spread(arena, leaf, variable, false)?;
    parts(arena, values, texture_axis(axis, is_pair(variable)))
}

/// The coordinate of textures of that name at all points, or the parameter where no variable sets it.
fn texture_or<'a>(
    arena: &'a Bump,
    leaf: &Leaf,
    name: &str,
    along: Along,
    axis: Axis,
) -> Result<&'a [Num], NoMemory>
    ensures { IfOk result (λ xs. xs.now ≡ over (point_count leaf.now) (λ i. coordinate_or axis leaf.now i (setter_of name.now leaf.now.prim.vars) (parameter_at along leaf.now i))) }
{
    match setter(leaf.variables(), name) {
        None => parameters(arena, leaf, along),
        Some(variable) => texture_by(arena, leaf, &variable, axis),
    }
}

/// s at all points.
pub fn first_coordinates<'a>(arena: &'a Bump, leaf: &Leaf) -> Result<&'a [Num], NoMemory>
    ensures { IfOk result (λ xs. xs.now ≡ over (point_count leaf.now) (s_at leaf.now)) }
{
    texture_or(arena, leaf, "s", Along::U, Axis::X)
}

/// t at all points.
pub fn second_coordinates<'a>(arena: &'a Bump, leaf: &Leaf) -> Result<&'a [Num], NoMemory>
    ensures { IfOk result (λ xs. xs.now ≡ over (point_count leaf.now) (t_at leaf.now)) }
{
    texture_or(arena, leaf, "t", Along::V, Axis::Y)
}

/// Vectors made of length 1, and turned over where that is asked.
fn units<'a>(arena: &'a Bump, vectors: &[Vec3], flip: bool) -> Result<&'a [Vec3], NoMemory>
    ensures { IfOk result (λ ns. ns.now ≡ map (λ v. turned_by flip (unit_of v)) vectors.now) }
{
    let mut units = Vec::with_capacity(arena, vectors.len())?;
    for vector in vectors {
        units.push(turned(flip, &normalize(*vector)))?;
    }
    Ok(into_bump_slice(units))
}

/// The normals that a variable gives at all points.
fn given_normals<'a>(
    arena: &'a Bump,
    leaf: &Leaf,
    variable: &Variable,
) -> Result<&'a [Vec3], NoMemory>
    ensures { IfOk result (λ ns. ns.now ≡ over (point_count leaf.now) (given_normal leaf.now variable.now)) }
{
    let object = leaf.object();
    let vectors = spread(arena, leaf, variable, object.mirrored())?;
    units(arena, vectors, leaf.flip())
}

/// The normals that shaders begin with: the given ones, else the geometric ones, which are at hand.
pub fn normals_or<'a>(
    arena: &'a Bump,
    leaf: &Leaf,
    geometric: &'a [Vec3],
) -> Result<&'a [Vec3], NoMemory>
    requires { geometric.now ≡ over (point_count leaf.now) (normal_of leaf.now) }
    ensures { IfOk result (λ ns. ns.now ≡ over (point_count leaf.now) (n_at leaf.now)) }
{
    match variable_named(leaf.variables(), "N") {
        None => Ok(geometric),
        Some(variable) => given_normals(arena, leaf, &variable),
    }
}
