// What runs of shaders are given.
ghost use Rattle.std.specs.Prelude.{◌≡◌, ◌++◌, length, IfOk};
ghost use Rattle.sl_ast.specs.declared.kinds.SlKind.TheVariants as kinds;
ghost use Rattle.builtins.specs.Names.{place_of};
ghost use Rattle.fixed_math.specs.Axes.{origin};
ghost use Rattle.grid_variables.specs.Points.{normal_of};
ghost use Rattle.grid_variables.specs.Variables.{cs_at, os_at};
ghost use Rattle.grid_variables.specs.Places.{point_count, over, normals_of, IsSized};
ghost use Rattle.grid_rows.specs.Rows.{AreRaws, triple_rows, value_rows};
ghost use Rattle.grid_rows.specs.Wanted.{given_order, is_optional as is_optional_at, is_named, wanted, zero_of_name};
ghost use Rattle.grid_rows.specs.Given.{name_rows, wanted_rows, all_rows, given_rows, AreNamed, AreSeen};

use crate::arguments::push_parameters;
use crate::parameters::Parameters;
use crate::rows::{Rows, length_of_row, push_numbers, push_triple, push_triples, push_value};
use bumpalo::Bump;
use fixed_math::{NoMemory, Num, Vec3};
use grid_code::{Register, RegisterSet, named};
use grid_variables::{
    Along, Leaf, Variables, derivatives, first_colours, first_coordinates, first_opacities,
    geometric_normals, normals_or, one_colour, one_opacity, parameters, second_coordinates,
};
use sl_ast::{Predefined, SlKind, Value};

/// The varying variables that a kind is given: those that it reads alone, and then those that it writes.
fn given(kind: SlKind) -> &'static [Predefined]
    ensures { result.now ≡ given_order kind }
{
    match kind {
        SlKind::Surface => &[
            Predefined::P,
            Predefined::N,
            Predefined::Ng,
            Predefined::I,
            Predefined::U,
            Predefined::V,
            Predefined::S,
            Predefined::T,
            Predefined::Cs,
            Predefined::Os,
            Predefined::DPdu,
            Predefined::DPdv,
        ],
        SlKind::Displacement => &[
            Predefined::Ng,
            Predefined::I,
            Predefined::U,
            Predefined::V,
            Predefined::S,
            Predefined::T,
            Predefined::Cs,
            Predefined::Os,
            Predefined::DPdu,
            Predefined::DPdv,
            Predefined::P,
            Predefined::N,
        ],
        SlKind::Volume => &[Predefined::P, Predefined::I, Predefined::Ci, Predefined::Oi],
        SlKind::Light => &[Predefined::Ps],
    }
}

// Whether a surface doesn't need a variable unless its code names it.
fn is_optional_in_surface(name: Predefined) -> bool
    ensures { result ≡ is_optional_at kinds.Surface (place_of name) }
{
    match name {
        Predefined::N
        | Predefined::Ng
        | Predefined::I
        | Predefined::U
        | Predefined::V
        | Predefined::S
        | Predefined::T
        | Predefined::DPdu
        | Predefined::DPdv => true,
        Predefined::P
        | Predefined::E
        | Predefined::Du
        | Predefined::Dv
        | Predefined::Cs
        | Predefined::Os
        | Predefined::L
        | Predefined::Cl
        | Predefined::Ci
        | Predefined::Oi
        | Predefined::Ps
        | Predefined::Pi => false,
    }
}

// Whether a displacement doesn't need a variable unless its code names it.
fn is_optional_in_displacement(name: Predefined) -> bool
    ensures { result ≡ is_optional_at kinds.Displacement (place_of name) }
{
    match name {
        Predefined::Ng
        | Predefined::I
        | Predefined::U
        | Predefined::V
        | Predefined::S
        | Predefined::T
        | Predefined::Cs
        | Predefined::Os
        | Predefined::DPdu
        | Predefined::DPdv => true,
        Predefined::P
        | Predefined::N
        | Predefined::E
        | Predefined::Du
        | Predefined::Dv
        | Predefined::L
        | Predefined::Cl
        | Predefined::Ci
        | Predefined::Oi
        | Predefined::Ps
        | Predefined::Pi => false,
    }
}

// Whether a kind of shader doesn't need a variable unless its code names it.
fn is_optional(kind: SlKind, name: Predefined) -> bool
    ensures { result ≡ is_optional_at kind (place_of name) }
{
    match kind {
        SlKind::Surface => is_optional_in_surface(name),
        SlKind::Displacement => is_optional_in_displacement(name),
        SlKind::Light | SlKind::Volume => false,
    }
}

// Whether a varying register is one of a set.
fn names(set: &RegisterSet, register: Register) -> bool
    ensures { result ≡ is_named set.now register }
{
    match register {
        Register::Varying(shape, number) => set.index(shape, number).is_some(),
        Register::Uniform(_, _) => false,
    }
}

/// A kind of shader with the varying registers that its code names. Variables that it can't see are given as 0.
#[derive(Clone, Copy)]
pub struct Wanted<'s> {
    pub kind: SlKind,
    pub named: &'s RegisterSet,
}

// Whether a shader is given a variable as it is.
fn wants(shader: &Wanted, name: Predefined) -> bool
    ensures { result ≡ wanted shader.now.kind shader.now.named.now name }
{
    !is_optional(shader.kind, name) || names(shader.named, named::register_of(name))
}

// The geometric normals, where a shader sees normals: they are made once for N and Ng.
fn normals_for<'a>(arena: &'a Bump, leaf: &Leaf, shader: &Wanted) -> Result<&'a [Vec3], NoMemory>
    ensures { IfOk result (λ ns. AreSeen shader.now.kind shader.now.named.now leaf.now ns.now) }
{
    if wants(shader, Predefined::N) || wants(shader, Predefined::Ng) {
        return geometric_normals(arena, leaf);
    }
    Ok(&[])
}

// Appends the normals.
fn push_normals(
    rows: &mut Rows,
    arena: &Bump,
    leaf: &Leaf,
    variables: &Variables,
    geometric: &[Vec3],
) -> Result<(), NoMemory>
    requires count { length (normals_of leaf.now variables.now.normals) ≡ point_count leaf.now }
    requires geometric { geometric.now ≡ over (point_count leaf.now) (normal_of leaf.now) }
    ensures { IfOk result (λ _. rows.new ≡ rows.old ++ triple_rows (normals_of leaf.now variables.now.normals)) }
{
    let _points = leaf.point_count();
    match variables.normals {
        Some(normals) => push_triples(rows, normals),
        None => push_triples(rows, normals_or(arena, leaf, geometric)?),
    }
}

// Appends the colours that shaders begin with.
fn push_colours(rows: &mut Rows, arena: &Bump, leaf: &Leaf) -> Result<(), NoMemory>
    ensures { IfOk result (λ _. rows.new ≡ rows.old ++ triple_rows (over (point_count leaf.now) (cs_at leaf.now))) }
{
    let points = leaf.point_count();
    match one_colour(leaf) {
        Some(colour) => push_triple(rows, &colour, points),
        None => push_triples(rows, first_colours(arena, leaf)?),
    }
}

// Appends the opacities that shaders begin with.
fn push_opacities(rows: &mut Rows, arena: &Bump, leaf: &Leaf) -> Result<(), NoMemory>
    ensures { IfOk result (λ _. rows.new ≡ rows.old ++ triple_rows (over (point_count leaf.now) (os_at leaf.now))) }
{
    let points = leaf.point_count();
    match one_opacity(leaf) {
        Some(opacity) => push_triple(rows, &opacity, points),
        None => push_triples(rows, first_opacities(arena, leaf)?),
    }
}

// Appends the rows of a variable.
fn push_name(
    rows: &mut Rows,
    arena: &Bump,
    leaf: &Leaf,
    variables: &Variables,
    geometric: &[Vec3],
    name: Predefined,
) -> Result<(), NoMemory>
    requires sized { IsSized leaf.now variables.now }
    requires geometric { AreNamed name leaf.now geometric.now }
    ensures { IfOk result (λ _. rows.new ≡ rows.old ++ name_rows leaf.now variables.now name) }
{
    let _points = leaf.point_count();
    match name {
        Predefined::P => push_triples(rows, variables.points),
        Predefined::N => push_normals(rows, arena, leaf, variables, geometric),
        Predefined::Ng => push_triples(rows, geometric),
        Predefined::I => push_triples(rows, variables.sights),
        Predefined::U => push_numbers(rows, parameters(arena, leaf, Along::U)?),
        Predefined::V => push_numbers(rows, parameters(arena, leaf, Along::V)?),
        Predefined::S => push_numbers(rows, first_coordinates(arena, leaf)?),
        Predefined::T => push_numbers(rows, second_coordinates(arena, leaf)?),
        Predefined::Cs => push_colours(rows, arena, leaf),
        Predefined::Os => push_opacities(rows, arena, leaf),
        Predefined::DPdu => push_triples(rows, derivatives(arena, leaf, Along::U)?),
        Predefined::DPdv => push_triples(rows, derivatives(arena, leaf, Along::V)?),
        Predefined::Ci => push_triples(rows, variables.colours),
        Predefined::Oi => push_triples(rows, variables.opacities),
        Predefined::E
        | Predefined::Du
        | Predefined::Dv
        | Predefined::L
        | Predefined::Cl
        | Predefined::Ps
        | Predefined::Pi => Ok(()),
    }
}

// The value 0 of a predefined variable.
fn zero_for(name: Predefined) -> Value
    ensures { result ≡ zero_of_name name }
{
    match name {
        Predefined::U
        | Predefined::V
        | Predefined::Du
        | Predefined::Dv
        | Predefined::S
        | Predefined::T
        | Predefined::Pi => Value::Number(Num::default()),
        Predefined::P
        | Predefined::N
        | Predefined::Ng
        | Predefined::I
        | Predefined::E
        | Predefined::Cs
        | Predefined::Os
        | Predefined::DPdu
        | Predefined::DPdv
        | Predefined::L
        | Predefined::Cl
        | Predefined::Ci
        | Predefined::Oi
        | Predefined::Ps => Value::Triple(nowhere()),
    }
}

// Three zeros.
fn nowhere() -> Vec3
    ensures { result ≡ origin }
{
    Vec3 {
        x: Num::default(),
        y: Num::default(),
        z: Num::default(),
    }
}

// Appends zeros for a variable.
fn push_zeros(rows: &mut Rows, leaf: &Leaf, name: Predefined) -> Result<(), NoMemory>
    ensures { IfOk result (λ _. rows.new ≡ rows.old ++ value_rows (point_count leaf.now) (zero_of_name name)) }
{
    push_value(rows, &zero_for(name), leaf.point_count())
}

// Appends the rows of a variable as a shader is given it.
fn push_wanted(
    rows: &mut Rows,
    arena: &Bump,
    leaf: &Leaf,
    shader: &Wanted,
    variables: &Variables,
    geometric: &[Vec3],
    name: Predefined,
) -> Result<(), NoMemory>
    requires sized { IsSized leaf.now variables.now }
    requires geometric { AreSeen shader.now.kind shader.now.named.now leaf.now geometric.now }
    ensures { IfOk result (λ _. rows.new ≡ rows.old ++ wanted_rows shader.now.kind shader.now.named.now leaf.now variables.now name) }
{
    if wants(shader, name) {
        push_name(rows, arena, leaf, variables, geometric, name)
    } else {
        push_zeros(rows, leaf, name)
    }
}

// Appends the rows of variables as a shader is given them.
fn push_all(
    rows: &mut Rows,
    arena: &Bump,
    leaf: &Leaf,
    shader: &Wanted,
    variables: &Variables,
    geometric: &[Vec3],
    names: &[Predefined],
) -> Result<(), NoMemory>
    requires sized { IsSized leaf.now variables.now }
    requires geometric { AreSeen shader.now.kind shader.now.named.now leaf.now geometric.now }
    ensures { IfOk result (λ _. rows.new ≡ rows.old ++ all_rows (wanted_rows shader.now.kind shader.now.named.now leaf.now variables.now) names.now) }
{
    for name in names {
        push_wanted(rows, arena, leaf, shader, variables, geometric, *name)?;
    }
    Ok(())
}

/// The rows that a shader is given: those of its parameters that vary, and those of the varying variables of its kind.
pub fn rows_given<'a>(
    arena: &'a Bump,
    leaf: &Leaf,
    parameters: &Parameters,
    shader: &Wanted,
    variables: &Variables,
) -> Result<&'a [i64], NoMemory>
    requires { IsSized leaf.now variables.now }
    ensures value { IfOk result (λ rows. rows.now ≡ given_rows leaf.now parameters.now shader.now.kind shader.now.named.now variables.now) }
    ensures small { IfOk result (λ rows. AreRaws rows.now) }
{
    let mut rows = Rows::new(arena, 28 * length_of_row(leaf.point_count()))?;
    push_parameters(&mut rows, arena, leaf, parameters)?;
    let geometric = normals_for(arena, leaf, shader)?;
    push_all(
        &mut rows,
        arena,
        leaf,
        shader,
        variables,
        geometric,
        given(shader.kind),
    )?;
    Ok(rows.kept())
}
