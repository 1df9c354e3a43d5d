// The values of a shader's parameters on a leaf: those of its primitive's variables, else those that are bound to them.
ghost use Rattle.std.specs.Prelude.{◌≡◌, ◌≤◌, ◌++◌, true, length, map, IfOk};
ghost use Rattle.sl_ast.specs.TypedView.{local_of};
ghost use Rattle.grid_variables.specs.Variables.{bound_variable as bound_of, values_at};
ghost use Rattle.grid_rows.specs.Rows.{values_of};
ghost use Rattle.grid_rows.specs.Given.{rows_by, variable_rows, rows_or, param_rows, steady_values, surface_values};

use crate::parameters::Parameters;
use crate::rows::{Rows, push_firsts, push_triples, push_value};
use bumpalo::Bump;
use fixed_math::{NoMemory, Text, Vec3};
use grid_code::Slot;
use grid_variables::{Leaf, spread, value_or};
use scene::{Kind, Variable};
use sl_ast::{ParamDecl, Value};
use std::alloc::Global;

/// Appends the rows of numbers of that kind at all points.
fn push_by(rows: &mut Rows, kind: Kind, numbers: &[Vec3]) -> Result<(), NoMemory>
    requires { length numbers.now ≤ 289 }
    ensures { IfOk result (λ _. rows.new ≡ rows.old ++ rows_by kind numbers.now) }
{
    match kind {
        Kind::Float | Kind::Pair => push_firsts(rows, numbers),
        Kind::Str => Ok(()),
        Kind::Color | Kind::Point | Kind::Vector | Kind::Normal => push_triples(rows, numbers),
    }
}

/// Appends the rows of a variable's value at all points.
fn push_variable(
    rows: &mut Rows,
    arena: &Bump,
    leaf: &Leaf,
    variable: &Variable,
) -> Result<(), NoMemory>
    ensures { IfOk result (λ _. rows.new ≡ rows.old ++ variable_rows leaf.now variable.now) }
{
    let _points = leaf.point_count();
    let numbers = spread(arena, leaf, variable, false)?;
    push_by(rows, variable.kind(), numbers)
}

/// Appends the rows of a parameter's value at all points.
fn push_or(
    rows: &mut Rows,
    arena: &Bump,
    leaf: &Leaf,
    name: &Text,
    value: &Value,
) -> Result<(), NoMemory>
    ensures { IfOk result (λ _. rows.new ≡ rows.old ++ rows_or leaf.now (bound_of name.now leaf.now.prim.vars) value.now) }
{
    match leaf.bound_variable(name) {
        None => push_value(rows, value, leaf.point_count()),
        Some(variable) => push_variable(rows, arena, leaf, &variable),
    }
}

/// Appends the rows of the parameters that vary.
fn push_params(
    rows: &mut Rows,
    arena: &Bump,
    leaf: &Leaf,
    names: &[ParamDecl],
    params: &[Slot],
    values: &[Value],
) -> Result<(), NoMemory>
    requires named { length names.now ≡ length params.now }
    requires alike { length values.now ≡ length params.now }
    ensures { IfOk result (λ _. rows.new ≡ rows.old ++ param_rows leaf.now (map local_of names.now) params.now values.now) }
{
    for k in 0..params.len() {
        if !params[k].uniform {
            push_or(rows, arena, leaf, &names[k].name, &values[k])?;
        }
    }
    Ok(())
}

/// Appends the rows of a shader's parameters that vary.
pub(crate) fn push_parameters(
    rows: &mut Rows,
    arena: &Bump,
    leaf: &Leaf,
    parameters: &Parameters,
) -> Result<(), NoMemory>
    ensures { IfOk result (λ _. rows.new ≡ rows.old ++ param_rows leaf.now parameters.now.locals parameters.now.slots parameters.now.values) }
{
    push_params(
        rows,
        arena,
        leaf,
        parameters.declared,
        parameters.slots,
        parameters.values,
    )
}

/// The values of the parameters that don't vary.
fn values_by(
    alloc: Global,
    leaf: &Leaf,
    names: &[ParamDecl],
    params: &[Slot],
    values: &[Value],
) -> Result<Vec<Value>, NoMemory>
    requires named { length names.now ≡ length params.now }
    requires alike { length values.now ≡ length params.now }
    ensures { IfOk result (λ given. given.items ≡ values_of true params.now (values_at leaf.now (map local_of names.now) values.now 0)) }
{
    let mut given = Vec::new(alloc);
    for k in 0..params.len() {
        if params[k].uniform {
            given.push(value_or(alloc, leaf, &names[k].name, &values[k])?)?;
        }
    }
    Ok(given)
}

/// The values of a shader's parameters that don't vary.
pub fn uniform_values(
    alloc: Global,
    leaf: &Leaf,
    parameters: &Parameters,
) -> Result<Vec<Value>, NoMemory>
    ensures { IfOk result (λ given. given.items ≡ steady_values leaf.now parameters.now) }
{
    values_by(
        alloc,
        leaf,
        parameters.declared,
        parameters.slots,
        parameters.values,
    )
}

/// The uniform values of a shader on a surface: those of its parameters and the steps of u and v.
pub fn surface_values(
    alloc: Global,
    leaf: &Leaf,
    parameters: &Parameters,
) -> Result<Vec<Value>, NoMemory>
    ensures { IfOk result (λ given. given.items ≡ surface_values leaf.now parameters.now) }
{
    let mut given = uniform_values(alloc, leaf, parameters)?;
    given.push(Value::Number(leaf.du()))?;
    given.push(Value::Number(leaf.dv()))?;
    Ok(given)
}
