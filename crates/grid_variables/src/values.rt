// The values of a shader's parameters at the first point of a leaf.
ghost use Rattle.std.specs.Prelude.{◌≡◌, IfOk};
ghost use Rattle.scene.specs.Seats.{text_of as text_list};
ghost use Rattle.grid_variables.specs.Variables.{spread as spread_of, bound_variable as bound_of, value_by as value_with, value_at as value_in, value_or as value_else};

use crate::corners::{between, corners_of};
use crate::leaf::Leaf;
use builtins::copied;
use fixed_math::{NoMemory, Text, Vec3};
use scene::{Kind, Variable};
use sl_ast::Value;
use std::alloc::Global;

/// A variable's value as a shader has it, whose numbers are these at a point.
fn value_by(alloc: Global, variable: &Variable, at: Vec3) -> Result<Value, NoMemory>
    ensures { IfOk result (λ v. v ≡ value_with variable.now.kind (text_list variable.now.values) at) }
{
    match variable.kind() {
        Kind::Float | Kind::Pair => Ok(Value::Number(at.x)),
        Kind::Str => {
            let text = Text::from_bytes(alloc, variable.text().as_bytes())?;
            Ok(Value::Word(text))
        }
        Kind::Color | Kind::Point | Kind::Vector | Kind::Normal => Ok(Value::Triple(at)),
    }
}

/// The numbers of a variable's value at the first point.
fn first_of(leaf: &Leaf, variable: &Variable) -> Vec3
    ensures { result ≡ spread_of leaf.now variable.now 0 }
{
    let corners = corners_of(false, variable, leaf.object());
    between(
        variable.is_varying(),
        &corners,
        leaf.own_u(0),
        leaf.own_v(0),
    )
}

/// A variable's value at the first point.
fn value_at(alloc: Global, leaf: &Leaf, variable: &Variable) -> Result<Value, NoMemory>
    ensures { IfOk result (λ v. v ≡ value_in leaf.now variable.now 0) }
{
    value_by(alloc, variable, first_of(leaf, variable))
}

/// A parameter's value at the first point: that of the primitive's variable that binds to it, else this one.
pub fn value_or(alloc: Global, leaf: &Leaf, name: &Text, value: &Value) -> Result<Value, NoMemory>
    ensures { IfOk result (λ v. v ≡ value_else leaf.now 0 (bound_of name.now leaf.now.prim.vars) value.now) }
{
    match leaf.bound_variable(name) {
        None => copied(alloc, value),
        Some(variable) => value_at(alloc, leaf, &variable),
    }
}
