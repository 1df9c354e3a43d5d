// What the forms put into the code behind that of their parts, and whether all in them is uniform.
ghost use Rattle.std.specs.Prelude.{◌≡◌, ◌++◌, ◌∷◌, ◌&&◌, [], IfOk, OnOk};
ghost use Rattle.builtins.specs.Values.{shape_of as shape_of_type};
ghost use Rattle.grid_code.specs.Code as c;
ghost use Rattle.grid_code.specs.Code.{◌then◌};
ghost use Rattle.grid_code.specs.Names.{reg};
ghost use Rattle.grid_code.specs.Shapes.{register_class, are_uniform_registers};
ghost use Rattle.grid_code.specs.View.{block_of};
ghost use Rattle.sl_meaning.specs.Core.{slot as slot_as};
ghost use Rattle.core_codegen.specs.Compile as spec;
ghost use Rattle.core_codegen.specs.Slots.{scope_of};

use crate::nodes::{branch, into, lights, turns};
use crate::registers::{are_uniform, is_uniform};
use crate::slot::Scope;
use builtins::shape_of;
use fixed_math::NoMemory;
use grid_code::{Node, Register, register};
use sl_ast::{LightStmt, SlType};

// Whether both hold: a call, so that what follows has one case and not two.
pub(crate) fn both(a: bool, b: bool) -> bool
    ensures { result ≡ a && b }
{
    a && b
}

// The value of a call, in its register.
pub(crate) fn returned(
    code: &mut Vec<Node>,
    to: Register,
    kind: SlType,
    from: Register,
) -> Result<Register, NoMemory>
    ensures at { IfOk result (λ q. q ≡ to) }
    ensures code { OnOk result (block_of code.new.items ≡ block_of code.old.items then spec.into to kind from) }
{
    into(code, to, kind, from)?;
    Ok(to)
}

// One variable more, in register `next`, that begins with a value.
pub(crate) fn begun(
    code: &mut Vec<Node>,
    scope: &mut Scope,
    uniform: bool,
    kind: SlType,
    from: Register,
    next: u32,
) -> Result<bool, NoMemory>
    ensures class { IfOk result (λ u. u ≡ uniform && register_class from) }
    ensures scope { OnOk result (scope_of scope.new ≡ scope_of scope.old ++ slot_as uniform kind ∷ []) }
    ensures code { OnOk result (block_of code.new.items ≡ block_of code.old.items then spec.into (reg uniform (shape_of_type kind) next) kind from) }
{
    let to = register(uniform, shape_of(kind), next);
    into(code, to, kind, from)?;
    scope.declare(uniform, kind)?;
    Ok(both(uniform, is_uniform(from)))
}

// A value put into the register of a variable.
pub(crate) fn assigned(
    code: &mut Vec<Node>,
    to: Register,
    kind: SlType,
    from: Register,
) -> Result<bool, NoMemory>
    ensures class { IfOk result (λ u. u ≡ register_class to && register_class from) }
    ensures code { OnOk result (block_of code.new.items ≡ block_of code.old.items then spec.into to kind from) }
{
    into(code, to, kind, from)?;
    Ok(both(is_uniform(to), is_uniform(from)))
}

// Two branches, which are uniform or not.
pub(crate) fn branched(
    code: &mut Vec<Node>,
    test: Register,
    one: Vec<Node>,
    other: Vec<Node>,
    uniform: bool,
) -> Result<bool, NoMemory>
    ensures class { IfOk result (λ u. u ≡ register_class test && uniform) }
    ensures code { OnOk result (block_of code.new.items ≡ block_of code.old.items then c.branch test (block_of one.items) (block_of other.items) c.end) }
{
    branch(code, test, one, other)?;
    Ok(both(is_uniform(test), uniform))
}

// A loop, whose step and body are uniform or not.
pub(crate) fn looped(
    code: &mut Vec<Node>,
    uniform: bool,
    ask: Vec<Node>,
    test: Register,
    step: Vec<Node>,
    body: Vec<Node>,
    inside: bool,
) -> Result<bool, NoMemory>
    ensures class { IfOk result (λ u. u ≡ register_class test && inside) }
    ensures code { OnOk result (block_of code.new.items ≡ block_of code.old.items then c.loops uniform (block_of ask.items) test (block_of step.items) (block_of body.items) c.end) }
{
    turns(code, uniform, ask, test, step, body)?;
    Ok(both(is_uniform(test), inside))
}

// A statement over lights, whose body is uniform or not.
pub(crate) fn lit(
    code: &mut Vec<Node>,
    over: LightStmt,
    args: Vec<Register>,
    body: Vec<Node>,
    uniform: bool,
) -> Result<bool, NoMemory>
    ensures class { IfOk result (λ u. u ≡ are_uniform_registers args.items && uniform) }
    ensures code { OnOk result (block_of code.new.items ≡ block_of code.old.items then c.lights over args.items (block_of body.items) c.end) }
{
    let own = are_uniform(&args);
    lights(code, over, args, body)?;
    Ok(both(own, uniform))
}
