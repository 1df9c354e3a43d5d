// One node of code more, of registers that hold its operands.
ghost use Rattle.std.specs.Prelude.{◌≡◌, true, false, IfOk, OnOk};
ghost use Rattle.builtins.specs.Shapes.{shape as shape_of_value};
ghost use Rattle.builtins.specs.declared.shape.Shape.TheVariants as shapes;
ghost use Rattle.grid_code.specs.declared.code.Source.TheVariants.{Constant, Copy, Apply};
ghost use Rattle.grid_code.specs.Names.{reg};
ghost use Rattle.grid_code.specs.Code as c;
ghost use Rattle.grid_code.specs.Code.{◌then◌};
ghost use Rattle.grid_code.specs.View.{block_of};
ghost use Rattle.core_codegen.specs.Compile as spec;
ghost use Rattle.core_codegen.specs.Registers.{like as like_at, applied_at, differed_at, looked_at};

use crate::registers::{applied, differed, like, looked};
use builtins::{Shape, copied, shape_of};
use fixed_math::{List, NoMemory};
use grid_code::{Node, Register, Source, register};
use sl_ast::{Difference, LightStmt, LightSum, SlType, Value, ValueOperation};
use std::alloc::Global;

fn put(code: &mut Vec<Node>, to: Register, source: Source) -> Result<(), NoMemory>
    ensures { OnOk result (block_of code.new.items ≡ block_of code.old.items then c.put to source c.end) }
{
    code.push(Node::Put { to, source })?;
    Ok(())
}

// A value put where one of that type is wanted.
pub(crate) fn into(
    code: &mut Vec<Node>,
    to: Register,
    kind: SlType,
    from: Register,
) -> Result<(), NoMemory>
    ensures { OnOk result (block_of code.new.items ≡ block_of code.old.items then spec.into to kind from) }
{
    put(code, to, Source::Into(shape_of(kind), from))
}

pub(crate) fn literal(
    alloc: Global,
    code: &mut Vec<Node>,
    value: &Value,
    next: u32,
) -> Result<Register, NoMemory>
    ensures at { IfOk result (λ q. q ≡ reg true (shape_of_value value.now) next) }
    ensures code { OnOk result (block_of code.new.items ≡ block_of code.old.items then c.put (reg true (shape_of_value value.now) next) (Constant value.now) c.end) }
{
    let to = register(true, Shape::of(value), next);
    put(code, to, Source::Constant(copied(alloc, value)?))?;
    Ok(to)
}

// The value of a variable, which register `from` holds.
pub(crate) fn read(code: &mut Vec<Node>, from: Register, next: u32) -> Result<Register, NoMemory>
    ensures at { IfOk result (λ q. q ≡ like_at from next) }
    ensures code { OnOk result (block_of code.new.items ≡ block_of code.old.items then c.put (like_at from next) (Copy from) c.end) }
{
    let to = like(from, next);
    put(code, to, Source::Copy(from))?;
    Ok(to)
}

pub(crate) fn apply(
    code: &mut Vec<Node>,
    op: ValueOperation,
    operands: Vec<Register>,
    next: u32,
) -> Result<Register, NoMemory>
    ensures at { IfOk result (λ q. q ≡ applied_at op operands.items next) }
    ensures code { OnOk result (block_of code.new.items ≡ block_of code.old.items then c.put (applied_at op operands.items next) (Apply op operands.items) c.end) }
{
    let to = applied(op, &operands, next);
    put(code, to, Source::Apply(op, List(operands)))?;
    Ok(to)
}

pub(crate) fn differ(
    code: &mut Vec<Node>,
    difference: Difference,
    of: Register,
    next: u32,
) -> Result<Register, NoMemory>
    ensures at { IfOk result (λ q. q ≡ differed_at difference of next) }
    ensures code { OnOk result (block_of code.new.items ≡ block_of code.old.items then c.differ (differed_at difference of next) difference of c.end) }
{
    let to = differed(difference, of, next);
    code.push(Node::Differ { to, difference, of })?;
    Ok(to)
}

pub(crate) fn sum(
    code: &mut Vec<Node>,
    sum: LightSum,
    args: Vec<Register>,
    next: u32,
) -> Result<Register, NoMemory>
    ensures at { IfOk result (λ q. q ≡ reg false shapes.Triple next) }
    ensures code { OnOk result (block_of code.new.items ≡ block_of code.old.items then c.sum (reg false shapes.Triple next) sum args.items c.end) }
{
    let to = register(false, Shape::Triple, next);
    code.push(Node::Sum {
        to,
        sum,
        args: List(args),
    })?;
    Ok(to)
}

// A look-up, by the number of its node.
pub(crate) fn texture(
    code: &mut Vec<Node>,
    node: u32,
    args: Vec<Register>,
    next: u32,
) -> Result<Register, NoMemory>
    ensures at { IfOk result (λ q. q ≡ looked_at args.items next) }
    ensures code { OnOk result (block_of code.new.items ≡ block_of code.old.items then c.texture (looked_at args.items next) node args.items c.end) }
{
    let to = looked(&args, next);
    code.push(Node::Texture {
        to,
        node,
        args: List(args),
    })?;
    Ok(to)
}

pub(crate) fn branch(
    code: &mut Vec<Node>,
    test: Register,
    one: Vec<Node>,
    other: Vec<Node>,
) -> Result<(), NoMemory>
    ensures { OnOk result (block_of code.new.items ≡ block_of code.old.items then c.branch test (block_of one.items) (block_of other.items) c.end) }
{
    code.push(Node::If {
        test,
        then: List(one),
        otherwise: List(other),
    })?;
    Ok(())
}

pub(crate) fn turns(
    code: &mut Vec<Node>,
    uniform: bool,
    ask: Vec<Node>,
    test: Register,
    step: Vec<Node>,
    body: Vec<Node>,
) -> Result<(), NoMemory>
    ensures { OnOk result (block_of code.new.items ≡ block_of code.old.items then c.loops uniform (block_of ask.items) test (block_of step.items) (block_of body.items) c.end) }
{
    code.push(Node::Loop {
        uniform,
        ask: List(ask),
        test,
        step: List(step),
        body: List(body),
    })?;
    Ok(())
}

pub(crate) fn lights(
    code: &mut Vec<Node>,
    over: LightStmt,
    args: Vec<Register>,
    body: Vec<Node>,
) -> Result<(), NoMemory>
    ensures { OnOk result (block_of code.new.items ≡ block_of code.old.items then c.lights over args.items (block_of body.items) c.end) }
{
    code.push(Node::Lights {
        over,
        args: List(args),
        body: List(body),
    })?;
    Ok(())
}

pub(crate) fn leave(code: &mut Vec<Node>) -> Result<(), NoMemory>
    ensures { OnOk result (block_of code.new.items ≡ block_of code.old.items then c.breaks c.end) }
{
    code.push(Node::Break)?;
    Ok(())
}

pub(crate) fn again(code: &mut Vec<Node>) -> Result<(), NoMemory>
    ensures { OnOk result (block_of code.new.items ≡ block_of code.old.items then c.continues c.end) }
{
    code.push(Node::Continue)?;
    Ok(())
}
