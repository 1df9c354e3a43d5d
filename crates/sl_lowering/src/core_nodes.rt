// Nodes of the core tree from their parts.
ghost use Rattle.std.specs.Prelude.{◌≡◌, pos, IfOk};
ghost use Rattle.fixed_math.specs.Fixed.{sat};
ghost use Rattle.sl_ast.specs.declared.operations.Look.TheVariants as looks;
ghost use Rattle.sl_ast.specs.declared.operations.ValueOperation.TheVariants as operations;
ghost use Rattle.sl_ast.specs.declared.typed.Value.TheVariants as values;
ghost use Rattle.sl_ast.specs.declared.typed.Variable.TheVariants as variables;
ghost use Rattle.sl_ast.specs.declared.kinds.Predefined.TheVariants as names;
ghost use Rattle.sl_meaning.specs.Core as C;
ghost use Rattle.sl_meaning.specs.CoreView.{expr_of, exprs_of, args_of, stmt_of, stmts_of, loop_of};
ghost use Rattle.sl_meaning.specs.Environment as environment;
ghost use Rattle.sl_meaning.specs.Lowered as spec;

use fixed_math::{List, NoMemory, Num, Text};
use sl_ast::{
    Difference, LightStmt, LightSum, Look, NodeType, Operation, Predefined, SetOperator, SlType,
    Value, ValueOperation, Variable,
};
use sl_meaning::{Argument, CoreExpr, CoreLoop, CoreStmt};
use std::alloc::Global;

fn number(raw: i128) -> CoreExpr
    ensures { expr_of result ≡ C.literal (values.Number (sat raw)) }
{
    CoreExpr::Literal(Value::Number(Num::sat(raw)))
}

// A variable's value; that of `PI` is a number.
pub(crate) fn read(variable: Variable) -> CoreExpr
    ensures { expr_of result ≡ spec.read variable }
{
    match variable {
        Variable::Predefined(Predefined::Pi) => number(205887),
        _ => CoreExpr::Read(variable),
    }
}

// The type of a value of that type.
pub(crate) fn value_type(kind: NodeType) -> SlType
    ensures { result ≡ environment.value_type kind }
{
    match kind {
        NodeType::Float | NodeType::Test => SlType::Float,
        NodeType::Color => SlType::Color,
        NodeType::Point => SlType::Point,
        NodeType::Vector => SlType::Vector,
        NodeType::Normal => SlType::Normal,
        NodeType::Str => SlType::Str,
    }
}

// What a local without a value starts as.
fn start_value(alloc: Global, kind: SlType) -> Result<Value, NoMemory>
    ensures { IfOk result (λ v. v ≡ environment.start_value kind) }
{
    match kind {
        SlType::Str => Ok(Value::Word(Text::from_bytes(alloc, &[])?)),
        _ => Ok(Value::Number(Num::sat(0))),
    }
}

#[tactic(auto, using(sl_meaning::proofs::CoreRows::held_exprs))]
fn apply_node(operation: ValueOperation, args: Vec<CoreExpr>) -> CoreExpr
    ensures { expr_of result ≡ C.apply operation (exprs_of args.items) }
{
    CoreExpr::Apply(operation, List(args))
}

#[tactic(auto, using(sl_meaning::proofs::CoreRows::held_exprs))]
fn sum_node(sum: LightSum, args: Vec<CoreExpr>) -> CoreExpr
    ensures { expr_of result ≡ C.sum sum (exprs_of args.items) }
{
    CoreExpr::Sum(sum, List(args))
}

// A difference of the first operand.
#[tactic(auto, using(crate::proofs::CoreParts::first_operand))]
fn differ_node(
    alloc: Global,
    difference: Difference,
    mut args: Vec<CoreExpr>,
) -> Result<CoreExpr, NoMemory>
    ensures { IfOk result (λ e. expr_of e ≡ spec.difference_of difference (exprs_of args.items)) }
{
    if args.is_empty() {
        return Ok(number(0));
    }
    let operand = args.swap_remove(0);
    Ok(CoreExpr::Differ(difference, Box::new(alloc, operand)?))
}

// The last of some operands.
#[tactic(auto, using(crate::proofs::CoreParts::last_operand))]
fn last(alloc: Global, mut args: Vec<CoreExpr>) -> Result<Vec<CoreExpr>, NoMemory>
    ensures { IfOk result (λ v. exprs_of v.items ≡ spec.last (exprs_of args.items)) }
{
    match args.pop() {
        Some(operand) => Ok(vec![in alloc; operand]?),
        None => Ok(args),
    }
}

// The operands of an operation on values: of the strings and the value of a transformation, the value.
fn operands(
    alloc: Global,
    operation: ValueOperation,
    args: Vec<CoreExpr>,
) -> Result<Vec<CoreExpr>, NoMemory>
    ensures { IfOk result (λ v. exprs_of v.items ≡ spec.operands operation (exprs_of args.items)) }
{
    match operation {
        ValueOperation::Transform(..)
        | ValueOperation::VTransform(..)
        | ValueOperation::NTransform(..) => last(alloc, args),
        _ => Ok(args),
    }
}

// A direction turned by a second one and the geometric normal.
#[tactic(auto, using(crate::proofs::CoreParts::with_last_operand))]
fn face_node(mut args: Vec<CoreExpr>) -> Result<CoreExpr, NoMemory>
    ensures { IfOk result (λ e. expr_of e ≡ C.apply operations.FaceForward (spec.with_last (exprs_of args.items) (C.read (variables.Predefined names.Ng)))) }
{
    args.push(CoreExpr::Read(Variable::Predefined(Predefined::Ng)))?;
    Ok(apply_node(ValueOperation::FaceForward, args))
}

#[tactic(auto, using(sl_meaning::proofs::CoreRows::held_exprs))]
fn texture_node(node: u32, args: Vec<CoreExpr>) -> CoreExpr
    ensures { expr_of result ≡ C.texture node (exprs_of args.items) }
{
    CoreExpr::Texture(node, List(args))
}

// A look-up by its name alone, at the predefined s and t.
#[tactic(auto, using(crate::proofs::CoreParts::with_last_two))]
fn here_node(node: u32, mut args: Vec<CoreExpr>) -> Result<CoreExpr, NoMemory>
    ensures { IfOk result (λ e. expr_of e ≡ spec.looked_up looks.Here node (exprs_of args.items)) }
{
    args.push(CoreExpr::Read(Variable::Predefined(Predefined::S)))?;
    args.push(CoreExpr::Read(Variable::Predefined(Predefined::T)))?;
    Ok(texture_node(node, args))
}

// The first part of a colour.
#[tactic(auto, using(crate::proofs::CoreParts::with_last_operand))]
fn first_node(mut args: Vec<CoreExpr>) -> Result<CoreExpr, NoMemory>
    ensures { IfOk result (λ e. expr_of e ≡ C.apply operations.Comp (spec.with_last (exprs_of args.items) (C.literal (values.Number (pos 0))))) }
{
    args.push(number(0))?;
    Ok(apply_node(ValueOperation::Comp, args))
}

// A look-up of that node, or the first part of one.
fn looked_up(look: Look, node: u32, args: Vec<CoreExpr>) -> Result<CoreExpr, NoMemory>
    ensures { IfOk result (λ e. expr_of e ≡ spec.looked_up look node (exprs_of args.items)) }
{
    match look {
        Look::At => Ok(texture_node(node, args)),
        Look::Here => here_node(node, args),
        Look::First => first_node(args),
    }
}

// An operation of that node of a typed tree on its operands.
pub(crate) fn operated(
    alloc: Global,
    operation: Operation,
    node: u32,
    args: Vec<CoreExpr>,
) -> Result<CoreExpr, NoMemory>
    ensures { IfOk result (λ e. expr_of e ≡ spec.operated operation node (exprs_of args.items)) }
{
    match operation {
        Operation::Value(operation) => {
            let operands = operands(alloc, operation, args)?;
            Ok(apply_node(operation, operands))
        }
        Operation::FaceForwardNg => face_node(args),
        Operation::Difference(difference) => differ_node(alloc, difference, args),
        Operation::Sum(sum) => Ok(sum_node(sum, args)),
        Operation::Look(look) => looked_up(look, node, args),
    }
}

// What an operation on a variable's value and another gives.
fn combined(
    alloc: Global,
    operation: ValueOperation,
    variable: Variable,
    value: CoreExpr,
) -> Result<CoreExpr, NoMemory>
    ensures { IfOk result (λ e. expr_of e ≡ spec.combined operation variable (expr_of value)) }
{
    let operands = vec![in alloc; CoreExpr::Read(variable), value]?;
    Ok(apply_node(operation, operands))
}

// What an assignment puts into its variable.
pub(crate) fn put_into(
    alloc: Global,
    operator: SetOperator,
    variable: Variable,
    value: CoreExpr,
) -> Result<CoreExpr, NoMemory>
    ensures { IfOk result (λ e. expr_of e ≡ spec.put_into operator variable (expr_of value)) }
{
    match operator {
        SetOperator::Set => Ok(value),
        SetOperator::Add => combined(alloc, ValueOperation::Add, variable, value),
        SetOperator::Subtract => combined(alloc, ValueOperation::Subtract, variable, value),
        SetOperator::Multiply => combined(alloc, ValueOperation::Multiply, variable, value),
        SetOperator::Divide => combined(alloc, ValueOperation::Divide, variable, value),
    }
}

#[tactic(auto, using(sl_meaning::proofs::CoreRows::held_args, sl_meaning::proofs::CoreRows::held_stmts))]
pub(crate) fn call_node(
    alloc: Global,
    args: Vec<Argument>,
    body: Vec<CoreStmt>,
    kind: SlType,
    value: CoreExpr,
) -> Result<CoreExpr, NoMemory>
    ensures { IfOk result (λ e. expr_of e ≡ C.call (args_of args.items) (stmts_of body.items) kind (expr_of value)) }
{
    let value = Box::new(alloc, value)?;
    Ok(CoreExpr::Call(List(args), List(body), kind, value))
}

// A declaration without a value.
pub(crate) fn start(alloc: Global, uniform: bool, kind: SlType) -> Result<CoreStmt, NoMemory>
    ensures { IfOk result (λ s. stmt_of s ≡ C.declare uniform kind (C.literal (environment.start_value kind))) }
{
    let value = start_value(alloc, kind)?;
    Ok(CoreStmt::Declare(uniform, kind, CoreExpr::Literal(value)))
}

#[tactic(auto, using(sl_meaning::proofs::CoreRows::held_stmts))]
pub(crate) fn block_node(body: Vec<CoreStmt>) -> CoreStmt
    ensures { stmt_of result ≡ C.block (stmts_of body.items) }
{
    CoreStmt::Block(List(body))
}

#[tactic(auto, using(sl_meaning::proofs::CoreRows::held_stmts))]
pub(crate) fn test_node(test: CoreExpr, then: Vec<CoreStmt>, otherwise: Vec<CoreStmt>) -> CoreStmt
    ensures { stmt_of result ≡ C.test (expr_of test) (stmts_of then.items) (stmts_of otherwise.items) }
{
    CoreStmt::Test(test, List(then), List(otherwise))
}

#[tactic(auto, using(sl_meaning::proofs::CoreRows::held_stmts))]
pub(crate) fn repeat_node(
    uniform: bool,
    test: CoreExpr,
    step: Vec<CoreStmt>,
    body: Vec<CoreStmt>,
) -> CoreStmt
    ensures { stmt_of result ≡ C.repeat uniform (expr_of test) (stmts_of step.items) (stmts_of body.items) }
{
    CoreStmt::Repeat(CoreLoop {
        uniform,
        test,
        step: List(step),
        body: List(body),
    })
}

// A loop behind its first set, both in a block.
pub(crate) fn for_node(
    alloc: Global,
    first: Vec<CoreStmt>,
    turns: CoreStmt,
) -> Result<CoreStmt, NoMemory>
    ensures { IfOk result (λ s. stmt_of s ≡ C.block (C.first (C.block (stmts_of first.items)) (spec.alone (stmt_of turns)))) }
{
    let both = vec![in alloc; block_node(first), turns]?;
    Ok(block_node(both))
}

#[tactic(auto, using(sl_meaning::proofs::CoreRows::held_exprs, sl_meaning::proofs::CoreRows::held_stmts))]
pub(crate) fn lights_node(word: LightStmt, args: Vec<CoreExpr>, body: Vec<CoreStmt>) -> CoreStmt
    ensures { stmt_of result ≡ C.lights word (exprs_of args.items) (stmts_of body.items) }
{
    CoreStmt::Lights(word, List(args), List(body))
}
