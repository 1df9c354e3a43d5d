// The core tree of a typed tree.
ghost use Rattle.std.specs.Prelude.{◌≡◌, map, true, false, [], IfOk, OnOk};
ghost use Rattle.sl_ast.specs.Typed as T;
ghost use Rattle.sl_ast.specs.TypedView.{tree_expr, tree_stmt, default_of};
ghost use Rattle.sl_ast.specs.TreeView.{tree_of};
ghost use Rattle.sl_meaning.specs.Core as C;
ghost use Rattle.sl_meaning.specs.CoreView.{expr_of, exprs_of, args_of, stmt_of, stmts_of};
ghost use Rattle.sl_meaning.specs.Lowered as spec;

use crate::core_nodes::{
    block_node, call_node, for_node, lights_node, operated, put_into, read, repeat_node, start,
    test_node, value_type,
};
use fixed_math::NoMemory;
use sl_ast::{
    LightStmt, ParamDefault, SetOperator, SlType, Tree, TreeExpr, TreeFormal, TreeStmt, Value,
    Variable,
};
use sl_meaning::{Argument, CoreExpr, CoreStmt};
use std::alloc::Global;
use uniform_varying::{
    enter, enter_all, formal_classes, in_branch, is_uniform_loop, param_classes,
};

#[cycle(lowering)]
#[tactic(auto, using(sl_ast::proofs::TypedShown::apply_shown, sl_ast::proofs::TypedShown::call_shown))]
fn expr(e: &TreeExpr, alloc: Global, us: &[bool], uniform: bool) -> Result<CoreExpr, NoMemory>
    ensures { IfOk result (λ c. expr_of c ≡ spec.expr (tree_expr e.now) us.now uniform) }
{
    match e {
        TreeExpr::Number { value, .. } => Ok(CoreExpr::Literal(Value::Number(*value))),
        TreeExpr::Word { text, .. } => Ok(CoreExpr::Literal(Value::Word(text.copied(alloc)?))),
        TreeExpr::Variable { variable, .. } => Ok(read(*variable)),
        TreeExpr::Apply {
            operation,
            args,
            place,
            ..
        } => {
            let operands = exprs(args.as_slice(), alloc, us, uniform)?;
            operated(alloc, *operation, place.number, operands)
        }
        TreeExpr::Call {
            args,
            formals,
            body,
            value,
            kind,
            ..
        } => {
            let args = arguments(args.as_slice(), alloc, formals.as_slice(), us, uniform)?;
            let mut inside = formal_classes(alloc, formals.as_slice())?;
            let does = stmts(body.as_slice(), alloc, &mut inside, uniform)?;
            enter_all(body.as_slice(), &mut inside)?;
            let value = expr(value, alloc, &inside, uniform)?;
            call_node(alloc, args, does, value_type(*kind), value)
        }
    }
}

#[cycle(lowering)]
fn exprs(
    es: &[TreeExpr],
    alloc: Global,
    us: &[bool],
    uniform: bool,
) -> Result<Vec<CoreExpr>, NoMemory>
    ensures { IfOk result (λ v. exprs_of v.items ≡ spec.exprs (T.exprs (map tree_expr es.now)) us.now uniform) }
{
    let mut made = Vec::new(alloc);
    for e in es {
        let one = expr(e, alloc, us, uniform)?;
        made.push(one)?;
    }
    Ok(made)
}

// Arguments, each with the class and the type of its formal.
#[cycle(lowering)]
fn arguments(
    es: &[TreeExpr],
    alloc: Global,
    formals: &[TreeFormal],
    us: &[bool],
    uniform: bool,
) -> Result<Vec<Argument>, NoMemory>
    ensures { IfOk result (λ v. args_of v.items ≡ spec.arguments (T.exprs (map tree_expr es.now)) formals.now us.now uniform) }
{
    let mut made = Vec::new(alloc);
    let mut left = formals;
    for e in es {
        let Some((formal, rest)) = left.split_first() else {
            return Ok(made);
        };
        let value = expr(e, alloc, us, uniform)?;
        made.push(Argument {
            uniform: formal.uniform,
            kind: formal.kind,
            value,
        })?;
        left = rest;
    }
    Ok(made)
}

// An `if` on that condition, whose branches are there.
#[cycle(lowering)]
fn tested(
    test: &TreeExpr,
    alloc: Global,
    us: &[bool],
    uniform: bool,
    then: Vec<CoreStmt>,
    otherwise: Vec<CoreStmt>,
) -> Result<CoreStmt, NoMemory>
    ensures { IfOk result (λ c. stmt_of c ≡ C.test (spec.expr (tree_expr test.now) us.now uniform) (stmts_of then.items) (stmts_of otherwise.items)) }
{
    let test = expr(test, alloc, us, uniform)?;
    Ok(test_node(test, then, otherwise))
}

// A loop on that condition, whose step and body are there.
#[cycle(lowering)]
fn turned(
    test: &TreeExpr,
    alloc: Global,
    us: &[bool],
    uniform: bool,
    step: Vec<CoreStmt>,
    body: Vec<CoreStmt>,
) -> Result<CoreStmt, NoMemory>
    ensures { IfOk result (λ c. stmt_of c ≡ C.repeat uniform (spec.expr (tree_expr test.now) us.now uniform) (stmts_of step.items) (stmts_of body.items)) }
{
    let test = expr(test, alloc, us, uniform)?;
    Ok(repeat_node(uniform, test, step, body))
}

// One statement where a list of them stands.
#[cycle(lowering)]
fn alone(
    s: &TreeStmt,
    alloc: Global,
    us: &mut Vec<bool>,
    uniform: bool,
) -> Result<Vec<CoreStmt>, NoMemory>
    ensures tree { IfOk result (λ v. stmts_of v.items ≡ spec.alone (spec.stmt (tree_stmt s.now) us.old.items uniform)) }
    ensures same { OnOk result (us.new.items ≡ us.old.items) }
{
    let one = stmt(s, alloc, us, uniform)?;
    Ok(vec![in alloc; one]?)
}

#[cycle(lowering)]
fn block(
    body: &[TreeStmt],
    alloc: Global,
    us: &mut Vec<bool>,
    uniform: bool,
) -> Result<CoreStmt, NoMemory>
    ensures tree { IfOk result (λ c. stmt_of c ≡ C.block (spec.stmts (T.stmts (map tree_stmt body.now)) us.old.items uniform)) }
    ensures same { OnOk result (us.new.items ≡ us.old.items) }
{
    let body = stmts(body, alloc, us, uniform)?;
    Ok(block_node(body))
}

#[cycle(lowering)]
fn declaration(
    value: &TreeExpr,
    alloc: Global,
    us: &[bool],
    uniform: bool,
    class: bool,
    kind: SlType,
) -> Result<CoreStmt, NoMemory>
    ensures { IfOk result (λ c. stmt_of c ≡ C.declare class kind (spec.expr (tree_expr value.now) us.now uniform)) }
{
    let value = expr(value, alloc, us, uniform)?;
    Ok(CoreStmt::Declare(class, kind, value))
}

#[cycle(lowering)]
fn assignment(
    value: &TreeExpr,
    alloc: Global,
    us: &[bool],
    uniform: bool,
    variable: Variable,
    operator: SetOperator,
    kind: SlType,
) -> Result<CoreStmt, NoMemory>
    ensures { IfOk result (λ c. stmt_of c ≡ C.assign variable kind (spec.put_into operator variable (spec.expr (tree_expr value.now) us.now uniform))) }
{
    let value = expr(value, alloc, us, uniform)?;
    let value = put_into(alloc, operator, variable, value)?;
    Ok(CoreStmt::Assign(variable, kind, value))
}

// A statement over lights, whose arguments are there.
#[cycle(lowering)]
fn over_lights(
    body: &TreeStmt,
    alloc: Global,
    us: &mut Vec<bool>,
    word: LightStmt,
    args: Vec<CoreExpr>,
) -> Result<CoreStmt, NoMemory>
    ensures tree { IfOk result (λ c. stmt_of c ≡ C.lights word (exprs_of args.items) (spec.alone (spec.stmt (tree_stmt body.now) us.old.items false))) }
    ensures same { OnOk result (us.new.items ≡ us.old.items) }
{
    let body = alone(body, alloc, us, false)?;
    Ok(lights_node(word, args, body))
}

#[cycle(lowering)]
#[tactic(auto, using(sl_ast::proofs::TypedShown::block_shown, sl_ast::proofs::TypedShown::group_shown, sl_ast::proofs::TypedShown::for_shown, sl_ast::proofs::TypedShown::lights_shown))]
fn stmt(
    s: &TreeStmt,
    alloc: Global,
    us: &mut Vec<bool>,
    uniform: bool,
) -> Result<CoreStmt, NoMemory>
    ensures tree { IfOk result (λ c. stmt_of c ≡ spec.stmt (tree_stmt s.now) us.old.items uniform) }
    ensures same { OnOk result (us.new.items ≡ us.old.items) }
{
    match s {
        TreeStmt::Empty { .. } => Ok(block_node(Vec::new(alloc))),
        TreeStmt::Break { .. } => Ok(CoreStmt::Break),
        TreeStmt::Continue { .. } => Ok(CoreStmt::Continue),
        TreeStmt::Block { body, .. } => block(body.as_slice(), alloc, us, uniform),
        TreeStmt::Group { body } => block(body.as_slice(), alloc, us, uniform),
        TreeStmt::Declare {
            uniform: class,
            kind,
            value,
            ..
        } => declaration(value, alloc, us, uniform, *class, *kind),
        TreeStmt::Start {
            uniform: class,
            kind,
            ..
        } => start(alloc, *class, *kind),
        TreeStmt::Set {
            variable,
            operator,
            kind,
            value,
            ..
        } => assignment(value, alloc, us, uniform, *variable, *operator, *kind),
        TreeStmt::If { test, then, .. } => {
            let inside = in_branch(test, alloc, us, uniform)?;
            let then = alone(then, alloc, us, inside)?;
            tested(test, alloc, us, uniform, then, Vec::new(alloc))
        }
        TreeStmt::IfElse {
            test,
            then,
            otherwise,
            ..
        } => {
            let inside = in_branch(test, alloc, us, uniform)?;
            let then = alone(then, alloc, us, inside)?;
            let otherwise = alone(otherwise, alloc, us, inside)?;
            tested(test, alloc, us, uniform, then, otherwise)
        }
        TreeStmt::While { test, body, .. } => {
            let inside = is_uniform_loop(test, body, alloc, us, uniform)?;
            let body = alone(body, alloc, us, inside)?;
            turned(test, alloc, us, inside, Vec::new(alloc), body)
        }
        TreeStmt::For {
            first,
            test,
            step,
            body,
            ..
        } => {
            let control = is_uniform_loop(test, body, alloc, us, uniform)?;
            let begun = stmts(first.as_slice(), alloc, us, uniform)?;
            let step = stmts(step.as_slice(), alloc, us, control)?;
            let body = alone(body, alloc, us, control)?;
            let turns = turned(test, alloc, us, control, step, body)?;
            for_node(alloc, begun, turns)
        }
        TreeStmt::Lights {
            word,
            args,
            body,
            ..
        } => {
            let args = exprs(args.as_slice(), alloc, us, uniform)?;
            over_lights(body, alloc, us, *word, args)
        }
    }
}

#[cycle(lowering)]
#[tactic(auto, using(uniform_varying::proofs::Scopes::after_kept, uniform_varying::proofs::Scopes::all_kept))]
fn stmts(
    body: &[TreeStmt],
    alloc: Global,
    us: &mut Vec<bool>,
    uniform: bool,
) -> Result<Vec<CoreStmt>, NoMemory>
    ensures tree { IfOk result (λ v. stmts_of v.items ≡ spec.stmts (T.stmts (map tree_stmt body.now)) us.old.items uniform) }
    ensures same { OnOk result (us.new.items ≡ us.old.items) }
{
    let start = us.len();
    let mut made = Vec::new(alloc);
    for s in body {
        let one = stmt(s, alloc, us, uniform)?;
        made.push(one)?;
        enter(s, us)?;
    }
    us.truncate(start);
    Ok(made)
}

/// The core tree of a shader's body: each loop marked by the rules of control classes, `for` and `while` as one loop,
/// `x += e` as an assignment of `x + e`, a transformation without the strings that name its spaces, `faceforward` of two
/// arguments with `Ng` as the third (Shading Language, RenderMan Interface 3.2, sections 11 to 15). The one refusal is
/// want of memory.
pub fn lower_body(alloc: Global, tree: &Tree) -> Result<Vec<CoreStmt>, NoMemory>
    ensures { IfOk result (λ v. stmts_of v.items ≡ spec.body_of (tree_of tree.now)) }
{
    let mut us = param_classes(alloc, tree.params.as_slice())?;
    stmts(tree.body.as_slice(), alloc, &mut us, true)
}

/// The core tree of a parameter's default, which sees no variable and stands in uniform control. The one refusal is want
/// of memory.
pub fn lower_default(alloc: Global, default: &ParamDefault) -> Result<CoreExpr, NoMemory>
    ensures { IfOk result (λ e. expr_of e ≡ spec.expr (default_of default.now).value [] true) }
{
    expr(&default.value, alloc, &[], true)
}
