// From the core tree to grid code.
ghost use Rattle.std.specs.Prelude.{◌≡◌, ◌+◌, ◌^◌, ◌<◌, ◌≤◌, ◌++◌, ◌&&◌, length, IfOk, OnOk, MatchOption};
ghost use Rattle.sl_ast.specs.declared.typed.Variable.TheVariants as variables;
ghost use Rattle.grid_code.specs.Code.{◌then◌};
ghost use Rattle.grid_code.specs.Names.{first_free};
ghost use Rattle.grid_code.specs.View.{block_of};
ghost use Rattle.sl_meaning.specs.Core.{read, formals, after, after_all, all_uniform, args_uniform, stmt_uniform, stmts_uniform};
ghost use Rattle.sl_meaning.specs.CoreView.{expr_of, exprs_of, args_of, stmt_of, stmts_of, loop_of};
ghost use Rattle.core_codegen.specs.Compile.{at, IsMade, all_at, locals, all_locals, behind, expr_code, exprs_code, args_code, stmt_code, all_code, shader_code};
ghost use Rattle.core_codegen.specs.Correct.{Means};
ghost use Rattle.core_codegen.specs.Fine.{GridAll, StaysAll};
ghost use Rattle.core_codegen.specs.Room.{expr_room, exprs_room, args_room, stmt_room, all_room, temps as temps_of, all_temps};
ghost use Rattle.core_codegen.specs.Sizes.{ScopedExpr, ScopedExprs, ScopedArgs, ScopedStmt, ScopedAll};
ghost use Rattle.core_codegen.specs.Slots.{slots_of, scope_of};

use crate::ends::{assigned, begun, both, branched, lit, looped, returned};
use crate::locals::all_declared;
use crate::nodes::{again, apply, differ, leave, literal, read, sum, texture};
use crate::registers::is_uniform;
use crate::slot::Scope;
use builtins::shape_of;
use fixed_math::NoMemory;
use grid_code::named::FIRST_FREE;
use grid_code::{Node, Register, Slot, register};
use sl_ast::Variable;
use sl_meaning::{Argument, CoreExpr, CoreLoop, CoreStmt};
use std::alloc::Global;

/// The code of a settled tree, whose parameters are in scope, or want of memory.
pub fn emit(alloc: Global, body: &[CoreStmt], scope: &[Slot]) -> Result<Vec<Node>, NoMemory>
    requires settled { GridAll (stmts_of body.now) (slots_of scope.now) }
    requires stays { StaysAll (stmts_of body.now) }
    requires fits { first_free + length (slots_of scope.now) + all_room (stmts_of body.now) < 2 ^ 32 }
    ensures means { IfOk result (λ code. Means (stmts_of body.now) (slots_of scope.now) (block_of code.items)) }
    ensures code { IfOk result (λ code. block_of code.items ≡ shader_code (stmts_of body.now) (slots_of scope.now)) }
{
    let mut scope = Scope::of(alloc, scope)?;
    let mut code = Vec::new(alloc);
    let temps = first_behind(body, &scope, FIRST_FREE);
    block(body, alloc, &mut code, &mut scope, FIRST_FREE, temps)?;
    Ok(code)
}

// The first register behind all variables of a frame that begins at `base`: those in scope and those that its statements
// declare. What assignments need on the way stands from there on.
fn first_behind(body: &[CoreStmt], scope: &Scope, base: u32) -> u32
    requires fits { behind (scope_of scope.now) base (stmts_of body.now) < 2 ^ 32 }
    ensures { result ≡ behind (scope_of scope.now) base (stmts_of body.now) }
{
    scope.end(base) + all_declared(body)
}

// Puts the value of an expression into register `next`, over the variables from register `base` on, and gives that
// register with its class and shape.
#[cycle(emission)]
fn expression(
    e: &CoreExpr,
    alloc: Global,
    code: &mut Vec<Node>,
    scope: &Scope,
    base: u32,
    next: u32,
) -> Result<Register, NoMemory>
    requires scoped { ScopedExpr (expr_of e.now) (scope_of scope.now) }
    requires frame { base + length (scope_of scope.now) ≤ next }
    requires fits { next + expr_room (expr_of e.now) < 2 ^ 32 }
    ensures at { IfOk result (λ q. q ≡ at (expr_of e.now) (scope_of scope.now) next) }
    ensures code { OnOk result (block_of code.new.items ≡ block_of code.old.items then expr_code (expr_of e.now) (scope_of scope.now) base next) }
{
    match e {
        CoreExpr::Literal(value) => {
            let to = literal(alloc, code, value, next)?;
            Ok(to)
        }
        CoreExpr::Read(variable) => {
            let from = scope.register_of(*variable, base);
            let to = read(code, from, next)?;
            Ok(to)
        }
        CoreExpr::Apply(op, args) => {
            let operands = expressions(args.as_slice(), alloc, code, scope, base, next)?;
            apply(code, *op, operands, next)
        }
        CoreExpr::Differ(difference, operand) => {
            let of = expression(operand, alloc, code, scope, base, next)?;
            differ(code, *difference, of, next)
        }
        CoreExpr::Sum(over, args) => {
            let operands = expressions(args.as_slice(), alloc, code, scope, base, next)?;
            sum(code, *over, operands, next)
        }
        CoreExpr::Texture(node, args) => {
            let operands = expressions(args.as_slice(), alloc, code, scope, base, next)?;
            texture(code, *node, operands, next)
        }
        CoreExpr::Call(args, body, kind, value) => {
            let mut inner = Scope::new(alloc);
            let passed = arguments(args.as_slice(), alloc, code, scope, base, next, &mut inner)?;
            let body = body.as_slice();
            let temps = first_behind(body, &inner, next);
            let ran = statements(body, alloc, code, &mut inner, next, temps)?;
            let end = inner.end(next);
            let from = expression(value, alloc, code, &inner, next, end)?;
            let uniform = both(passed, both(ran, is_uniform(from)));
            let to = register(uniform, shape_of(*kind), next);
            returned(code, to, *kind, from)
        }
    }
}

// The variable of the frame that an expression reads, if it does nothing else.
fn variable_of(e: &CoreExpr) -> Option<u32>
    ensures { MatchOption result (IsMade (expr_of e.now)) (λ k. expr_of e.now ≡ read (variables.Level k)) }
{
    match e {
        CoreExpr::Read(Variable::Level(k)) => Some(*k),
        CoreExpr::Read(Variable::Predefined(_)) => None,
        CoreExpr::Literal(_) => None,
        CoreExpr::Apply(_, _) => None,
        CoreExpr::Differ(_, _) => None,
        CoreExpr::Sum(_, _) => None,
        CoreExpr::Texture(_, _) => None,
        CoreExpr::Call(_, _, _, _) => None,
    }
}

// Puts the values of expressions into registers one behind another, but for those that are variables of the frame, and gives the
// registers that hold them.
#[cycle(emission)]
fn expressions(
    args: &[CoreExpr],
    alloc: Global,
    code: &mut Vec<Node>,
    scope: &Scope,
    base: u32,
    next: u32,
) -> Result<Vec<Register>, NoMemory>
    requires scoped { ScopedExprs (exprs_of args.now) (scope_of scope.now) }
    requires frame { base + length (scope_of scope.now) ≤ next }
    requires fits { next + exprs_room (exprs_of args.now) < 2 ^ 32 }
    ensures at { IfOk result (λ qs. qs.items ≡ all_at (exprs_of args.now) (scope_of scope.now) base next) }
    ensures code { OnOk result (block_of code.new.items ≡ block_of code.old.items then exprs_code (exprs_of args.now) (scope_of scope.now) base next) }
{
    let mut registers = Vec::new(alloc);
    let mut target = next;
    for e in args {
        let from = match variable_of(e) {
            Some(k) => scope.register_of(Variable::Level(k), base),
            None => expression(e, alloc, code, scope, base, target)?,
        };
        registers.push(from)?;
        target += 1;
    }
    Ok(registers)
}

// Puts arguments into the registers of the variables of the function's frame, which begins at `next`, and tells whether
// they and those variables are uniform.
#[cycle(emission)]
fn arguments(
    args: &[Argument],
    alloc: Global,
    code: &mut Vec<Node>,
    scope: &Scope,
    base: u32,
    next: u32,
    inner: &mut Scope,
) -> Result<bool, NoMemory>
    requires scoped { ScopedArgs (args_of args.now) (scope_of scope.now) }
    requires frame { base + length (scope_of scope.now) ≤ next }
    requires fits { next + args_room (args_of args.now) < 2 ^ 32 }
    ensures class { IfOk result (λ u. u ≡ args_uniform (args_of args.now) (scope_of scope.now) && all_uniform (formals (args_of args.now))) }
    ensures formals { OnOk result (scope_of inner.new ≡ scope_of inner.old ++ formals (args_of args.now)) }
    ensures code { OnOk result (block_of code.new.items ≡ block_of code.old.items then args_code (args_of args.now) (scope_of scope.now) base next) }
{
    let mut uniform = true;
    let mut target = next;
    for argument in args {
        let from = expression(&argument.value, alloc, code, scope, base, target)?;
        let u = begun(code, inner, argument.uniform, argument.kind, from, target)?;
        uniform = both(uniform, u);
        target += 1;
    }
    Ok(uniform)
}

// Statements one behind another, whose variables stay in scope, and whether all in them is uniform.
#[cycle(emission)]
fn statements(
    all: &[CoreStmt],
    alloc: Global,
    code: &mut Vec<Node>,
    scope: &mut Scope,
    base: u32,
    temps: u32,
) -> Result<bool, NoMemory>
    requires scoped { ScopedAll (stmts_of all.now) (scope_of scope.old) }
    requires fits { base + length (scope_of scope.old) + all_room (stmts_of all.now) < 2 ^ 32 }
    requires room { base + length (scope_of scope.old) + all_locals (stmts_of all.now) ≤ temps }
    requires spare { temps + all_temps (stmts_of all.now) < 2 ^ 32 }
    ensures class { IfOk result (λ u. u ≡ stmts_uniform (stmts_of all.now) (scope_of scope.old)) }
    ensures scope { OnOk result (scope_of scope.new ≡ after_all (stmts_of all.now) (scope_of scope.old)) }
    ensures code { OnOk result (block_of code.new.items ≡ block_of code.old.items then all_code (stmts_of all.now) (scope_of scope.old) base temps) }
{
    let mut uniform = true;
    for s in all {
        let u = statement(s, alloc, code, scope, base, temps)?;
        uniform = both(uniform, u);
    }
    Ok(uniform)
}

// Statements whose variables end with them.
#[cycle(emission)]
fn block(
    all: &[CoreStmt],
    alloc: Global,
    code: &mut Vec<Node>,
    scope: &mut Scope,
    base: u32,
    temps: u32,
) -> Result<bool, NoMemory>
    requires scoped { ScopedAll (stmts_of all.now) (scope_of scope.old) }
    requires fits { base + length (scope_of scope.old) + all_room (stmts_of all.now) < 2 ^ 32 }
    requires room { base + length (scope_of scope.old) + all_locals (stmts_of all.now) ≤ temps }
    requires spare { temps + all_temps (stmts_of all.now) < 2 ^ 32 }
    ensures class { IfOk result (λ u. u ≡ stmts_uniform (stmts_of all.now) (scope_of scope.old)) }
    ensures scope { OnOk result (scope_of scope.new ≡ scope_of scope.old) }
    ensures code { OnOk result (block_of code.new.items ≡ block_of code.old.items then all_code (stmts_of all.now) (scope_of scope.old) base temps) }
{
    let depth = scope.depth();
    let uniform = statements(all, alloc, code, scope, base, temps)?;
    scope.cut(depth);
    Ok(uniform)
}

#[cycle(emission)]
fn statement(
    s: &CoreStmt,
    alloc: Global,
    code: &mut Vec<Node>,
    scope: &mut Scope,
    base: u32,
    temps: u32,
) -> Result<bool, NoMemory>
    requires scoped { ScopedStmt (stmt_of s.now) (scope_of scope.old) }
    requires fits { base + length (scope_of scope.old) + stmt_room (stmt_of s.now) < 2 ^ 32 }
    requires room { base + length (scope_of scope.old) + locals (stmt_of s.now) ≤ temps }
    requires spare { temps + temps_of (stmt_of s.now) < 2 ^ 32 }
    ensures class { IfOk result (λ u. u ≡ stmt_uniform (stmt_of s.now) (scope_of scope.old)) }
    ensures scope { OnOk result (scope_of scope.new ≡ after (stmt_of s.now) (scope_of scope.old)) }
    ensures code { OnOk result (block_of code.new.items ≡ block_of code.old.items then stmt_code (stmt_of s.now) (scope_of scope.old) base temps) }
{
    let next = scope.end(base);
    match s {
        CoreStmt::Declare(uniform, kind, e) => {
            let from = expression(e, alloc, code, scope, base, next)?;
            begun(code, scope, *uniform, *kind, from, next)
        }
        CoreStmt::Assign(variable, kind, e) => {
            let from = expression(e, alloc, code, scope, base, temps)?;
            let to = scope.register_of(*variable, base);
            assigned(code, to, *kind, from)
        }
        CoreStmt::Block(body) => block(body.as_slice(), alloc, code, scope, base, temps),
        CoreStmt::Test(test, then, otherwise) => {
            let asked = expression(test, alloc, code, scope, base, next)?;
            let mut one = Vec::new(alloc);
            let a = block(then.as_slice(), alloc, &mut one, scope, base, temps)?;
            let mut other = Vec::new(alloc);
            let b = block(otherwise.as_slice(), alloc, &mut other, scope, base, temps)?;
            branched(code, asked, one, other, both(a, b))
        }
        CoreStmt::Repeat(repeated) => repeat(repeated, alloc, code, scope, base, temps),
        CoreStmt::Lights(word, args, body) => {
            let operands = expressions(args.as_slice(), alloc, code, scope, base, next)?;
            let mut inside = Vec::new(alloc);
            let b = block(body.as_slice(), alloc, &mut inside, scope, base, temps)?;
            lit(code, *word, operands, inside, b)
        }
        CoreStmt::Break => {
            leave(code)?;
            Ok(true)
        }
        CoreStmt::Continue => {
            again(code)?;
            Ok(true)
        }
    }
}

#[cycle(emission)]
fn repeat(
    repeated: &CoreLoop,
    alloc: Global,
    code: &mut Vec<Node>,
    scope: &mut Scope,
    base: u32,
    temps: u32,
) -> Result<bool, NoMemory>
    requires scoped { ScopedStmt (loop_of repeated.now) (scope_of scope.old) }
    requires fits { base + length (scope_of scope.old) + stmt_room (loop_of repeated.now) < 2 ^ 32 }
    requires room { base + length (scope_of scope.old) + locals (loop_of repeated.now) ≤ temps }
    requires spare { temps + temps_of (loop_of repeated.now) < 2 ^ 32 }
    ensures class { IfOk result (λ u. u ≡ stmt_uniform (loop_of repeated.now) (scope_of scope.old)) }
    ensures scope { OnOk result (scope_of scope.new ≡ scope_of scope.old) }
    ensures code { OnOk result (block_of code.new.items ≡ block_of code.old.items then stmt_code (loop_of repeated.now) (scope_of scope.old) base temps) }
{
    let mut ask = Vec::new(alloc);
    let next = scope.end(base);
    let asked = expression(&repeated.test, alloc, &mut ask, scope, base, next)?;
    let mut step = Vec::new(alloc);
    let a = block(
        repeated.step.as_slice(),
        alloc,
        &mut step,
        scope,
        base,
        temps,
    )?;
    let mut body = Vec::new(alloc);
    let b = block(
        repeated.body.as_slice(),
        alloc,
        &mut body,
        scope,
        base,
        temps,
    )?;
    let uniform = both(a, b);
    looped(code, repeated.uniform, ask, asked, step, body, uniform)
}
