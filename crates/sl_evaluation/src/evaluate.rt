// The meaning of a default's core tree.
ghost use Rattle.std.specs.Prelude.{◌≡◌, IfOk, OnOk};
ghost use Rattle.sl_ast.specs.declared.typed.Variable.TheVariants.{Level};
ghost use Rattle.builtins.specs.Values.{as_kind, is_true};
ghost use Rattle.sl_meaning.specs.CoreAlone as spec;
ghost use Rattle.sl_meaning.specs.Environment.{Next, declared, with_variable};
ghost use Rattle.sl_meaning.specs.Dark.{dark};
ghost use Rattle.sl_meaning.specs.CoreView.{expr_of, exprs_of, args_of, stmt_of, stmts_of, loop_of};
ghost use Rattle.sl_evaluation.specs.Constant.{IsConstant, AreConstant, ArgumentsConstant, StmtConstant, AllConstant};
ghost use Rattle.sl_evaluation.specs.ScopeView.{env_of};
ghost use Rattle.sl_evaluation.specs.Signals.{signal_of};

use crate::scope::Scope;
use crate::signal::Signal;
use builtins::{applied, as_shape, copied, shape_of};
use fixed_math::NoMemory;
use sl_ast::{SlType, Value, Variable};
use sl_meaning::{Argument, CoreExpr, CoreLoop, CoreStmt};
use std::alloc::Global;
use transforms::Spaces;

// A value where one of that type is wanted.
pub(crate) fn in_kind(alloc: Global, kind: SlType, value: &Value) -> Result<Value, NoMemory>
    ensures { IfOk result (λ w. w ≡ as_kind kind value.now) }
{
    as_shape(alloc, shape_of(kind), value)
}

// Whether a condition of that value holds. The value ends here, so that none is held where control leaves a statement.
fn is_set(value: Value) -> bool
    ensures { result ≡ is_true value }
{
    builtins::is_true(&value)
}

// One variable more in scope, of that type.
fn declare_as(alloc: Global, kind: SlType, value: Value, scope: &mut Scope) -> Result<(), NoMemory>
    ensures { OnOk result (env_of scope.new ≡ declared (as_kind kind value) (env_of scope.old)) }
{
    scope.declare(in_kind(alloc, kind, &value)?)
}

// Sets a variable of that type.
fn set_as(
    alloc: Global,
    level: u32,
    kind: SlType,
    value: Value,
    scope: &mut Scope,
) -> Result<(), NoMemory>
    ensures { OnOk result (env_of scope.new ≡ with_variable (Level level) (as_kind kind value) (env_of scope.old)) }
{
    scope.set(level, in_kind(alloc, kind, &value)?);
    Ok(())
}

// The value of an expression of a default, with what it does to the variables and the budget. `most` only bounds the
// turns of each loop: each takes one from the budget, too. Want of memory leaves the scope in any state.
#[cycle(meaning)]
#[tactic(auto, using(sl_meaning::proofs::CoreRows::apply_shown, sl_meaning::proofs::CoreRows::call_shown))]
pub fn value(
    e: &CoreExpr,
    alloc: Global,
    spaces: &Spaces,
    most: u32,
    scope: &mut Scope,
) -> Result<Value, NoMemory>
    requires { IsConstant (expr_of e.now) }
    ensures { IfOk result (λ v. spec.value (expr_of e.now) (dark spaces.now) most (env_of scope.old) ≡ (v, env_of scope.new)) }
{
    match e {
        CoreExpr::Literal(v) => copied(alloc, v),
        CoreExpr::Read(Variable::Level(level)) => scope.read(alloc, *level),
        CoreExpr::Apply(operation, args) => {
            let operands = all_values(args.as_slice(), alloc, spaces, most, scope)?;
            applied(alloc, *operation, spaces, &operands)
        }
        CoreExpr::Call(args, body, kind, returned) => {
            let formals = arg_values(args.as_slice(), alloc, spaces, most, scope)?;
            let outer = scope.exchange(formals);
            run_all(body.as_slice(), alloc, spaces, most, scope)?;
            let found = value(returned, alloc, spaces, most, scope)?;
            let result = in_kind(alloc, *kind, &found)?;
            scope.exchange(outer);
            Ok(result)
        }
        CoreExpr::Read(Variable::Predefined(_))
        | CoreExpr::Differ(..)
        | CoreExpr::Sum(..)
        | CoreExpr::Texture(..) => unreachable!(),
    }
}

#[cycle(meaning)]
fn all_values(
    args: &[CoreExpr],
    alloc: Global,
    spaces: &Spaces,
    most: u32,
    scope: &mut Scope,
) -> Result<Vec<Value>, NoMemory>
    requires { AreConstant (exprs_of args.now) }
    ensures { IfOk result (λ vs. spec.all_values (exprs_of args.now) (dark spaces.now) most (env_of scope.old) ≡ (vs.items, env_of scope.new)) }
{
    let mut values = Vec::new(alloc);
    for e in args {
        let v = value(e, alloc, spaces, most, scope)?;
        values.push(v)?;
    }
    Ok(values)
}

#[cycle(meaning)]
fn arg_values(
    args: &[Argument],
    alloc: Global,
    spaces: &Spaces,
    most: u32,
    scope: &mut Scope,
) -> Result<Vec<Value>, NoMemory>
    requires { ArgumentsConstant (args_of args.now) }
    ensures { IfOk result (λ vs. spec.arg_values (args_of args.now) (dark spaces.now) most (env_of scope.old) ≡ (vs.items, env_of scope.new)) }
{
    let mut values = Vec::new(alloc);
    for a in args {
        let v = value(&a.value, alloc, spaces, most, scope)?;
        values.push(in_kind(alloc, a.kind, &v)?)?;
    }
    Ok(values)
}

// What a statement of a default does, and whether it leaves a loop or goes on with its next turn. `most` and want of
// memory are as those of `value`.
#[cycle(meaning)]
#[tactic(auto, using(sl_meaning::proofs::CoreRows::block_shown, sl_meaning::proofs::CoreRows::test_shown, sl_meaning::proofs::CoreRows::repeat_shown))]
fn run(
    s: &CoreStmt,
    alloc: Global,
    spaces: &Spaces,
    most: u32,
    scope: &mut Scope,
) -> Result<Signal, NoMemory>
    requires { StmtConstant (stmt_of s.now) }
    ensures { IfOk result (λ r. spec.run (stmt_of s.now) (dark spaces.now) most (env_of scope.old) ≡ (signal_of r, env_of scope.new)) }
{
    match s {
        CoreStmt::Declare(_, kind, e) => {
            let v = value(e, alloc, spaces, most, scope)?;
            declare_as(alloc, *kind, v, scope)?;
            Ok(Signal::Next)
        }
        CoreStmt::Assign(Variable::Level(level), kind, e) => {
            let v = value(e, alloc, spaces, most, scope)?;
            set_as(alloc, *level, *kind, v, scope)?;
            Ok(Signal::Next)
        }
        CoreStmt::Block(body) => {
            let depth = scope.depth();
            let signal = run_all(body.as_slice(), alloc, spaces, most, scope)?;
            scope.cut(depth);
            Ok(signal)
        }
        CoreStmt::Test(test, then, otherwise) => {
            let holds = value(test, alloc, spaces, most, scope)?;
            let depth = scope.depth();
            if is_set(holds) {
                let signal = run_all(then.as_slice(), alloc, spaces, most, scope)?;
                scope.cut(depth);
                return Ok(signal);
            }
            let signal = run_all(otherwise.as_slice(), alloc, spaces, most, scope)?;
            scope.cut(depth);
            Ok(signal)
        }
        CoreStmt::Repeat(turns) => {
            repeat(turns, alloc, spaces, most, scope)?;
            Ok(Signal::Next)
        }
        CoreStmt::Break => Ok(Signal::Break),
        CoreStmt::Continue => Ok(Signal::Continue),
        CoreStmt::Assign(Variable::Predefined(_), _, _) | CoreStmt::Lights(..) => unreachable!(),
    }
}

#[cycle(meaning)]
fn repeat(
    turns: &CoreLoop,
    alloc: Global,
    spaces: &Spaces,
    most: u32,
    scope: &mut Scope,
) -> Result<(), NoMemory>
    requires { StmtConstant (loop_of turns.now) }
    ensures { OnOk result (spec.run (loop_of turns.now) (dark spaces.now) most (env_of scope.old) ≡ (Next, env_of scope.new)) }
{
    for _turn in 0..most {
        let holds = value(&turns.test, alloc, spaces, most, scope)?;
        if !is_set(holds) {
            return Ok(());
        }
        if !scope.spend() {
            return Ok(());
        }
        let depth = scope.depth();
        let signal = run_all(turns.body.as_slice(), alloc, spaces, most, scope)?;
        scope.cut(depth);
        if signal.is_break() {
            return Ok(());
        }
        run_all(turns.step.as_slice(), alloc, spaces, most, scope)?;
    }
    value(&turns.test, alloc, spaces, most, scope)?;
    Ok(())
}

// What statements do one after another, until one leaves a loop or goes on with its next turn; their variables stay in
// scope. `most` and want of memory are as those of `value`.
#[cycle(meaning)]
fn run_all(
    body: &[CoreStmt],
    alloc: Global,
    spaces: &Spaces,
    most: u32,
    scope: &mut Scope,
) -> Result<Signal, NoMemory>
    requires { AllConstant (stmts_of body.now) }
    ensures { IfOk result (λ r. spec.run_all (stmts_of body.now) (dark spaces.now) most (env_of scope.old) ≡ (signal_of r, env_of scope.new)) }
{
    for s in body {
        let signal = run(s, alloc, spaces, most, scope)?;
        if signal != Signal::Next {
            return Ok(signal);
        }
    }
    Ok(Signal::Next)
}
