// The typed trees of statements.
ghost use Rattle.std.specs.Prelude.{List, ◌≡◌, map, length, true};
ghost use Rattle.sl_ast.specs.Syntax as U;
ghost use Rattle.sl_ast.specs.SyntaxView.{expr_of, stmt_of};
ghost use Rattle.sl_expressions.specs.Exprs.{typed_args};
ghost use Rattle.sl_expressions.specs.Scope as scopes;
ghost use Rattle.sl_expressions.specs.Typed as T;
ghost use Rattle.sl_expressions.specs.TypedView.{typed_of, tstmt_of};
ghost use Rattle.sl_expressions.specs.declared.places.Local.{Local};
ghost use Rattle.sl_expressions.specs.Views.{Gives, GivesAll, spot_of, around_of, local_of};
ghost use Rattle.sl_typing.specs.Measures.{is_plain};
ghost use Rattle.sl_typing.specs.Stmts as spec;
ghost use Rattle.sl_typing.specs.Views.{GivesOne, GivesRows, boxed_of, Extends};

use crate::compound::{
    block_node, boxed, for_head, for_node, if_else_node, if_node, lights_node, while_node,
};
use crate::sets::{
    condition, is_uniform, light_args, light_word, lights_of, misplaced, names, optional_set, set,
};
use sl_ast::{Expr, LightStmt, Stmt};
use sl_expressions::{
    Around, Scope, Spot, TypeCode, TypeFault, TypedExpr, TypedStmt, added, expr, fault, push,
};
use std::alloc::Global;

// The typed arguments of `solar`.
fn solar_args(
    alloc: Global,
    g: &Around<'_, '_>,
    scope: &Scope<'_>,
    axis: &Expr,
    angle: &Expr,
) -> Result<Vec<TypedExpr>, TypeFault>
    ensures { GivesAll typed_of result (typed_args (around_of g.now) (map local_of scope.now) (U.more (expr_of axis.now) (U.more (expr_of angle.now) U.none))) }
{
    let axis = expr(axis, alloc, g, false, scope);
    let angle = expr(angle, alloc, g, false, scope);
    let first = added(Ok(Vec::new(alloc)), axis);
    added(first, angle)
}

// A statement that leaves the scope as it is, after those before it.
fn add(one: Result<TypedStmt, TypeFault>, done: &mut Vec<TypedStmt>) -> Result<(), TypeFault>
    ensures { (ls : List Local) (found : spec.Rows) → GivesOne one (map local_of ls) found → GivesRows result done.new.items ls (spec.put_after (map tstmt_of done.old.items) found) }
{
    push(done, one?)
}

// A `break`.
fn leave(g: &Spot, line: u32) -> Result<TypedStmt, TypeFault>
    ensures { (ls : List scopes.Local) → GivesOne result ls (spec.jumped g.now.looped ls line (T.leave line)) }
{
    if !g.looped {
        return fault(TypeCode::T8, line);
    }
    Ok(TypedStmt::Break { line })
}

// A `continue`.
fn again(g: &Spot, line: u32) -> Result<TypedStmt, TypeFault>
    ensures { (ls : List scopes.Local) → GivesOne result ls (spec.jumped g.now.looped ls line (T.again line)) }
{
    if !g.looped {
        return fault(TypeCode::T8, line);
    }
    Ok(TypedStmt::Continue { line })
}

fn in_loop<'a, 'b>(g: &Around<'a, 'b>) -> Around<'a, 'b>
    ensures { around_of result ≡ spec.in_loop (around_of g.now) }
{
    Around {
        at: Spot {
            looped: true,
            ..g.at
        },
        own: g.own,
        known: g.known,
    }
}

fn in_lights<'a, 'b>(g: &Around<'a, 'b>) -> Around<'a, 'b>
    ensures { around_of result ≡ spec.in_lights (around_of g.now) }
{
    Around {
        at: Spot { lit: true, ..g.at },
        own: g.own,
        known: g.known,
    }
}

// The typed statements of a statement that holds no other, after those before it.
fn plain<'a>(
    s: &'a Stmt,
    alloc: Global,
    g: &Around<'_, 'a>,
    from: usize,
    done: &mut Vec<TypedStmt>,
    scope: &mut Scope<'a>,
) -> Result<(), TypeFault>
    requires { is_plain (stmt_of s.now) ≡ true }
    ensures gives { GivesRows result done.new.items scope.new (spec.put_after (map tstmt_of done.old.items) (spec.typed_stmt (around_of g.now) from (map local_of scope.old) (stmt_of s.now))) }
    ensures extends { Extends scope.old scope.new }
{
    match s {
        Stmt::Empty { line } => add(Ok(TypedStmt::Empty { line: *line }), done),
        Stmt::Set { set: a } => add(set(alloc, g, scope, a), done),
        Stmt::Break { line } => add(leave(&g.at, *line), done),
        Stmt::Continue { line } => add(again(&g.at, *line), done),
        Stmt::Return { value, line } => {
            let value = expr(value, alloc, g, false, scope);
            add(misplaced(&g.own, value, *line), done)
        }
        Stmt::Declare {
            class,
            kind,
            names: ds,
            ..
        } => {
            let uniform = is_uniform(*class);
            names(alloc, g, from, uniform, *kind, done, scope, ds.as_slice())
        }
        _ => unreachable!(),
    }
}

/// Adds the typed statements of a statement to those before it, and what it declares to the scope. The parts of one that holds
/// others are all typed, and the node that they make gives the first of their faults.
#[cycle(stmts)]
pub fn stmt<'a>(
    s: &'a Stmt,
    alloc: Global,
    g: &Around<'_, 'a>,
    from: usize,
    done: &mut Vec<TypedStmt>,
    scope: &mut Scope<'a>,
) -> Result<(), TypeFault>
    ensures gives { GivesRows result done.new.items scope.new (spec.put_after (map tstmt_of done.old.items) (spec.typed_stmt (around_of g.now) from (map local_of scope.old) (stmt_of s.now))) }
    ensures extends { Extends scope.old scope.new }
{
    match s {
        Stmt::Block { body, line } => {
            let body = block(body.as_slice(), alloc, g, scope);
            add(block_node(body, *line), done)
        }
        Stmt::If { test, then, line } => {
            let test = condition(*line, expr(test, alloc, g, false, scope));
            let then = branch(then, alloc, g, scope);
            add(if_node(test, then, *line), done)
        }
        Stmt::IfElse {
            test,
            then,
            otherwise,
            line,
        } => {
            let test = condition(*line, expr(test, alloc, g, false, scope));
            let then = branch(then, alloc, g, scope);
            let otherwise = branch(otherwise, alloc, g, scope);
            add(if_else_node(test, then, otherwise, *line), done)
        }
        Stmt::While { test, body, line } => {
            let test = condition(*line, expr(test, alloc, g, false, scope));
            let body = branch(body, alloc, &in_loop(g), scope);
            add(while_node(test, body, *line), done)
        }
        Stmt::For {
            first,
            test,
            step,
            body,
            line,
        } => {
            let test = expr(test, alloc, g, false, scope);
            let first = optional_set(alloc, g, scope, first);
            let step = optional_set(alloc, g, scope, step);
            let body = branch(body, alloc, &in_loop(g), scope);
            add(
                for_node(for_head(test, first, *line), step, body, *line),
                done,
            )
        }
        Stmt::Lights {
            word,
            place,
            cone,
            body,
            line,
        } => {
            let word = light_word(*word);
            let args = light_args(alloc, g, scope, place, cone);
            let args = lights_of(&g.at, word, *line, args);
            let body = branch(body, alloc, &in_lights(g), scope);
            add(lights_node(word, args, body, *line), done)
        }
        Stmt::Solar {
            axis,
            angle,
            body,
            line,
        } => {
            let args = solar_args(alloc, g, scope, axis, angle);
            let args = lights_of(&g.at, LightStmt::Solar, *line, args);
            let body = branch(body, alloc, &in_lights(g), scope);
            add(lights_node(LightStmt::Solar, args, body, *line), done)
        }
        _ => plain(s, alloc, g, from, done, scope),
    }
}

// A statement that is a block of its own for names.
#[cycle(stmts)]
fn branch<'a>(
    s: &'a Stmt,
    alloc: Global,
    g: &Around<'_, 'a>,
    scope: &mut Scope<'a>,
) -> Result<Box<TypedStmt>, TypeFault>
    ensures gives { Gives boxed_of result (spec.branch (spec.typed_stmt (around_of g.now) (length (map local_of scope.old)) (map local_of scope.old) (stmt_of s.now))) }
    ensures same { scope.new ≡ scope.old }
{
    let start = scope.len();
    let mut done = Vec::new(alloc);
    let typed = stmt(s, alloc, g, start, &mut done, scope);
    scope.truncate(start);
    match typed {
        Err(fault) => Err(fault),
        Ok(()) => boxed(alloc, done),
    }
}

// The statements of a block.
#[cycle(stmts)]
fn block<'a>(
    body: &'a [Stmt],
    alloc: Global,
    g: &Around<'_, 'a>,
    scope: &mut Scope<'a>,
) -> Result<Vec<TypedStmt>, TypeFault>
    ensures gives { GivesAll tstmt_of result (spec.inner (spec.typed_rows (around_of g.now) (length (map local_of scope.old)) (map local_of scope.old) (U.stmts (map stmt_of body.now)))) }
    ensures same { scope.new ≡ scope.old }
{
    let start = scope.len();
    let mut done = Vec::new(alloc);
    let typed = rows(body, alloc, g, start, &mut done, scope);
    scope.truncate(start);
    match typed {
        Err(fault) => Err(fault),
        Ok(()) => Ok(done),
    }
}

/// Adds the typed statements of statements one after another to those before them, and what they declare to the scope.
#[cycle(stmts)]
#[tactic(auto, using(crate::proofs::Scopes::extends_same, crate::proofs::Scopes::extends_trans, crate::proofs::After::rows_step, crate::proofs::After::rows_end))]
pub fn rows<'a>(
    body: &'a [Stmt],
    alloc: Global,
    g: &Around<'_, 'a>,
    from: usize,
    done: &mut Vec<TypedStmt>,
    scope: &mut Scope<'a>,
) -> Result<(), TypeFault>
    ensures gives { GivesRows result done.new.items scope.new (spec.put_after (map tstmt_of done.old.items) (spec.typed_rows (around_of g.now) from (map local_of scope.old) (U.stmts (map stmt_of body.now)))) }
    ensures extends { Extends scope.old scope.new }
{
    for s in body {
        stmt(s, alloc, g, from, done, scope)?;
    }
    Ok(())
}
