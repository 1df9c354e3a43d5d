// Statements that hold others, from what was found of their parts: the first fault in the order of the text, or the node.
ghost use Rattle.std.specs.Prelude.{List, ◌≡◌, Ok, map};
ghost use Rattle.sl_expressions.specs.Found.{Found};
ghost use Rattle.sl_expressions.specs.Scope.{Local};
ghost use Rattle.sl_expressions.specs.Typed as T;
ghost use Rattle.sl_expressions.specs.TypedView.{typed_of, tstmt_of};
ghost use Rattle.sl_expressions.specs.Views.{Gives, GivesAll};
ghost use Rattle.sl_typing.specs.Stmts as spec;
ghost use Rattle.sl_typing.specs.Views.{GivesOne, GivesTested, GivesIfElse, GivesFor, boxed_of, head_of};

use crate::sets::is_test;
use fixed_math::List;
use sl_ast::LightStmt;
use sl_expressions::{TypeCode, TypeFault, TypedExpr, TypedStmt, left};
use std::alloc::Global;

// A block.
#[tactic(auto, using(sl_expressions::proofs::Rows::held_tstmts))]
pub fn block_node(
    body: Result<Vec<TypedStmt>, TypeFault>,
    line: u32,
) -> Result<TypedStmt, TypeFault>
    ensures { (ls : List Local) (b : Found (List T.Stmt)) → GivesAll tstmt_of body b → GivesOne result ls (spec.blocked ls line b) }
{
    let body = body?;
    Ok(TypedStmt::Block {
        body: List(body),
        line,
    })
}

#[tactic(auto, using(sl_expressions::proofs::Rows::held_tstmts))]
fn group_node(body: Vec<TypedStmt>) -> TypedStmt
    ensures { tstmt_of result ≡ T.group (T.stmts (map tstmt_of body.items)) }
{
    TypedStmt::Group { body: List(body) }
}

// A branch: a declaration of several names stands as a group.
#[tactic(auto, using(crate::proofs::Branches::one_is, crate::proofs::Branches::several_are))]
fn one_of(mut stmts: Vec<TypedStmt>) -> TypedStmt
    ensures { tstmt_of result ≡ spec.one_of (map tstmt_of stmts.items) }
{
    if stmts.len() != 1 {
        return group_node(stmts);
    }
    match stmts.pop() {
        Some(one) => one,
        None => unreachable!(),
    }
}

// A branch as the node around it holds it.
pub fn boxed(alloc: Global, stmts: Vec<TypedStmt>) -> Result<Box<TypedStmt>, TypeFault>
    ensures { Gives boxed_of result (Ok (spec.one_of (map tstmt_of stmts.items))) }
{
    sl_expressions::boxed(alloc, one_of(stmts))
}

// An `if` alone.
pub fn if_node(
    test: Result<TypedExpr, TypeFault>,
    then: Result<Box<TypedStmt>, TypeFault>,
    line: u32,
) -> Result<TypedStmt, TypeFault>
    ensures { (ls : List Local) (t : Found T.Expr) (r : Found T.Stmt) → Gives typed_of test t → Gives boxed_of then r → GivesOne result ls (spec.tested ls line t r) }
{
    match test {
        Err(fault) => left(then, fault),
        Ok(test) => match then {
            Err(fault) => left(test, fault),
            Ok(then) => Ok(TypedStmt::If { test, then, line }),
        },
    }
}

// An `if` with its `else`.
pub fn if_else_node(
    test: Result<TypedExpr, TypeFault>,
    then: Result<Box<TypedStmt>, TypeFault>,
    otherwise: Result<Box<TypedStmt>, TypeFault>,
    line: u32,
) -> Result<TypedStmt, TypeFault>
    ensures { GivesIfElse test then otherwise line result }
{
    match test {
        Err(fault) => left((then, otherwise), fault),
        Ok(test) => match then {
            Err(fault) => left((test, otherwise), fault),
            Ok(then) => match otherwise {
                Err(fault) => left((test, then), fault),
                Ok(otherwise) => Ok(TypedStmt::IfElse {
                    test,
                    then,
                    otherwise,
                    line,
                }),
            },
        },
    }
}

// A `while`.
pub fn while_node(
    test: Result<TypedExpr, TypeFault>,
    body: Result<Box<TypedStmt>, TypeFault>,
    line: u32,
) -> Result<TypedStmt, TypeFault>
    ensures { (ls : List Local) (t : Found T.Expr) (r : Found T.Stmt) → Gives typed_of test t → Gives boxed_of body r → GivesOne result ls (spec.repeated ls line t r) }
{
    match test {
        Err(fault) => left(body, fault),
        Ok(test) => match body {
            Err(fault) => left(test, fault),
            Ok(body) => Ok(TypedStmt::While { test, body, line }),
        },
    }
}

// The condition of a `for`, whose type is asked before the first assignment; its own faults are told after that.
fn tested(
    line: u32,
    found: Result<TypedExpr, TypeFault>,
) -> Result<Result<TypedExpr, TypeFault>, TypeFault>
    ensures { (test : Found T.Expr) → Gives typed_of found test → GivesTested result line test }
{
    match found {
        Err(TypeFault::NoMemory) => Err(TypeFault::NoMemory),
        Err(TypeFault::At { code, line }) => Ok(Err(TypeFault::At { code, line })),
        Ok(test) => {
            if !is_test(&test) {
                return left(
                    test,
                    TypeFault::At {
                        code: TypeCode::T2,
                        line,
                    },
                );
            }
            Ok(Ok(test))
        }
    }
}

// The first assignment of a `for`, and its condition.
pub fn for_head(
    test: Result<TypedExpr, TypeFault>,
    first: Result<Vec<TypedStmt>, TypeFault>,
    line: u32,
) -> Result<(Vec<TypedStmt>, TypedExpr), TypeFault>
    ensures { (t : Found T.Expr) (a : Found (List T.Stmt)) → Gives typed_of test t → GivesAll tstmt_of first a → Gives head_of result (spec.for_head line t a) }
{
    match tested(line, test) {
        Err(fault) => left(first, fault),
        Ok(test) => match first {
            Err(fault) => left(test, fault),
            Ok(first) => match test {
                Err(fault) => left(first, fault),
                Ok(test) => Ok((first, test)),
            },
        },
    }
}

// A `for`.
#[tactic(auto, using(sl_expressions::proofs::Rows::held_tstmts))]
pub fn for_node(
    head: Result<(Vec<TypedStmt>, TypedExpr), TypeFault>,
    step: Result<Vec<TypedStmt>, TypeFault>,
    body: Result<Box<TypedStmt>, TypeFault>,
    line: u32,
) -> Result<TypedStmt, TypeFault>
    ensures { GivesFor head step body line result }
{
    match head {
        Err(fault) => left((step, body), fault),
        Ok(head) => match step {
            Err(fault) => left((head, body), fault),
            Ok(step) => match body {
                Err(fault) => left((head, step), fault),
                Ok(body) => Ok(TypedStmt::For {
                    first: List(head.0),
                    test: head.1,
                    step: List(step),
                    body,
                    line,
                }),
            },
        },
    }
}

// A statement over lights.
pub fn lights_node(
    word: LightStmt,
    args: Result<Vec<TypedExpr>, TypeFault>,
    body: Result<Box<TypedStmt>, TypeFault>,
    line: u32,
) -> Result<TypedStmt, TypeFault>
    ensures { (ls : List Local) (xs : Found (List T.Expr)) (r : Found T.Stmt) → GivesAll typed_of args xs → Gives boxed_of body r → GivesOne result ls (spec.lighted ls word line xs r) }
{
    match args {
        Err(fault) => left(body, fault),
        Ok(args) => match body {
            Err(fault) => left(args, fault),
            Ok(body) => Ok(TypedStmt::Lights {
                word,
                args: List(args),
                body,
                line,
            }),
        },
    }
}
