// Statements and what they declare from their parts, in boxes where more is read while they are held.
ghost use Rattle.std.specs.Prelude.{◌≡◌, Ok, IfOk, length, map, option_map};
ghost use Rattle.sl_ast.specs.Syntax as S;
ghost use Rattle.sl_ast.specs.SyntaxView.{expr_of, stmt_of, group_of, assignment_of, declared_of, cone_of, function_of};
ghost use Rattle.sl_expression_grammar.specs.Parsing.{Gives};
ghost use Rattle.sl_expression_grammar.specs.Boxes.{boxed_expr};
ghost use Rattle.sl_parser.specs.Boxes.{boxed_stmt, boxed_assignment, boxed_cone, for_of, lights_of};

use crate::files::GroupList;
use crate::statement_heads::{ForHead, LightsHead};
use fixed_math::{List, Text};
use sl_ast::{Assignment, Cone, Declared, Expr, Function, LightWord, SetOperator, SlType, Stmt};
use sl_expression_grammar::{Stop, boxed};
use sl_lexer::Token;
use std::alloc::Global;

pub fn make_assignment<'a>(
    alloc: Global,
    name: &Text,
    operator: SetOperator,
    value: Box<Expr>,
    line: u32,
    set_line: u32,
    rest: &'a [Token],
) -> Result<(Box<Assignment>, &'a [Token]), Stop<'a>>
    ensures gives { Gives boxed_assignment result (Ok (record { name = name.now; operator = operator; value = boxed_expr value; line = line; set_line = set_line }, rest.now)) }
    ensures within { IfOk result (λ n. length n.1.now ≡ length rest.now) }
{
    let name = name.copied(alloc)?;
    let assignment = Assignment {
        name,
        operator,
        value: Box::into_inner(value),
        line,
        set_line,
    };
    boxed(alloc, assignment, rest)
}

// An expression that may be missing, out of its box.
fn unboxed_expr(value: Option<Box<Expr>>) -> Option<Expr>
    ensures { option_map expr_of result ≡ option_map boxed_expr value }
{
    match value {
        Some(value) => Some(Box::into_inner(value)),
        None => None,
    }
}

pub fn make_declared<'a>(
    alloc: Global,
    name: &Text,
    value: Option<Box<Expr>>,
    line: u32,
    set_line: u32,
    rest: &'a [Token],
) -> Result<(Declared, &'a [Token]), Stop<'a>>
    ensures gives { Gives declared_of result (Ok (record { name = name.now; value = option_map boxed_expr value; line = line; set_line = set_line }, rest.now)) }
    ensures within { IfOk result (λ n. length n.1.now ≡ length rest.now) }
{
    let name = name.copied(alloc)?;
    let declared = Declared {
        name,
        value: unboxed_expr(value),
        line,
        set_line,
    };
    Ok((declared, rest))
}

pub fn make_cone<'a>(
    alloc: Global,
    axis: Box<Expr>,
    angle: Box<Expr>,
    rest: &'a [Token],
) -> Result<(Box<Cone>, &'a [Token]), Stop<'a>>
    ensures gives { Gives boxed_cone result (Ok ((boxed_expr axis, boxed_expr angle), rest.now)) }
    ensures within { IfOk result (λ n. length n.1.now ≡ length rest.now) }
{
    let axis = Box::into_inner(axis);
    let angle = Box::into_inner(angle);
    boxed(alloc, Cone { axis, angle }, rest)
}

#[tactic(auto, using(sl_ast::proofs::Rows::held_stmts))]
pub fn make_block<'a>(
    alloc: Global,
    body: Vec<Stmt>,
    line: u32,
    rest: &'a [Token],
) -> Result<(Box<Stmt>, &'a [Token]), Stop<'a>>
    ensures gives { Gives boxed_stmt result (Ok (S.block (S.stmts (map stmt_of body.items)) line, rest.now)) }
    ensures within { IfOk result (λ n. length n.1.now ≡ length rest.now) }
{
    let block = Stmt::Block {
        body: List(body),
        line,
    };
    boxed(alloc, block, rest)
}

pub fn make_if<'a>(
    alloc: Global,
    test: Box<Expr>,
    then: Box<Stmt>,
    line: u32,
    rest: &'a [Token],
) -> Result<(Box<Stmt>, &'a [Token]), Stop<'a>>
    ensures gives { Gives boxed_stmt result (Ok (S.test (boxed_expr test) (boxed_stmt then) line, rest.now)) }
    ensures within { IfOk result (λ n. length n.1.now ≡ length rest.now) }
{
    let choice = Stmt::If {
        test: Box::into_inner(test),
        then,
        line,
    };
    boxed(alloc, choice, rest)
}

pub fn make_if_else<'a>(
    alloc: Global,
    test: Box<Expr>,
    then: Box<Stmt>,
    otherwise: Box<Stmt>,
    line: u32,
    rest: &'a [Token],
) -> Result<(Box<Stmt>, &'a [Token]), Stop<'a>>
    ensures gives { Gives boxed_stmt result (Ok (S.test_else (boxed_expr test) (boxed_stmt then) (boxed_stmt otherwise) line, rest.now)) }
    ensures within { IfOk result (λ n. length n.1.now ≡ length rest.now) }
{
    let choice = Stmt::IfElse {
        test: Box::into_inner(test),
        then,
        otherwise,
        line,
    };
    boxed(alloc, choice, rest)
}

pub fn make_while<'a>(
    alloc: Global,
    test: Box<Expr>,
    body: Box<Stmt>,
    line: u32,
    rest: &'a [Token],
) -> Result<(Box<Stmt>, &'a [Token]), Stop<'a>>
    ensures gives { Gives boxed_stmt result (Ok (S.repeat (boxed_expr test) (boxed_stmt body) line, rest.now)) }
    ensures within { IfOk result (λ n. length n.1.now ≡ length rest.now) }
{
    let repeated = Stmt::While {
        test: Box::into_inner(test),
        body,
        line,
    };
    boxed(alloc, repeated, rest)
}

// An assignment that may be missing, out of its box.
fn unboxed_set(set: Option<Box<Assignment>>) -> Option<Assignment>
    ensures { option_map assignment_of result ≡ option_map boxed_assignment set }
{
    match set {
        Some(set) => Some(Box::into_inner(set)),
        None => None,
    }
}

pub fn make_for<'a>(
    alloc: Global,
    head: Box<ForHead>,
    body: Box<Stmt>,
    line: u32,
    rest: &'a [Token],
) -> Result<(Box<Stmt>, &'a [Token]), Stop<'a>>
    ensures gives { Gives boxed_stmt result (Ok (S.steps (for_of head).0 (for_of head).1 (for_of head).2 (boxed_stmt body) line, rest.now)) }
    ensures within { IfOk result (λ n. length n.1.now ≡ length rest.now) }
{
    let ForHead { first, test, step } = Box::into_inner(head);
    let stepped = Stmt::For {
        first: unboxed_set(first),
        test: Box::into_inner(test),
        step: unboxed_set(step),
        body,
        line,
    };
    boxed(alloc, stepped, rest)
}

// A cone that may be missing, out of its box.
fn unboxed_cone(cone: Option<Box<Cone>>) -> Option<Cone>
    ensures { option_map cone_of result ≡ option_map boxed_cone cone }
{
    match cone {
        Some(cone) => Some(Box::into_inner(cone)),
        None => None,
    }
}

pub fn make_lights<'a>(
    alloc: Global,
    word: LightWord,
    head: Box<LightsHead>,
    body: Box<Stmt>,
    line: u32,
    rest: &'a [Token],
) -> Result<(Box<Stmt>, &'a [Token]), Stop<'a>>
    ensures gives { Gives boxed_stmt result (Ok (S.lights word (lights_of head).0 (lights_of head).1 (boxed_stmt body) line, rest.now)) }
    ensures within { IfOk result (λ n. length n.1.now ≡ length rest.now) }
{
    let LightsHead { place, cone } = Box::into_inner(head);
    let lights = Stmt::Lights {
        word,
        place: Box::into_inner(place),
        cone: unboxed_cone(cone),
        body,
        line,
    };
    boxed(alloc, lights, rest)
}

pub fn make_solar<'a>(
    alloc: Global,
    cone: Box<Cone>,
    body: Box<Stmt>,
    line: u32,
    rest: &'a [Token],
) -> Result<(Box<Stmt>, &'a [Token]), Stop<'a>>
    ensures gives { Gives boxed_stmt result (Ok (S.solar (boxed_cone cone).0 (boxed_cone cone).1 (boxed_stmt body) line, rest.now)) }
    ensures within { IfOk result (λ n. length n.1.now ≡ length rest.now) }
{
    let Cone { axis, angle } = Box::into_inner(cone);
    let solar = Stmt::Solar {
        axis,
        angle,
        body,
        line,
    };
    boxed(alloc, solar, rest)
}

#[tactic(auto, using(sl_ast::proofs::Rows::held_stmts))]
pub fn make_function(
    returns: SlType,
    name: Text,
    formals: GroupList,
    body: Vec<Stmt>,
    line: u32,
) -> Function
    ensures { function_of result ≡ record { returns = returns; name = name; formals = map group_of formals.groups.items; ended = formals.ended; body = S.stmts (map stmt_of body.items); line = line } }
{
    Function {
        returns,
        name,
        formals: List(formals.groups),
        ended: formals.ended,
        body: List(body),
        line,
    }
}
