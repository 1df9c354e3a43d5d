// Expressions from tokens.
ghost use Rattle.std.specs.Prelude.{◌≤◌, [], ◌∷◌, IfOk, length, Some};
ghost use Rattle.sl_ast.specs.SyntaxView.{expr_of, link_of};
ghost use Rattle.sl_expression_grammar.specs.Reading.{with_front, many, after_comma};
ghost use Rattle.sl_expression_grammar.specs.Expressions.{chain, links_in, choice_then, expr_with, args_in, name_with, paren_with, inside_with, paren_typed, triple_with, typed_with, expr_at, unary_at, prim_at};
ghost use Rattle.sl_expression_grammar.specs.Rows.{operand_with};
ghost use Rattle.sl_expression_grammar.specs.Parsing.{Gives, GivesItems};
ghost use Rattle.sl_expression_grammar.specs.Boxes.{boxed_expr, space_from};

use crate::boxes::{push, push_boxed};
use crate::expression_nodes::{
    make_call, make_chain, make_choice, make_link, make_name, make_number, make_paren,
    make_prefixed, make_string, make_triple, make_typed,
};
use crate::fault::SlCode;
use crate::heads::{begins_expr, link_at, prefix_at, space_at, tighter};
use crate::reading::{Stop, closed, code_at, line_and_rest, rest_after};
use fixed_math::Text;
use sl_ast::{Expr, Link, Row, SlType};
use sl_lexer::{Mark, Token, TokenKind};
use std::alloc::Global;

/// An expression, where so many levels are left.
#[cycle(expressions)]
pub fn expr<'a>(
    alloc: Global,
    levels: u32,
    ts: &'a [Token],
) -> Result<(Box<Expr>, &'a [Token]), Stop<'a>>
    ensures gives { Gives boxed_expr result (expr_at levels ts.now) }
    ensures within { IfOk result (λ e. length e.1.now ≤ length ts.now) }
{
    if levels > 0 {
        choice(alloc, levels - 1, ts)
    } else if begins_expr(ts) {
        Err(Stop::At(SlCode::P3, ts))
    } else {
        Err(Stop::At(code_at(ts), ts))
    }
}

// An expression that has opened its level.
#[cycle(expressions)]
fn choice<'a>(
    alloc: Global,
    levels: u32,
    ts: &'a [Token],
) -> Result<(Box<Expr>, &'a [Token]), Stop<'a>>
    ensures gives { Gives boxed_expr result (expr_with (unary_at levels) (expr_at levels) ts.now) }
    ensures within { IfOk result (λ e. length e.1.now ≤ length ts.now) }
{
    let (test, rest) = chain(alloc, levels, Row::Or, ts)?;
    match line_and_rest(Mark::Question, rest) {
        None => Ok((test, rest)),
        Some((line, rest)) => chosen(alloc, levels, test, line, rest),
    }
}

// A choice after its question mark.
#[cycle(expressions)]
fn chosen<'a>(
    alloc: Global,
    levels: u32,
    test: Box<Expr>,
    line: u32,
    ts: &'a [Token],
) -> Result<(Box<Expr>, &'a [Token]), Stop<'a>>
    ensures gives { Gives boxed_expr result (choice_then (expr_at levels) (boxed_expr test) ts.now (Some (line, ts.now))) }
    ensures within { IfOk result (λ e. length e.1.now ≤ length ts.now) }
{
    let (first, rest) = expr(alloc, levels, ts)?;
    let (first, rest) = closed(first, Mark::Colon, rest)?;
    let (second, rest) = expr(alloc, levels, rest)?;
    make_choice(alloc, test, first, second, line, rest)
}

// A chain of that row.
#[cycle(expressions)]
fn chain<'a>(
    alloc: Global,
    levels: u32,
    row: Row,
    ts: &'a [Token],
) -> Result<(Box<Expr>, &'a [Token]), Stop<'a>>
    ensures gives { Gives boxed_expr result (chain row (operand_with row (unary_at levels)) ts.now) }
    ensures within { IfOk result (λ e. length e.1.now ≤ length ts.now) }
{
    let (first, rest) = operand(alloc, levels, row, ts)?;
    let (links, rest) = links(alloc, levels, row, rest)?;
    make_chain(alloc, row, first, links, rest)
}

// Operators of that row with their operands.
#[cycle(expressions)]
fn links<'a>(
    alloc: Global,
    levels: u32,
    row: Row,
    ts: &'a [Token],
) -> Result<(Vec<Link>, &'a [Token]), Stop<'a>>
    ensures gives { GivesItems link_of result (links_in row (operand_with row (unary_at levels)) ts.now) }
    ensures within { IfOk result (λ e. length e.1.now ≤ length ts.now) }
{
    let mut links = Vec::new(alloc);
    let mut rest = ts;
    while let Some((operator, line, after)) = link_at(row, links.len(), rest) {
        let (operand, left) = operand(alloc, levels, row, after)?;
        push(&mut links, make_link(operator, line, operand))?;
        rest = left;
    }
    Ok((links, rest))
}

// What stands between the operators of that row.
#[cycle(expressions)]
fn operand<'a>(
    alloc: Global,
    levels: u32,
    row: Row,
    ts: &'a [Token],
) -> Result<(Box<Expr>, &'a [Token]), Stop<'a>>
    ensures gives { Gives boxed_expr result (operand_with row (unary_at levels) ts.now) }
    ensures within { IfOk result (λ e. length e.1.now ≤ length ts.now) }
{
    match tighter(row) {
        Some(row) => chain(alloc, levels, row, ts),
        None => unary(alloc, levels, ts),
    }
}

// Prefix operators and what stands after them.
#[cycle(expressions)]
fn unary<'a>(
    alloc: Global,
    levels: u32,
    ts: &'a [Token],
) -> Result<(Box<Expr>, &'a [Token]), Stop<'a>>
    ensures gives { Gives boxed_expr result (unary_at levels ts.now) }
    ensures within { IfOk result (λ e. length e.1.now ≤ length ts.now) }
{
    let Some((operator, line, rest)) = prefix_at(ts) else {
        return prim(alloc, levels, ts);
    };
    if levels == 0 {
        return Err(Stop::At(SlCode::P3, ts));
    }
    let (operand, rest) = unary(alloc, levels - 1, rest)?;
    make_prefixed(alloc, operator, operand, line, rest)
}

// What stands between operators and after prefix operators.
#[cycle(expressions)]
fn prim<'a>(
    alloc: Global,
    levels: u32,
    ts: &'a [Token],
) -> Result<(Box<Expr>, &'a [Token]), Stop<'a>>
    ensures gives { Gives boxed_expr result (prim_at levels ts.now) }
    ensures within { IfOk result (λ e. length e.1.now ≤ length ts.now) }
{
    let Some((first, rest)) = ts.split_first() else {
        return Err(Stop::At(SlCode::P2, ts));
    };
    let line = first.line;
    match &first.kind {
        TokenKind::Number(text) => make_number(alloc, text, line, rest),
        TokenKind::Str(text) => make_string(alloc, text, line, rest),
        TokenKind::Name(name) => named(alloc, levels, name, line, rest),
        TokenKind::Mark(Mark::LeftParen) => paren(alloc, levels, line, rest),
        TokenKind::Type(_) if levels == 0 => Err(Stop::At(SlCode::P3, ts)),
        TokenKind::Type(kind) => typed(alloc, levels - 1, *kind, line, rest),
        _ => Err(Stop::At(code_at(ts), ts)),
    }
}

// A name, or a call.
#[cycle(expressions)]
fn named<'a>(
    alloc: Global,
    levels: u32,
    name: &Text,
    line: u32,
    ts: &'a [Token],
) -> Result<(Box<Expr>, &'a [Token]), Stop<'a>>
    ensures gives { Gives boxed_expr result (name_with (expr_at levels) name.now line ts.now) }
    ensures within { IfOk result (λ e. length e.1.now ≤ length ts.now) }
{
    let Some(inside) = rest_after(Mark::LeftParen, ts) else {
        return make_name(alloc, name, line, ts);
    };
    let (args, rest) = arguments(alloc, levels, inside)?;
    make_call(alloc, name, args, line, rest)
}

// Arguments and the parenthesis after them.
#[cycle(expressions)]
fn arguments<'a>(
    alloc: Global,
    levels: u32,
    ts: &'a [Token],
) -> Result<(Vec<Expr>, &'a [Token]), Stop<'a>>
    ensures gives { GivesItems expr_of result (args_in (expr_at levels) ts.now) }
    ensures within { IfOk result (λ e. length e.1.now ≤ length ts.now) }
{
    if let Some(rest) = rest_after(Mark::RightParen, ts) {
        return Ok((Vec::new(alloc), rest));
    }
    let (first, rest) = expr(alloc, levels, ts)?;
    let (args, rest) = further(alloc, levels, first, rest)?;
    closed(args, Mark::RightParen, rest)
}

// Further arguments after the first.
#[cycle(expressions)]
fn further<'a>(
    alloc: Global,
    levels: u32,
    first: Box<Expr>,
    ts: &'a [Token],
) -> Result<(Vec<Expr>, &'a [Token]), Stop<'a>>
    ensures gives { GivesItems expr_of result (with_front (boxed_expr first ∷ []) (many (after_comma (expr_at levels)) (length ts.now) ts.now)) }
    ensures within { IfOk result (λ e. length e.1.now ≤ length ts.now) }
{
    let mut args = Vec::new(alloc);
    push_boxed(&mut args, first)?;
    let mut rest = ts;
    while let Some(after) = rest_after(Mark::Comma, rest) {
        let (arg, left) = expr(alloc, levels, after)?;
        push_boxed(&mut args, arg)?;
        rest = left;
    }
    Ok((args, rest))
}

// An expression after its opening parenthesis.
#[cycle(expressions)]
fn paren<'a>(
    alloc: Global,
    levels: u32,
    line: u32,
    ts: &'a [Token],
) -> Result<(Box<Expr>, &'a [Token]), Stop<'a>>
    ensures gives { Gives boxed_expr result (paren_with (expr_at levels) line ts.now) }
    ensures within { IfOk result (λ e. length e.1.now ≤ length ts.now) }
{
    let (inner, rest) = expr(alloc, levels, ts)?;
    let (inner, rest) = closed(inner, Mark::RightParen, rest)?;
    make_paren(alloc, inner, line, rest)
}

// What stands after a type.
#[cycle(expressions)]
fn typed<'a>(
    alloc: Global,
    levels: u32,
    kind: SlType,
    line: u32,
    ts: &'a [Token],
) -> Result<(Box<Expr>, &'a [Token]), Stop<'a>>
    ensures gives { Gives boxed_expr result (typed_with (expr_at levels) (prim_at levels) kind line ts.now) }
    ensures within { IfOk result (λ e. length e.1.now ≤ length ts.now) }
{
    let (space, rest) = space_at(ts);
    if let Some((inner, rest)) = line_and_rest(Mark::LeftParen, rest) {
        return inside(alloc, levels, kind, space, line, inner, rest);
    }
    let (value, rest) = prim(alloc, levels, rest)?;
    make_typed(alloc, kind, space, value, line, rest)
}

// One value or three after a type and an opening parenthesis.
#[cycle(expressions)]
fn inside<'a>(
    alloc: Global,
    levels: u32,
    kind: SlType,
    space: Option<(&Text, u32)>,
    line: u32,
    inner: u32,
    ts: &'a [Token],
) -> Result<(Box<Expr>, &'a [Token]), Stop<'a>>
    ensures gives { Gives boxed_expr result (inside_with (expr_at levels) kind (space_from space.entry) line inner ts.now) }
    ensures within { IfOk result (λ e. length e.1.now ≤ length ts.now) }
{
    let (x, rest) = expr(alloc, levels, ts)?;
    match rest_after(Mark::Comma, rest) {
        Some(rest) => triple(alloc, levels, kind, space, x, line, rest),
        None => typed_paren(alloc, kind, space, x, inner, line, rest),
    }
}

// The closing parenthesis after one value after a type.
fn typed_paren<'a>(
    alloc: Global,
    kind: SlType,
    space: Option<(&Text, u32)>,
    value: Box<Expr>,
    inner: u32,
    line: u32,
    ts: &'a [Token],
) -> Result<(Box<Expr>, &'a [Token]), Stop<'a>>
    ensures gives { Gives boxed_expr result (paren_typed kind (space_from space.entry) line inner (boxed_expr value) ts.now) }
    ensures within { IfOk result (λ e. length e.1.now ≤ length ts.now) }
{
    let (value, rest) = closed(value, Mark::RightParen, ts)?;
    let (paren, rest) = make_paren(alloc, value, inner, rest)?;
    make_typed(alloc, kind, space, paren, line, rest)
}

// The second and third of three values.
#[cycle(expressions)]
fn triple<'a>(
    alloc: Global,
    levels: u32,
    kind: SlType,
    space: Option<(&Text, u32)>,
    x: Box<Expr>,
    line: u32,
    ts: &'a [Token],
) -> Result<(Box<Expr>, &'a [Token]), Stop<'a>>
    ensures gives { Gives boxed_expr result (triple_with (expr_at levels) kind (space_from space.entry) line (boxed_expr x) ts.now) }
    ensures within { IfOk result (λ e. length e.1.now ≤ length ts.now) }
{
    let (y, rest) = expr(alloc, levels, ts)?;
    let (y, rest) = closed(y, Mark::Comma, rest)?;
    let (z, rest) = expr(alloc, levels, rest)?;
    let (z, rest) = closed(z, Mark::RightParen, rest)?;
    make_triple(alloc, kind, space, x, y, z, line, rest)
}
