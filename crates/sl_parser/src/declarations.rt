// Names, types and what declares them.
ghost use Rattle.std.specs.Prelude.{◌≡◌, ◌≤◌, ◌<◌, [], ◌∷◌, IfOk, IfSome, length, option_map};
ghost use Rattle.sl_ast.specs.SyntaxView.{declared_of, group_of};
ghost use Rattle.sl_expression_grammar.specs.Reading.{head_is, rest_after, with_front, many, after_comma};
ghost use Rattle.sl_expression_grammar.specs.Expressions.{expr_at};
ghost use Rattle.sl_expression_grammar.specs.Parsing.{Gives, GivesItems};
ghost use Rattle.sl_expression_grammar.specs.Boxes.{boxed_expr};
ghost use Rattle.sl_parser.specs.Statements.{front_line, set_at, set_with, type_at, class_at, is_equals, is_name, set_maybe, value_with, declared_with, group_with, IsClassAt};
ghost use Rattle.sl_parser.specs.Naming.{MatchName};
ghost use Rattle.sl_parser.specs.Boxes.{boxed_assignment};

use crate::nodes::{make_assignment, make_declared};
use fixed_math::{List, Text};
use sl_ast::{Assignment, Class, Declared, Expr, Group, SetOperator, SlType};
use sl_expression_grammar::{Stop, code_at, expr, push, rest_after};
use sl_lexer::{Mark, Token, TokenKind};
use std::alloc::Global;

/// Whether a declared name has a value: a parameter's must be there, a formal has none, a local's may be there.
#[derive(Clone, Copy)]
pub enum Valued {
    Always,
    Never,
    Freely,
}

// The name that has to stand at the front with its line, and the tokens after it.
pub fn name(ts: &[Token]) -> Result<(&Text, u32, &[Token]), Stop<'_>>
    ensures gives { MatchName ts.now result }
    ensures within { IfOk result (λ n. length n.2.now < length ts.now) }
{
    let Some((first, rest)) = ts.split_first() else {
        return Err(Stop::At(code_at(ts), ts));
    };
    match &first.kind {
        TokenKind::Name(name) => Ok((name, first.line, rest)),
        _ => Err(Stop::At(code_at(ts), ts)),
    }
}

// The line of the token at the front, and 0 where none stands there.
fn front_line(ts: &[Token]) -> u32
    ensures { result ≡ front_line ts.now }
{
    match ts {
        [first, ..] => first.line,
        [] => 0,
    }
}

// An operator that sets a variable, and the tokens after it.
fn set_at(ts: &[Token]) -> Option<(SetOperator, &[Token])>
    ensures at { option_map (λ o. (o.0, o.1.now)) result ≡ set_at ts.now }
    ensures within { IfSome result (λ o. length o.1.now < length ts.now) }
{
    match ts {
        [first, rest @ ..] => match &first.kind {
            TokenKind::Set(operator) => Some((*operator, rest)),
            _ => None,
        },
        [] => None,
    }
}

// A type at the front, and the tokens after it.
pub fn type_at(ts: &[Token]) -> Option<(SlType, &[Token])>
    ensures at { option_map (λ o. (o.0, o.1.now)) result ≡ type_at ts.now }
    ensures within { IfSome result (λ o. length o.1.now < length ts.now) }
{
    match ts {
        [first, rest @ ..] => match &first.kind {
            TokenKind::Type(kind) => Some((*kind, rest)),
            _ => None,
        },
        [] => None,
    }
}

// A class at the front, if there is one, and the tokens after it.
fn class_at(ts: &[Token]) -> (Option<Class>, &[Token])
    ensures at { IsClassAt result.0 result.1.now ts.now }
    ensures within { length result.1.now ≤ length ts.now }
{
    match ts {
        [first, rest @ ..] => match &first.kind {
            TokenKind::Class(class) => (Some(*class), rest),
            _ => (None, ts),
        },
        [] => (None, ts),
    }
}

// The tokens after the equals sign of a declaration.
fn after_equals(ts: &[Token]) -> Option<&[Token]>
    ensures at { option_map (λ o. o.now) result ≡ rest_after is_equals ts.now }
    ensures within { IfSome result (λ o. length o.now < length ts.now) }
{
    match ts {
        [first, rest @ ..] => match &first.kind {
            TokenKind::Set(SetOperator::Set) => Some(rest),
            _ => None,
        },
        [] => None,
    }
}

pub fn begins_name(ts: &[Token]) -> bool
    ensures { result ≡ head_is is_name ts.now }
{
    match ts {
        [first, ..] => matches!(&first.kind, TokenKind::Name(_)),
        [] => false,
    }
}

// An assignment, where so many levels are left.
pub fn assignment<'a>(
    alloc: Global,
    levels: u32,
    ts: &'a [Token],
) -> Result<(Box<Assignment>, &'a [Token]), Stop<'a>>
    ensures gives { Gives boxed_assignment result (set_with (expr_at levels) ts.now) }
    ensures within { IfOk result (λ a. length a.1.now < length ts.now) }
{
    let (name, line, after) = name(ts)?;
    let Some((operator, rest)) = set_at(after) else {
        return Err(Stop::At(code_at(after), after));
    };
    let (value, rest) = expr(alloc, levels, rest)?;
    make_assignment(alloc, name, operator, value, line, front_line(after), rest)
}

// An assignment, if a name stands at the front.
pub fn maybe_assignment<'a>(
    alloc: Global,
    levels: u32,
    ts: &'a [Token],
) -> Result<(Option<Box<Assignment>>, &'a [Token]), Stop<'a>>
    ensures gives { Gives (option_map boxed_assignment) result (set_maybe (expr_at levels) ts.now) }
    ensures within { IfOk result (λ a. length a.1.now ≤ length ts.now) }
{
    if begins_name(ts) {
        let (set, rest) = assignment(alloc, levels, ts)?;
        Ok((Some(set), rest))
    } else {
        Ok((None, ts))
    }
}

// The value of a declared name.
fn value<'a>(
    alloc: Global,
    levels: u32,
    valued: Valued,
    ts: &'a [Token],
) -> Result<(Option<Box<Expr>>, &'a [Token]), Stop<'a>>
    ensures gives { Gives (option_map boxed_expr) result (value_with (expr_at levels) valued ts.now) }
    ensures within { IfOk result (λ v. length v.1.now ≤ length ts.now) }
{
    match (valued, after_equals(ts)) {
        (Valued::Never, _) => Ok((None, ts)),
        (_, Some(rest)) => {
            let (value, rest) = expr(alloc, levels, rest)?;
            Ok((Some(value), rest))
        }
        (Valued::Freely, None) => Ok((None, ts)),
        (Valued::Always, None) => Err(Stop::At(code_at(ts), ts)),
    }
}

// A name that is declared, with its value.
fn declared<'a>(
    alloc: Global,
    levels: u32,
    valued: Valued,
    ts: &'a [Token],
) -> Result<(Declared, &'a [Token]), Stop<'a>>
    ensures gives { Gives declared_of result (declared_with (expr_at levels) valued ts.now) }
    ensures within { IfOk result (λ d. length d.1.now < length ts.now) }
{
    let (name, line, rest) = name(ts)?;
    let set_line = front_line(rest);
    let (value, rest) = value(alloc, levels, valued, rest)?;
    make_declared(alloc, name, value, line, set_line, rest)
}

// Further names after the first.
fn further<'a>(
    alloc: Global,
    levels: u32,
    valued: Valued,
    first: Declared,
    ts: &'a [Token],
) -> Result<(Vec<Declared>, &'a [Token]), Stop<'a>>
    ensures gives { GivesItems declared_of result (with_front (declared_of first ∷ []) (many (after_comma (declared_with (expr_at levels) valued)) (length ts.now) ts.now)) }
    ensures within { IfOk result (λ d. length d.1.now ≤ length ts.now) }
{
    let mut names = Vec::new(alloc);
    push(&mut names, first)?;
    let mut rest = ts;
    while let Some(after) = rest_after(Mark::Comma, rest) {
        let (name, left) = declared(alloc, levels, valued, after)?;
        push(&mut names, name)?;
        rest = left;
    }
    Ok((names, rest))
}

// A class or none, a type and names.
pub fn group<'a>(
    alloc: Global,
    levels: u32,
    valued: Valued,
    ts: &'a [Token],
) -> Result<(Group, &'a [Token]), Stop<'a>>
    ensures gives { Gives group_of result (group_with (expr_at levels) valued ts.now) }
    ensures within { IfOk result (λ g. length g.1.now < length ts.now) }
{
    let (class, rest) = class_at(ts);
    let Some((kind, rest)) = type_at(rest) else {
        return Err(Stop::At(code_at(rest), rest));
    };
    let (first, rest) = declared(alloc, levels, valued, rest)?;
    let (names, rest) = further(alloc, levels, valued, first, rest)?;
    Ok((
        Group {
            class,
            kind,
            names: List(names),
        },
        rest,
    ))
}
