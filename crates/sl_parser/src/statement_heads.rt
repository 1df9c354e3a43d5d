// What stands in the parentheses of statements, in boxes, since it is held while a statement is read after it.
ghost use Rattle.std.specs.Prelude.{◌<◌, IfOk, length, option_map};
ghost use Rattle.sl_expression_grammar.specs.Expressions.{expr_at};
ghost use Rattle.sl_expression_grammar.specs.Parsing.{Gives};
ghost use Rattle.sl_expression_grammar.specs.Boxes.{boxed_expr};
ghost use Rattle.sl_parser.specs.Statements.{test_with, for_head, pair_with, cone_in, lights_head, solar_head};
ghost use Rattle.sl_parser.specs.Boxes.{boxed_cone, for_of, lights_of};

use crate::declarations::maybe_assignment;
use crate::for_steps::for_test;
use crate::nodes::make_cone;
use sl_ast::{Assignment, Cone, Expr};
use sl_expression_grammar::{Stop, boxed, closed, expr, past, rest_after};
use sl_lexer::{Mark, Token};
use std::alloc::Global;

// An expression in parentheses.
pub fn test<'a>(
    alloc: Global,
    levels: u32,
    ts: &'a [Token],
) -> Result<(Box<Expr>, &'a [Token]), Stop<'a>>
    ensures gives { Gives boxed_expr result (test_with (expr_at levels) ts.now) }
    ensures within { IfOk result (λ e. length e.1.now < length ts.now) }
{
    let inside = past(Mark::LeftParen, ts)?;
    let (test, rest) = expr(alloc, levels, inside)?;
    closed(test, Mark::RightParen, rest)
}

/// What stands in the parentheses of a `for`.
#[derive(Drop)]
pub struct ForHead {
    pub first: Option<Box<Assignment>>,
    pub test: Box<Expr>,
    pub step: Option<Box<Assignment>>,
}

pub fn for_head<'a>(
    alloc: Global,
    levels: u32,
    ts: &'a [Token],
) -> Result<(Box<ForHead>, &'a [Token]), Stop<'a>>
    ensures gives { Gives for_of result (for_head (expr_at levels) ts.now) }
    ensures within { IfOk result (λ h. length h.1.now < length ts.now) }
{
    let inside = past(Mark::LeftParen, ts)?;
    let (first, rest) = maybe_assignment(alloc, levels, inside)?;
    let (first, rest) = closed(first, Mark::Semicolon, rest)?;
    for_test(alloc, levels, first, rest)
}

// Two expressions with a comma between them, and a parenthesis.
fn pair<'a>(
    alloc: Global,
    levels: u32,
    ts: &'a [Token],
) -> Result<(Box<Cone>, &'a [Token]), Stop<'a>>
    ensures gives { Gives boxed_cone result (pair_with (expr_at levels) ts.now) }
    ensures within { IfOk result (λ c. length c.1.now < length ts.now) }
{
    let (axis, rest) = expr(alloc, levels, ts)?;
    let (axis, rest) = closed(axis, Mark::Comma, rest)?;
    let (angle, rest) = expr(alloc, levels, rest)?;
    let (angle, rest) = closed(angle, Mark::RightParen, rest)?;
    make_cone(alloc, axis, angle, rest)
}

// An axis and an angle after a comma, or none, and the parenthesis after them.
fn cone<'a>(
    alloc: Global,
    levels: u32,
    ts: &'a [Token],
) -> Result<(Option<Box<Cone>>, &'a [Token]), Stop<'a>>
    ensures gives { Gives (option_map boxed_cone) result (cone_in (expr_at levels) ts.now) }
    ensures within { IfOk result (λ c. length c.1.now < length ts.now) }
{
    let Some(inside) = rest_after(Mark::Comma, ts) else {
        let rest = past(Mark::RightParen, ts)?;
        return Ok((None, rest));
    };
    let (cone, rest) = pair(alloc, levels, inside)?;
    Ok((Some(cone), rest))
}

/// What stands in the parentheses of `illuminance` and `illuminate`.
#[derive(Drop)]
pub struct LightsHead {
    pub place: Box<Expr>,
    pub cone: Option<Box<Cone>>,
}

pub fn lights_head<'a>(
    alloc: Global,
    levels: u32,
    ts: &'a [Token],
) -> Result<(Box<LightsHead>, &'a [Token]), Stop<'a>>
    ensures gives { Gives lights_of result (lights_head (expr_at levels) ts.now) }
    ensures within { IfOk result (λ h. length h.1.now < length ts.now) }
{
    let inside = past(Mark::LeftParen, ts)?;
    let (place, rest) = expr(alloc, levels, inside)?;
    let (cone, rest) = cone(alloc, levels, rest)?;
    boxed(alloc, LightsHead { place, cone }, rest)
}

pub fn solar_head<'a>(
    alloc: Global,
    levels: u32,
    ts: &'a [Token],
) -> Result<(Box<Cone>, &'a [Token]), Stop<'a>>
    ensures gives { Gives boxed_cone result (solar_head (expr_at levels) ts.now) }
    ensures within { IfOk result (λ c. length c.1.now < length ts.now) }
{
    let inside = past(Mark::LeftParen, ts)?;
    pair(alloc, levels, inside)
}
