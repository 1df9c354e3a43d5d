// What stands after the first assignment in the parentheses of a `for`.
ghost use Rattle.std.specs.Prelude.{◌<◌, IfOk, length, option_map};
ghost use Rattle.sl_expression_grammar.specs.Expressions.{expr_at};
ghost use Rattle.sl_expression_grammar.specs.Parsing.{Gives};
ghost use Rattle.sl_expression_grammar.specs.Boxes.{boxed_expr};
ghost use Rattle.sl_parser.specs.Statements.{steps_with, step_with};
ghost use Rattle.sl_parser.specs.Boxes.{boxed_assignment, for_of};

use crate::declarations::maybe_assignment;
use crate::statement_heads::ForHead;
use sl_ast::{Assignment, Expr};
use sl_expression_grammar::{Stop, boxed, closed, expr};
use sl_lexer::{Mark, Token};
use std::alloc::Global;

// The test and a semicolon, and the rest of the head.
pub fn for_test<'a>(
    alloc: Global,
    levels: u32,
    first: Option<Box<Assignment>>,
    ts: &'a [Token],
) -> Result<(Box<ForHead>, &'a [Token]), Stop<'a>>
    ensures gives { Gives for_of result (steps_with (expr_at levels) (option_map boxed_assignment first) ts.now) }
    ensures within { IfOk result (λ h. length h.1.now < length ts.now) }
{
    let (test, rest) = expr(alloc, levels, ts)?;
    let (test, rest) = closed(test, Mark::Semicolon, rest)?;
    for_step(alloc, levels, first, test, rest)
}

// The last assignment and a closing parenthesis, and a whole head with what was read before.
fn for_step<'a>(
    alloc: Global,
    levels: u32,
    first: Option<Box<Assignment>>,
    test: Box<Expr>,
    ts: &'a [Token],
) -> Result<(Box<ForHead>, &'a [Token]), Stop<'a>>
    ensures gives { Gives for_of result (step_with (expr_at levels) (option_map boxed_assignment first) (boxed_expr test) ts.now) }
    ensures within { IfOk result (λ h. length h.1.now < length ts.now) }
{
    let (step, rest) = maybe_assignment(alloc, levels, ts)?;
    let (step, rest) = closed(step, Mark::RightParen, rest)?;
    boxed(alloc, ForHead { first, test, step }, rest)
}
