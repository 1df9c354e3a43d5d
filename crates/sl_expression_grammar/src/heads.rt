// What single tokens and their texts say.
ghost use Rattle.std.specs.Prelude.{◌≡◌, ◌<◌, ◌≤◌, IfSome, List, length, option_map};
ghost use Rattle.sl_ast.specs.Syntax as S;
ghost use Rattle.sl_lexer.specs.declared.token.Token.{Token};
ghost use Rattle.sl_expression_grammar.specs.Reading.{Reads, head_is};
ghost use Rattle.sl_expression_grammar.specs.Expressions.{begins_expr, begins_prim, is_single, same_row, row_of, operator_at, link_at, prefix_at, IsSpaceAt};
ghost use Rattle.sl_expression_grammar.specs.Rows.{operand_with, operand_by, rows_from};
ghost use Rattle.sl_expression_grammar.specs.Boxes.{space_from};

use fixed_math::Text;
use sl_ast::{Operator, Prefix, Row};
use sl_lexer::{Mark, Token, TokenKind};

pub fn begins_expr(ts: &[Token]) -> bool
    ensures { result ≡ head_is begins_expr ts.now }
{
    match ts {
        [first, ..] => matches!(
            &first.kind,
            TokenKind::Number(_)
                | TokenKind::Str(_)
                | TokenKind::Name(_)
                | TokenKind::Type(_)
                | TokenKind::Mark(Mark::LeftParen)
                | TokenKind::Operator(Operator::Subtract)
                | TokenKind::Not
        ),
        [] => false,
    }
}

fn begins_prim(ts: &[Token]) -> bool
    ensures { result ≡ head_is begins_prim ts.now }
{
    match ts {
        [first, ..] => matches!(
            &first.kind,
            TokenKind::Number(_)
                | TokenKind::Str(_)
                | TokenKind::Name(_)
                | TokenKind::Type(_)
                | TokenKind::Mark(Mark::LeftParen)
        ),
        [] => false,
    }
}

fn row_of(operator: Operator) -> Row
    ensures { result ≡ row_of operator }
{
    match operator {
        Operator::Or => Row::Or,
        Operator::And => Row::And,
        Operator::Equal | Operator::NotEqual => Row::Equality,
        Operator::Less | Operator::LessEqual | Operator::Greater | Operator::GreaterEqual => {
            Row::Relation
        }
        Operator::Add | Operator::Subtract => Row::Sum,
        Operator::Cross => Row::Cross,
        Operator::Multiply | Operator::Divide => Row::Product,
        Operator::Dot => Row::Dot,
    }
}

// At most one operator stands in a chain of that row.
fn is_single(row: Row) -> bool
    ensures { result ≡ is_single row }
{
    matches!(row, Row::Equality | Row::Relation)
}

fn same_row(a: Row, b: Row) -> bool
    ensures { result ≡ same_row a b }
{
    a == b
}

// The next tighter row: its chains stand between the operators of that row.
pub fn tighter(row: Row) -> Option<Row>
    ensures reads { (unary : List Token → Reads S.Expr) → operand_with row unary ≡ operand_by result unary }
    ensures fewer { IfSome result (λ next. rows_from next < rows_from row) }
    ensures some { 1 ≤ rows_from row }
{
    match row {
        Row::Or => Some(Row::And),
        Row::And => Some(Row::Equality),
        Row::Equality => Some(Row::Relation),
        Row::Relation => Some(Row::Sum),
        Row::Sum => Some(Row::Cross),
        Row::Cross => Some(Row::Product),
        Row::Product => Some(Row::Dot),
        Row::Dot => None,
    }
}

// An operator of that row at the front with its line, and the tokens after it.
fn operator_at(row: Row, ts: &[Token]) -> Option<(Operator, u32, &[Token])>
    ensures at { option_map (λ o. (o.0, o.1, o.2.now)) result ≡ operator_at row ts.now }
    ensures within { IfSome result (λ o. length o.2.now < length ts.now) }
{
    match ts {
        [first, rest @ ..] => match &first.kind {
            TokenKind::Operator(operator) if same_row(row, row_of(*operator)) => {
                Some((*operator, first.line, rest))
            }
            _ => None,
        },
        [] => None,
    }
}

// The same after so many operators of the chain.
pub fn link_at(row: Row, count: usize, ts: &[Token]) -> Option<(Operator, u32, &[Token])>
    ensures at { option_map (λ o. (o.0, o.1, o.2.now)) result ≡ link_at row count ts.now }
    ensures within { IfSome result (λ o. length o.2.now < length ts.now) }
{
    if is_single(row) && count > 0 {
        return None;
    }
    operator_at(row, ts)
}

// A prefix operator at the front with its line, and the tokens after it.
pub fn prefix_at(ts: &[Token]) -> Option<(Prefix, u32, &[Token])>
    ensures at { option_map (λ o. (o.0, o.1, o.2.now)) result ≡ prefix_at ts.now }
    ensures within { IfSome result (λ o. length o.2.now < length ts.now) }
{
    match ts {
        [first, rest @ ..] => match &first.kind {
            TokenKind::Operator(Operator::Subtract) => Some((Prefix::Negative, first.line, rest)),
            TokenKind::Not => Some((Prefix::Not, first.line, rest)),
            _ => None,
        },
        [] => None,
    }
}

// The space name after a type with its line, if a value stands after it, and the tokens after it.
pub fn space_at(ts: &[Token]) -> (Option<(&Text, u32)>, &[Token])
    ensures at { IsSpaceAt (space_from result.0) result.1.now ts.now }
    ensures within { length result.1.now ≤ length ts.now }
{
    match ts {
        [first, rest @ ..] => match &first.kind {
            TokenKind::Str(name) if begins_prim(rest) => (Some((name, first.line)), rest),
            _ => (None, ts),
        },
        [] => (None, ts),
    }
}
