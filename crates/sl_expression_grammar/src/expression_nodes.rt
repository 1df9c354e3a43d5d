// Nodes of expressions from their parts, in boxes, since more is read while they are held.
ghost use Rattle.std.specs.Prelude.{◌≡◌, Ok, IfOk, length, map};
ghost use Rattle.sl_ast.specs.Syntax as S;
ghost use Rattle.sl_ast.specs.SyntaxView.{expr_of, link_of};
ghost use Rattle.sl_expression_grammar.specs.Boxes.{boxed_expr, space_from};
ghost use Rattle.sl_expression_grammar.specs.Expressions.{chain_of, linked};
ghost use Rattle.sl_expression_grammar.specs.Parsing.{Gives};

use crate::boxes::boxed;
use crate::reading::Stop;
use fixed_math::{List, NoMemory, Text};
use sl_ast::{Expr, Link, Operator, Prefix, Row, SlType, Space};
use sl_lexer::Token;
use std::alloc::Global;

pub fn make_number<'a>(
    alloc: Global,
    text: &Text,
    line: u32,
    rest: &'a [Token],
) -> Result<(Box<Expr>, &'a [Token]), Stop<'a>>
    ensures gives { Gives boxed_expr result (Ok (S.number text.now line, rest.now)) }
    ensures within { IfOk result (λ n. length n.1.now ≡ length rest.now) }
{
    let text = text.copied(alloc)?;
    boxed(alloc, Expr::Number { text, line }, rest)
}

pub fn make_string<'a>(
    alloc: Global,
    text: &Text,
    line: u32,
    rest: &'a [Token],
) -> Result<(Box<Expr>, &'a [Token]), Stop<'a>>
    ensures gives { Gives boxed_expr result (Ok (S.string text.now line, rest.now)) }
    ensures within { IfOk result (λ n. length n.1.now ≡ length rest.now) }
{
    let text = text.copied(alloc)?;
    boxed(alloc, Expr::Str { text, line }, rest)
}

pub fn make_name<'a>(
    alloc: Global,
    name: &Text,
    line: u32,
    rest: &'a [Token],
) -> Result<(Box<Expr>, &'a [Token]), Stop<'a>>
    ensures gives { Gives boxed_expr result (Ok (S.name name.now line, rest.now)) }
    ensures within { IfOk result (λ n. length n.1.now ≡ length rest.now) }
{
    let name = name.copied(alloc)?;
    boxed(alloc, Expr::Name { name, line }, rest)
}

#[tactic(auto, using(sl_ast::proofs::Rows::held_exprs))]
pub fn make_call<'a>(
    alloc: Global,
    name: &Text,
    args: Vec<Expr>,
    line: u32,
    rest: &'a [Token],
) -> Result<(Box<Expr>, &'a [Token]), Stop<'a>>
    ensures gives { Gives boxed_expr result (Ok (S.call name.now (S.exprs (map expr_of args.items)) line, rest.now)) }
    ensures within { IfOk result (λ n. length n.1.now ≡ length rest.now) }
{
    let name = name.copied(alloc)?;
    let call = Expr::Call {
        name,
        args: List(args),
        line,
    };
    boxed(alloc, call, rest)
}

pub fn make_paren<'a>(
    alloc: Global,
    inner: Box<Expr>,
    line: u32,
    rest: &'a [Token],
) -> Result<(Box<Expr>, &'a [Token]), Stop<'a>>
    ensures gives { Gives boxed_expr result (Ok (S.paren (boxed_expr inner) line, rest.now)) }
    ensures within { IfOk result (λ n. length n.1.now ≡ length rest.now) }
{
    boxed(alloc, Expr::Paren { inner, line }, rest)
}

pub fn make_prefixed<'a>(
    alloc: Global,
    operator: Prefix,
    operand: Box<Expr>,
    line: u32,
    rest: &'a [Token],
) -> Result<(Box<Expr>, &'a [Token]), Stop<'a>>
    ensures gives { Gives boxed_expr result (Ok (S.prefixed operator (boxed_expr operand) line, rest.now)) }
    ensures within { IfOk result (λ n. length n.1.now ≡ length rest.now) }
{
    let prefixed = Expr::Prefixed {
        operator,
        operand,
        line,
    };
    boxed(alloc, prefixed, rest)
}

pub fn make_link(operator: Operator, line: u32, operand: Box<Expr>) -> Link
    ensures { link_of result ≡ linked operator line (boxed_expr operand) }
{
    Link {
        operator,
        line,
        operand: Box::into_inner(operand),
    }
}

// A chain without operators is its operand.
#[tactic(auto, using(sl_ast::proofs::Rows::held_links, crate::proofs::Chains::chain_some, crate::proofs::Chains::chain_none))]
pub fn make_chain<'a>(
    alloc: Global,
    row: Row,
    first: Box<Expr>,
    links: Vec<Link>,
    rest: &'a [Token],
) -> Result<(Box<Expr>, &'a [Token]), Stop<'a>>
    ensures gives { Gives boxed_expr result (Ok (chain_of row (boxed_expr first) (map link_of links.items), rest.now)) }
    ensures within { IfOk result (λ n. length n.1.now ≡ length rest.now) }
{
    if links.is_empty() {
        return Ok((first, rest));
    }
    let chain = Expr::Chain {
        row,
        first,
        links: List(links),
    };
    boxed(alloc, chain, rest)
}

pub fn make_choice<'a>(
    alloc: Global,
    test: Box<Expr>,
    first: Box<Expr>,
    second: Box<Expr>,
    line: u32,
    rest: &'a [Token],
) -> Result<(Box<Expr>, &'a [Token]), Stop<'a>>
    ensures gives { Gives boxed_expr result (Ok (S.choice (boxed_expr test) (boxed_expr first) (boxed_expr second) line, rest.now)) }
    ensures within { IfOk result (λ n. length n.1.now ≡ length rest.now) }
{
    let choice = Expr::Choice {
        test,
        first,
        second,
        line,
    };
    boxed(alloc, choice, rest)
}

// The space whose name stands after a type, or none.
fn copied_space(alloc: Global, space: Option<(&Text, u32)>) -> Result<Option<Space>, NoMemory>
    ensures { IfOk result (λ s. s ≡ space_from space.entry) }
{
    match space {
        Some((name, line)) => Ok(Some(Space {
            name: name.copied(alloc)?,
            line,
        })),
        None => Ok(None),
    }
}

pub fn make_typed<'a>(
    alloc: Global,
    kind: SlType,
    space: Option<(&Text, u32)>,
    value: Box<Expr>,
    line: u32,
    rest: &'a [Token],
) -> Result<(Box<Expr>, &'a [Token]), Stop<'a>>
    ensures gives { Gives boxed_expr result (Ok (S.typed kind (space_from space.entry) (boxed_expr value) line, rest.now)) }
    ensures within { IfOk result (λ n. length n.1.now ≡ length rest.now) }
{
    let space = copied_space(alloc, space)?;
    let typed = Expr::Typed {
        kind,
        space,
        value,
        line,
    };
    boxed(alloc, typed, rest)
}

pub fn make_triple<'a>(
    alloc: Global,
    kind: SlType,
    space: Option<(&Text, u32)>,
    x: Box<Expr>,
    y: Box<Expr>,
    z: Box<Expr>,
    line: u32,
    rest: &'a [Token],
) -> Result<(Box<Expr>, &'a [Token]), Stop<'a>>
    ensures gives { Gives boxed_expr result (Ok (S.triple kind (space_from space.entry) (boxed_expr x) (boxed_expr y) (boxed_expr z) line, rest.now)) }
    ensures within { IfOk result (λ n. length n.1.now ≡ length rest.now) }
{
    let space = copied_space(alloc, space)?;
    let triple = Expr::Triple {
        kind,
        space,
        x,
        y,
        z,
        line,
    };
    boxed(alloc, triple, rest)
}
