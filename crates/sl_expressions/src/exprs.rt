// The typed trees of expressions.
ghost use Rattle.std.specs.Prelude.{◌≡◌, [], ◌∷◌, Ok, false, map, option_map};
ghost use Rattle.sl_ast.specs.Syntax as U;
ghost use Rattle.sl_ast.specs.SyntaxView.{expr_of, link_of};
ghost use Rattle.sl_expressions.specs.Exprs as spec;
ghost use Rattle.sl_expressions.specs.Typed as T;
ghost use Rattle.sl_expressions.specs.TypedView.{typed_of};
ghost use Rattle.sl_expressions.specs.Views.{Gives, GivesAll, IsArgs, args_after, spot_of, around_of, local_of, found_of, chain_of};

use crate::calls::call_of;
use crate::faults::{TypeCode, TypeFault, fault};
use crate::names::find;
use crate::operations::{add_link, chained, chosen, converted, kind_of, prefixed, three, tripled};
use crate::parts::{one, push};
use crate::places::{Args, Around, Local, Spot};
use crate::predefined::{is_own, is_read, predefined_names};
use crate::rules::operation_of;
use crate::scope::{Scope, place_of};
use crate::typed::{TypedExpr, TypedLink};
use fixed_math::{Decimal, Num, Text};
use sl_ast::{Expr, Link, NodeType, Predefined, Variable};
use std::alloc::Global;

// The value of a number; a text that is none has the value 0.
fn number_value(text: &Text) -> Num
    ensures { result ≡ spec.number_value text.now }
{
    match Decimal::read(text.as_str().as_bytes()) {
        Some((decimal, _)) => decimal.num(),
        None => Num::sat(0),
    }
}

fn number(text: &Text, line: u32) -> TypedExpr
    ensures { typed_of result ≡ T.number (spec.number_value text.now) line }
{
    TypedExpr::Number {
        value: number_value(text),
        line,
    }
}

fn word(alloc: Global, text: &Text, line: u32) -> Result<TypedExpr, TypeFault>
    ensures { Gives typed_of result (Ok (T.word text.now line)) }
{
    let text = text.copied(alloc)?;
    Ok(TypedExpr::Word { text, line })
}

fn predefined_at(g: &Spot, line: u32, name: Option<Predefined>) -> Result<TypedExpr, TypeFault>
    ensures { Gives typed_of result (spec.predefined_at (spot_of g.now) line name) }
{
    let Some(x) = name else {
        return fault(TypeCode::T1, line);
    };
    if is_read(g, x) {
        return Ok(TypedExpr::Variable {
            variable: Variable::Predefined(x),
            kind: x.kind().node_type(),
            line,
        });
    }
    if is_own(g, x) {
        fault(TypeCode::T6, line)
    } else {
        fault(TypeCode::T1, line)
    }
}

fn is_string(kind: NodeType) -> bool
    ensures { result ≡ spec.is_string kind }
{
    matches!(kind, NodeType::Str)
}

fn is_call_node(e: &Expr) -> bool
    ensures { result ≡ spec.is_call_node (expr_of e.now) }
{
    matches!(e, Expr::Call { .. })
}

// A name in an expression.
fn named(
    g: &Spot,
    name: &Text,
    line: u32,
    at: Option<(usize, Local<'_>)>,
) -> Result<TypedExpr, TypeFault>
    ensures { Gives typed_of result (spec.named (spot_of g.now) name.now line (option_map found_of at.entry)) }
{
    let Some((level, local)) = at else {
        return predefined_at(g, line, find(predefined_names(), name));
    };
    Ok(TypedExpr::Variable {
        variable: Variable::Level(place_of(level)?),
        kind: local.kind.node_type(),
        line,
    })
}

/// The typed tree of an expression; `after` says that it stands directly after a type. The parts of one that holds several are
/// all typed, and the node that they make gives the first of their faults.
#[cycle(exprs)]
pub fn expr(
    e: &Expr,
    alloc: Global,
    g: &Around<'_, '_>,
    after_type: bool,
    scope: &Scope<'_>,
) -> Result<TypedExpr, TypeFault>
    ensures { Gives typed_of result (spec.typed_expr (around_of g.now) after_type (map local_of scope.now) (expr_of e.now)) }
{
    match e {
        Expr::Number { text, line } => Ok(number(text, *line)),
        Expr::Str { text, line } => word(alloc, text, *line),
        Expr::Name { name, line } => named(&g.at, name, *line, scope.level(name)),
        Expr::Paren { inner, .. } => expr(inner, alloc, g, false, scope),
        Expr::Prefixed {
            operator,
            operand,
            line,
        } => {
            let operand = expr(operand, alloc, g, false, scope);
            prefixed(alloc, *operator, *line, operand)
        }
        Expr::Chain { first, links, .. } => {
            let first = expr(first, alloc, g, false, scope)?;
            let links = typed_links(links.as_slice(), alloc, g, scope, &first);
            chained(alloc, first, links)
        }
        Expr::Choice {
            test,
            first,
            second,
            line,
        } => {
            let test = expr(test, alloc, g, false, scope);
            let first = expr(first, alloc, g, false, scope);
            let second = expr(second, alloc, g, false, scope);
            chosen(*line, three(alloc, test, first, second))
        }
        Expr::Triple {
            kind,
            space,
            x,
            y,
            z,
            line,
        } => {
            let x = expr(x, alloc, g, false, scope);
            let y = expr(y, alloc, g, false, scope);
            let z = expr(z, alloc, g, false, scope);
            tripled(&g.at, *kind, space, *line, three(alloc, x, y, z))
        }
        Expr::Typed {
            kind,
            space,
            value,
            line,
        } => {
            let part = expr(value, alloc, g, true, scope);
            converted(alloc, &g.at, *kind, space, is_call_node(value), *line, part)
        }
        Expr::Call { name, args, line } => {
            let parts = typed_args(args.as_slice(), alloc, g, scope);
            call_of(g, after_type, scope, name, *line, args.as_slice(), parts)
        }
    }
}

// The arguments of a call.
#[cycle(exprs)]
fn typed_args(es: &[Expr], alloc: Global, g: &Around<'_, '_>, scope: &Scope<'_>) -> Args
    ensures { IsArgs result (around_of g.now) (map local_of scope.now) (U.exprs (map expr_of es.now)) }
{
    match es {
        [] => Args {
            typed: Ok(Vec::new(alloc)),
            other: false,
        },
        [first, rest @ ..] => match expr(first, alloc, g, false, scope) {
            Err(fault) => Args {
                typed: Err(fault),
                other: false,
            },
            Ok(first) => {
                let other = !is_string(kind_of(&first));
                Args {
                    typed: typed_after(first, rest, alloc, g, scope),
                    other,
                }
            }
        },
    }
}

// The typed trees of arguments after the first one, with it.
#[cycle(exprs)]
#[tactic(auto, using(crate::proofs::After::args_step, crate::proofs::After::args_end))]
fn typed_after(
    first: TypedExpr,
    es: &[Expr],
    alloc: Global,
    g: &Around<'_, '_>,
    scope: &Scope<'_>,
) -> Result<Vec<TypedExpr>, TypeFault>
    ensures { GivesAll typed_of result (args_after (typed_of first ∷ []) (spec.typed_args (around_of g.now) (map local_of scope.now) (U.exprs (map expr_of es.now)))) }
{
    let mut before = one(alloc, first)?;
    for e in es {
        let value = expr(e, alloc, g, false, scope)?;
        push(&mut before, value)?;
    }
    Ok(before)
}

// Operators after a first operand.
#[cycle(exprs)]
fn typed_links(
    links: &[Link],
    alloc: Global,
    g: &Around<'_, '_>,
    scope: &Scope<'_>,
    first: &TypedExpr,
) -> Result<Vec<TypedLink>, TypeFault>
    ensures { Gives (chain_of (typed_of first.now)) result (spec.typed_links (around_of g.now) (map local_of scope.now) (typed_of first.now) (U.links (map link_of links.now))) }
{
    let mut kind = kind_of(first);
    let mut typed = Vec::new(alloc);
    for link in links {
        let operand = expr(&link.operand, alloc, g, false, scope);
        let next = add_link(
            &mut typed,
            operation_of(link.operator),
            link.line,
            kind,
            operand,
        )?;
        kind = next;
    }
    Ok(typed)
}
