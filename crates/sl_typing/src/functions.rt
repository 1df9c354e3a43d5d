// Functions, each over those before it.
ghost use Rattle.std.specs.Prelude.{List, ◌≡◌, [], ◌++◌, Err, IfOk, IfSome, OnErr, OnOk, Ok, Option, length, map, option_map};
ghost use Rattle.sl_ast.specs.Syntax as U;
ghost use Rattle.sl_ast.specs.SyntaxView.{expr_of, stmt_of, group_of, declared_of, function_of};
ghost use Rattle.sl_expressions.specs.Scope as scopes;
ghost use Rattle.sl_expressions.specs.Typed as T;
ghost use Rattle.sl_expressions.specs.TypedView.{typed_of, tstmt_of};
ghost use Rattle.sl_expressions.specs.declared.faults.TypeFault.TheVariants.{NoMemory};
ghost use Rattle.sl_expressions.specs.Views.{Gives, GivesAll, spot_of, around_of, local_of, stmts_of as body_view, body_of, callee_of};
ghost use Rattle.sl_typing.specs.Functions as spec;
ghost use Rattle.sl_typing.specs.Views.{GivesRows, Extends};

use crate::gives::gives_any;
use crate::sets::{is_uniform, value_in};
use crate::stmts::rows;
use fixed_math::List;
use sl_ast::{Declared, Expr, Function, Group, SlKind, SlType, Stmt};
use sl_expressions::{
    Around, Body, Faulty, Functions, Known, Local, Own, Scope, Spot, TypeCode, TypeFault,
    TypedStmt, expr, fault, left,
};
use std::alloc::{AllocError, Global};

fn given(s: &Stmt) -> Option<(&Expr, u32)>
    ensures { option_map (λ x. (expr_of x.0.now, x.1)) result ≡ spec.given (stmt_of s.now) }
{
    match s {
        Stmt::Return { value, line } => Some((value, *line)),
        _ => None,
    }
}

// The statements before the last, and the `return` that it is.
#[tactic(auto, using(crate::proofs::Ends::ends_with, crate::proofs::Ends::before_last))]
fn closing(body: &[Stmt]) -> Option<(&[Stmt], (&Expr, u32))>
    ensures given { option_map (λ x. (expr_of x.1.0.now, x.1.1)) result ≡ spec.given_last (U.stmts (map stmt_of body.now)) }
    ensures before { IfSome result (λ x. U.stmts (map stmt_of x.0.now) ≡ spec.but_last (U.stmts (map stmt_of body.now))) }
{
    let Some((last, before)) = body.split_last() else {
        return None;
    };
    match given(last) {
        None => None,
        Some(value) => Some((before, value)),
    }
}

fn returned(
    alloc: Global,
    g: &Around<'_, '_>,
    kind: SlType,
    done: Vec<TypedStmt>,
    scope: &Scope<'_>,
    value: &Expr,
    line: u32,
) -> Result<Body, TypeFault>
    ensures { Gives body_view result (spec.returned (around_of g.now) kind (map tstmt_of done.items) (map local_of scope.now) (expr_of value.now, line)) }
{
    let value = value_in(kind, line, expr(value, alloc, g, false, scope))?;
    Ok(Body {
        stmts: List(done),
        returned: line,
        value,
    })
}

// What a function does; `line` is that of its name.
#[tactic(auto, using(crate::proofs::After::after_none))]
fn body_from<'a>(
    alloc: Global,
    g: &Around<'_, 'a>,
    kind: SlType,
    line: u32,
    scope: &mut Scope<'a>,
    body: &'a [Stmt],
) -> Result<Body, TypeFault>
    ensures { Gives body_view result (spec.typed_body (around_of g.now) (length scope.old) kind line (map local_of scope.old) (U.stmts (map stmt_of body.now))) }
{
    let from = scope.len();
    let mut done = Vec::new(alloc);
    match closing(body) {
        None => match rows(body, alloc, g, from, &mut done, scope) {
            Err(fault) => left(done, fault),
            Ok(()) => left(
                done,
                TypeFault::At {
                    code: TypeCode::T8,
                    line,
                },
            ),
        },
        Some((before, (value, at))) => match rows(before, alloc, g, from, &mut done, scope) {
            Err(fault) => left(done, fault),
            Ok(()) => returned(alloc, g, kind, done, scope, value, at),
        },
    }
}

// The formals of a group.
fn formals_named<'a>(
    uniform: bool,
    kind: SlType,
    names: &'a [Declared],
    formals: &mut Vec<Local<'a>>,
) -> Result<(), AllocError>
    ensures { OnOk result (map local_of formals.new.items ≡ map local_of formals.old.items ++ spec.formals_named uniform kind (map declared_of names.now)) }
{
    for d in names {
        formals.push(Local {
            uniform,
            kind,
            name: &d.name,
            fixed: false,
            line: d.line,
        })?;
    }
    Ok(())
}

// The formals of a function.
fn formals_of<'a>(alloc: Global, groups: &'a [Group]) -> Result<Vec<Local<'a>>, AllocError>
    ensures { IfOk result (λ v. map local_of v.items ≡ spec.formals_of (map group_of groups.now)) }
{
    let mut formals = Vec::new(alloc);
    for group in groups {
        formals_named(
            is_uniform(group.class),
            group.kind,
            group.names.as_slice(),
            &mut formals,
        )?;
    }
    Ok(formals)
}

// Puts formals, each name of which stands once, into a scope.
fn enter<'a>(formals: &[Local<'a>], scope: &mut Scope<'a>) -> Result<(), TypeFault>
    ensures { Gives (λ _. map local_of scope.new) result (spec.scope_from (map local_of scope.old) (map local_of formals.now)) }
{
    for formal in formals {
        if scope.level(formal.name).is_some() {
            return fault(TypeCode::T10, formal.line);
        }
        scope.push(*formal)?;
    }
    Ok(())
}

// What a function does, or the first fault in it.
fn typed_function<'a>(
    alloc: Global,
    g: &Around<'_, 'a>,
    formals: &[Local<'a>],
    f: &'a Function,
) -> Result<Body, TypeFault>
    requires { map local_of formals.now ≡ spec.formals_of (map group_of f.now.formals) }
    ensures { Gives body_view result (spec.body_of (around_of g.now) (function_of f.now)) }
{
    if !gives_any(f.body.as_slice()) {
        return fault(TypeCode::T8, f.line);
    }
    let mut scope = Scope::new(alloc);
    match enter(formals, &mut scope) {
        Err(fault) => Err(fault),
        Ok(()) => body_from(alloc, g, f.returns, f.line, &mut scope, f.body.as_slice()),
    }
}

fn within(kind: SlKind, by_default: bool) -> Spot
    ensures { spot_of result ≡ spec.spot_within kind by_default }
{
    Spot {
        kind,
        default: by_default,
        bare: true,
        lit: false,
        looped: false,
    }
}

// What is kept of a function's body.
fn kept(found: Result<Body, TypeFault>) -> Result<Result<Body, Faulty>, AllocError>
    ensures { (body : spec.FoundBody) → Gives body_view found body → IfOk result (λ r. body_of r ≡ body) }
{
    match found {
        Ok(body) => Ok(Ok(body)),
        Err(TypeFault::At { code, line }) => Ok(Err(Faulty { code, line })),
        Err(TypeFault::NoMemory) => Err(AllocError),
    }
}

// What is kept of a function's body where it is called in the default of a parameter, or in the body of the shader.
fn kept_body<'a>(
    alloc: Global,
    kind: SlKind,
    by_default: bool,
    known: &Functions<'a>,
    formals: &[Local<'a>],
    f: &'a Function,
) -> Result<Result<Body, Faulty>, AllocError>
    requires { map local_of formals.now ≡ spec.formals_of (map group_of f.now.formals) }
    ensures { IfOk result (λ r. body_of r ≡ spec.body_of (spec.within kind by_default (map callee_of known.now) (function_of f.now)) (function_of f.now)) }
{
    let around = Around {
        at: within(kind, by_default),
        own: Some(Own {
            name: &f.name,
            formals,
            returns: f.returns,
        }),
        known,
    };
    let found = typed_function(alloc, &around, formals, f);
    kept(found)
}

// A function that later text may call.
fn learned<'a>(
    alloc: Global,
    kind: SlKind,
    known: &Functions<'a>,
    f: &'a Function,
) -> Result<Known<'a>, AllocError>
    ensures { IfOk result (λ k. callee_of k ≡ spec.callee_in kind (map callee_of known.now) (function_of f.now)) }
{
    let formals = formals_of(alloc, f.formals.as_slice())?;
    match kept_body(alloc, kind, false, known, formals.as_slice(), f) {
        Err(want) => left(formals, want),
        Ok(body) => match kept_body(alloc, kind, true, known, formals.as_slice(), f) {
            Err(want) => left((formals, body), want),
            Ok(by_default) => Ok(Known {
                name: &f.name,
                formals,
                returns: f.returns,
                body,
                by_default,
            }),
        },
    }
}

// Adds a function to those before it.
fn learn<'a>(
    alloc: Global,
    kind: SlKind,
    f: &'a Function,
    known: &mut Functions<'a>,
) -> Result<(), TypeFault>
    ensures { Gives (λ _. map callee_of known.new) result (spec.learned kind (map callee_of known.old) (function_of f.now)) }
{
    if known.find(&f.name).is_some() {
        return fault(TypeCode::T10, f.line);
    }
    let next = learned(alloc, kind, known, f)?;
    known.push(next)?;
    Ok(())
}

/// Adds functions in their order, each over those before it.
pub fn learn_all<'a>(
    alloc: Global,
    kind: SlKind,
    functions: &'a [Function],
    known: &mut Functions<'a>,
) -> Result<(), TypeFault>
    ensures { Gives (λ _. map callee_of known.new) result (spec.known_from kind (map callee_of known.old) (map function_of functions.now)) }
{
    for f in functions {
        learn(alloc, kind, f, known)?;
    }
    Ok(())
}
