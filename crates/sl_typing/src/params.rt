// Parameters with their defaults, and the whole file.
ghost use Rattle.std.specs.Prelude.{List, ◌≡◌, [], Ok, OnOk, length, map, option_map};
ghost use Rattle.sl_ast.specs.ShaderView.{shader_of};
ghost use Rattle.sl_ast.specs.SyntaxView.{expr_of, group_of, declared_of};
ghost use Rattle.sl_expressions.specs.TypedView.{typed_of, tstmt_of};
ghost use Rattle.sl_expressions.specs.Views.{Gives, around_of, local_of, callee_of};
ghost use Rattle.sl_typing.specs.Functions as spec;
ghost use Rattle.sl_typing.specs.Views.{GivesParams, param_of, program_of};

use crate::assigned::assigned_in;
use crate::file::{Param, Program};
use crate::functions::learn_all;
use crate::sets::{is_varying, value_in};
use crate::stmts::rows;
use fixed_math::Names;
use sl_ast::{Declared, Expr, Group, Shader, SlKind, SlType};
use sl_expressions::{
    Around, Functions, Local, Scope, Spot, TypeCode, TypeFault, TypedExpr, TypedStmt, expr, fault,
    left, push,
};
use std::alloc::Global;

fn default_in(
    alloc: Global,
    g: &Around<'_, '_>,
    kind: SlType,
    set_line: u32,
    value: &Option<Expr>,
) -> Result<TypedExpr, TypeFault>
    ensures { Gives typed_of result (spec.default_in (around_of g.now) kind set_line (option_map expr_of value.now)) }
{
    match value {
        None => fault(TypeCode::T2, set_line),
        Some(e) => value_in(kind, set_line, expr(e, alloc, g, false, &Scope::new(alloc))),
    }
}

// One parameter; `scope` is that of those before it.
fn param<'a>(
    alloc: Global,
    g: &Around<'_, 'a>,
    uniform: bool,
    kind: SlType,
    params: &mut Vec<Param<'a>>,
    scope: &mut Scope<'a>,
    assigned: &Names<'_>,
    d: &'a Declared,
) -> Result<(), TypeFault>
    requires { map local_of scope.old ≡ spec.locals_of (map param_of params.old.items) }
    ensures { GivesParams result params.new.items scope.new (spec.typed_param (around_of g.now) assigned.now uniform kind (map param_of params.old.items) (declared_of d.now)) }
{
    if scope.level(&d.name).is_some() {
        return fault(TypeCode::T10, d.line);
    }
    let local = Local {
        uniform,
        kind,
        name: &d.name,
        fixed: assigned.place_of(&d.name).is_none(),
        line: d.line,
    };
    scope.push(local)?;
    let value = default_in(alloc, g, kind, d.set_line, &d.value)?;
    push(params, Param { local, value })
}

// The parameters of a group.
fn group<'a>(
    alloc: Global,
    g: &Around<'_, 'a>,
    uniform: bool,
    kind: SlType,
    params: &mut Vec<Param<'a>>,
    scope: &mut Scope<'a>,
    assigned: &Names<'_>,
    ds: &'a [Declared],
) -> Result<(), TypeFault>
    requires { map local_of scope.old ≡ spec.locals_of (map param_of params.old.items) }
    ensures { GivesParams result params.new.items scope.new (spec.typed_params (around_of g.now) assigned.now uniform kind (map param_of params.old.items) (map declared_of ds.now)) }
{
    for d in ds {
        param(alloc, g, uniform, kind, params, scope, assigned, d)?;
    }
    Ok(())
}

// The parameters of a shader.
fn groups<'a>(
    alloc: Global,
    g: &Around<'_, 'a>,
    params: &mut Vec<Param<'a>>,
    scope: &mut Scope<'a>,
    assigned: &Names<'_>,
    groups: &'a [Group],
) -> Result<(), TypeFault>
    requires { map local_of scope.old ≡ spec.locals_of (map param_of params.old.items) }
    ensures { GivesParams result params.new.items scope.new (spec.typed_groups (around_of g.now) assigned.now (map param_of params.old.items) (map group_of groups.now)) }
{
    for one in groups {
        let uniform = !is_varying(one.class);
        group(
            alloc,
            g,
            uniform,
            one.kind,
            params,
            scope,
            assigned,
            one.names.as_slice(),
        )?;
    }
    Ok(())
}

fn by_default<'a, 'b>(kind: SlKind, known: &'a Functions<'b>) -> Around<'a, 'b>
    ensures { around_of result ≡ spec.by_default kind (map callee_of known.now) }
{
    Around {
        at: Spot {
            kind,
            default: true,
            bare: true,
            lit: false,
            looped: false,
        },
        own: None,
        known,
    }
}

fn in_body<'a, 'b>(kind: SlKind, known: &'a Functions<'b>) -> Around<'a, 'b>
    ensures { around_of result ≡ spec.in_body kind (map callee_of known.now) }
{
    Around {
        at: Spot {
            kind,
            default: false,
            bare: false,
            lit: false,
            looped: false,
        },
        own: None,
        known,
    }
}

// The parameters and the body of a shader.
#[tactic(auto, using(crate::proofs::After::after_none))]
fn params_and_body<'a>(
    alloc: Global,
    shader: &'a Shader,
    known: &Functions<'a>,
    params: &mut Vec<Param<'a>>,
    body: &mut Vec<TypedStmt>,
) -> Result<(), TypeFault>
    requires { (params.old.items ≡ []) × (body.old.items ≡ []) }
    ensures { Gives (λ _. (map param_of params.new.items, map tstmt_of body.new.items)) result (spec.params_and_body (shader_of shader.now) (map callee_of known.now)) }
{
    let mut scope = Scope::new(alloc);
    let around = by_default(shader.kind, known);
    let assigned = assigned_in(alloc, shader.body.as_slice())?;
    match groups(
        alloc,
        &around,
        params,
        &mut scope,
        &assigned,
        shader.params.as_slice(),
    ) {
        Err(fault) => Err(fault),
        Ok(()) => {
            let inside = in_body(shader.kind, known);
            let from = params.len();
            rows(
                shader.body.as_slice(),
                alloc,
                &inside,
                from,
                body,
                &mut scope,
            )
        }
    }
}

/// The typed functions, parameters and body of a file, or the first fault of names, types, kinds and places.
pub fn program<'a>(alloc: Global, shader: &'a Shader) -> Result<Program<'a>, TypeFault>
    ensures { Gives program_of result (spec.program (shader_of shader.now)) }
{
    let mut known = Functions::new(alloc);
    if let Err(fault) = learn_all(alloc, shader.kind, shader.functions.as_slice(), &mut known) {
        return left(known, fault);
    }
    let mut params = Vec::new(alloc);
    let mut body = Vec::new(alloc);
    match params_and_body(alloc, shader, &known, &mut params, &mut body) {
        Err(fault) => left((known, params, body), fault),
        Ok(()) => Ok(Program {
            known,
            params,
            body,
        }),
    }
}
