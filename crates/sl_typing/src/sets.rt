// Declarations, assignments and statements over lights.
ghost use Rattle.std.specs.Prelude.{List, ◌≡◌, Err, not, map, option_map};
ghost use Rattle.sl_ast.specs.SyntaxView.{expr_of, assignment_of, declared_of, cone_of};
ghost use Rattle.sl_ast.specs.Rules as rules;
ghost use Rattle.sl_ast.specs.WellTyped as W;
ghost use Rattle.sl_expressions.specs.Exprs.{typed_expr, typed_args};
ghost use Rattle.sl_expressions.specs.Found.{Found};
ghost use Rattle.sl_expressions.specs.Scope as scopes;
ghost use Rattle.sl_expressions.specs.Typed as T;
ghost use Rattle.sl_expressions.specs.TypedView.{typed_of, tstmt_of};
ghost use Rattle.sl_expressions.specs.Views.{Gives, GivesAll, spot_of, around_of, local_of, found_of, own_of};
ghost use Rattle.sl_typing.specs.Stmts as spec;
ghost use Rattle.sl_typing.specs.Views.{GivesOne, GivesRows, Extends};

use fixed_math::Text;
use sl_ast::{
    Assignment, Class, Cone, Declared, Expr, LightStmt, LightWord, NodeType, Operands, Predefined,
    SetOperator, SlType, Variable,
};
use sl_expressions::{
    Around, Local, Own, Scope, Spot, TypeCode, TypeFault, TypedExpr, TypedStmt, added, expr, fault,
    find, is_own, is_written, kind_of, left, one, operands_of, place_of, predefined_names, push,
    three,
};
use std::alloc::Global;

pub fn is_since(from: usize, at: Option<(usize, Local<'_>)>) -> bool
    ensures { result ≡ spec.is_since from (option_map found_of at.entry) }
{
    match at {
        None => false,
        Some((level, _)) => level >= from,
    }
}

pub fn is_uniform(class: Option<Class>) -> bool
    ensures { result ≡ spec.is_uniform class }
{
    matches!(class, Some(Class::Uniform))
}

pub fn is_varying(class: Option<Class>) -> bool
    ensures { result ≡ spec.is_varying class }
{
    matches!(class, Some(Class::Varying))
}

// What a variable of that type is set to.
pub fn value_in(
    kind: SlType,
    line: u32,
    value: Result<TypedExpr, TypeFault>,
) -> Result<TypedExpr, TypeFault>
    ensures { (found : Found T.Expr) → Gives typed_of value found → Gives typed_of result (spec.value_in kind line found) }
{
    let value = value?;
    if !kind.takes(kind_of(&value)) {
        return left(
            value,
            TypeFault::At {
                code: TypeCode::T2,
                line,
            },
        );
    }
    Ok(value)
}

fn declared(
    alloc: Global,
    g: &Around<'_, '_>,
    uniform: bool,
    kind: SlType,
    scope: &Scope<'_>,
    line: u32,
    set_line: u32,
    value: &Option<Expr>,
) -> Result<TypedStmt, TypeFault>
    ensures { Gives tstmt_of result (spec.declared (around_of g.now) uniform kind (map local_of scope.now) line set_line (option_map expr_of value.now)) }
{
    let Some(e) = value else {
        return Ok(TypedStmt::Start {
            uniform,
            kind,
            line,
        });
    };
    let value = value_in(kind, set_line, expr(e, alloc, g, false, scope))?;
    Ok(TypedStmt::Declare {
        uniform,
        kind,
        value,
        line,
    })
}

// One name of a declaration.
fn name<'a>(
    alloc: Global,
    g: &Around<'_, 'a>,
    from: usize,
    uniform: bool,
    kind: SlType,
    done: &mut Vec<TypedStmt>,
    scope: &mut Scope<'a>,
    d: &'a Declared,
) -> Result<(), TypeFault>
    ensures gives { GivesRows result done.new.items scope.new (spec.put_after (map tstmt_of done.old.items) (spec.typed_name (around_of g.now) from uniform kind (map local_of scope.old) (declared_of d.now))) }
    ensures extends { Extends scope.old scope.new }
{
    if is_since(from, scope.level(&d.name)) {
        return fault(TypeCode::T10, d.line);
    }
    let stmt = declared(alloc, g, uniform, kind, scope, d.line, d.set_line, &d.value)?;
    push(done, stmt)?;
    scope.push(Local {
        uniform,
        kind,
        name: &d.name,
        fixed: false,
        line: d.line,
    })?;
    Ok(())
}

// The names of a declaration.
pub fn names<'a>(
    alloc: Global,
    g: &Around<'_, 'a>,
    from: usize,
    uniform: bool,
    kind: SlType,
    done: &mut Vec<TypedStmt>,
    scope: &mut Scope<'a>,
    ds: &'a [Declared],
) -> Result<(), TypeFault>
    ensures gives { GivesRows result done.new.items scope.new (spec.put_after (map tstmt_of done.old.items) (spec.typed_names (around_of g.now) from uniform kind (map local_of scope.old) (map declared_of ds.now))) }
    ensures extends { Extends scope.old scope.new }
{
    for d in ds {
        name(alloc, g, from, uniform, kind, done, scope, d)?;
    }
    Ok(())
}

fn predefined_set(
    g: &Spot,
    line: u32,
    name: Option<Predefined>,
) -> Result<(Variable, SlType), TypeFault>
    ensures { Gives (λ v. v) result (spec.predefined_set (spot_of g.now) line name) }
{
    let Some(x) = name else {
        return fault(TypeCode::T1, line);
    };
    if is_written(g, x) {
        return Ok((Variable::Predefined(x), x.kind()));
    }
    if is_own(g, x) {
        fault(TypeCode::T6, line)
    } else {
        fault(TypeCode::T1, line)
    }
}

// The variable that is set, with its type.
fn variable_set(
    g: &Spot,
    name: &Text,
    line: u32,
    at: Option<(usize, Local<'_>)>,
) -> Result<(Variable, SlType), TypeFault>
    ensures { Gives (λ v. v) result (spec.variable_set (spot_of g.now) name.now line (option_map found_of at.entry)) }
{
    let Some((level, local)) = at else {
        return predefined_set(g, line, find(predefined_names(), name));
    };
    let level = place_of(level)?;
    Ok((Variable::Level(level), local.kind))
}

fn goes_into(kind: NodeType, value: Option<NodeType>) -> bool
    ensures { result ≡ W.goes_into kind value }
{
    match kind {
        NodeType::Test => false,
        NodeType::Float => matches!(value, Some(NodeType::Float)),
        NodeType::Color => matches!(value, Some(NodeType::Float | NodeType::Color)),
        NodeType::Str => matches!(value, Some(NodeType::Str)),
        _ => matches!(
            value,
            Some(NodeType::Float | NodeType::Point | NodeType::Vector | NodeType::Normal)
        ),
    }
}

// Whether a variable of that type is set so.
fn sets(kind: SlType, operator: SetOperator, value: NodeType) -> bool
    ensures { result ≡ spec.sets kind operator value }
{
    let kind = kind.node_type();
    goes_into(kind, operator.rule(kind, value))
}

// An assignment.
pub fn set(
    alloc: Global,
    g: &Around<'_, '_>,
    scope: &Scope<'_>,
    a: &Assignment,
) -> Result<TypedStmt, TypeFault>
    ensures { Gives tstmt_of result (spec.typed_set (around_of g.now) (map local_of scope.now) (assignment_of a.now)) }
{
    let (variable, kind) = variable_set(&g.at, &a.name, a.line, scope.level(&a.name))?;
    let value = expr(&a.value, alloc, g, false, scope)?;
    if !sets(kind, a.operator, kind_of(&value)) {
        let misfit = TypeFault::At {
            code: TypeCode::T2,
            line: a.set_line,
        };
        return left(value, misfit);
    }
    Ok(TypedStmt::Set {
        variable,
        operator: a.operator,
        kind,
        value,
        line: a.line,
    })
}

// The assignment of a `for`, where there is one.
pub fn optional_set(
    alloc: Global,
    g: &Around<'_, '_>,
    scope: &Scope<'_>,
    a: &Option<Assignment>,
) -> Result<Vec<TypedStmt>, TypeFault>
    ensures { GivesAll tstmt_of result (spec.optional_set (around_of g.now) (map local_of scope.now) (option_map assignment_of a.now)) }
{
    match a {
        None => Ok(Vec::new(alloc)),
        Some(a) => one(alloc, set(alloc, g, scope, a)?),
    }
}

pub fn is_test(e: &TypedExpr) -> bool
    ensures { spec.no_test (typed_of e.now) ≡ not result }
{
    matches!(kind_of(e), NodeType::Test)
}

// A condition.
pub fn condition(line: u32, found: Result<TypedExpr, TypeFault>) -> Result<TypedExpr, TypeFault>
    ensures { (test : Found T.Expr) → Gives typed_of found test → Gives typed_of result (spec.condition line test) }
{
    let test = found?;
    if !is_test(&test) {
        return left(
            test,
            TypeFault::At {
                code: TypeCode::T2,
                line,
            },
        );
    }
    Ok(test)
}

/// The fault of a `return` that isn't the last statement of a function, at its line.
pub fn misplaced(
    own: &Option<Own<'_, '_>>,
    value: Result<TypedExpr, TypeFault>,
    line: u32,
) -> Result<TypedStmt, TypeFault>
    ensures { (ls : List scopes.Local) (found : Found T.Expr) → Gives typed_of value found → GivesOne result ls (Err (spec.misplaced (option_map own_of own.now) found, line)) }
{
    let Some(own) = own else {
        return left(
            value,
            TypeFault::At {
                code: TypeCode::T8,
                line,
            },
        );
    };
    match value {
        Err(TypeFault::NoMemory) => Err(TypeFault::NoMemory),
        Err(TypeFault::At { .. }) => fault(TypeCode::T8, line),
        Ok(value) => {
            let code = if own.returns.takes(kind_of(&value)) {
                TypeCode::T8
            } else {
                TypeCode::T2
            };
            left(value, TypeFault::At { code, line })
        }
    }
}

pub fn light_word(word: LightWord) -> LightStmt
    ensures { result ≡ spec.light_word word }
{
    match word {
        LightWord::Illuminance => LightStmt::Illuminance,
        LightWord::Illuminate => LightStmt::Illuminate,
    }
}

// The typed arguments of a statement over a place and a cone.
pub fn light_args(
    alloc: Global,
    g: &Around<'_, '_>,
    scope: &Scope<'_>,
    place: &Expr,
    cone: &Option<Cone>,
) -> Result<Vec<TypedExpr>, TypeFault>
    ensures { GivesAll typed_of result (typed_args (around_of g.now) (map local_of scope.now) (spec.light_args (expr_of place.now) (option_map cone_of cone.now))) }
{
    let place = expr(place, alloc, g, false, scope);
    match cone {
        None => added(Ok(Vec::new(alloc)), place),
        Some(cone) => {
            let axis = expr(&cone.axis, alloc, g, false, scope);
            let angle = expr(&cone.angle, alloc, g, false, scope);
            three(alloc, place, axis, angle)
        }
    }
}

// A statement over lights, from what its arguments are.
pub fn lights_of(
    g: &Spot,
    word: LightStmt,
    line: u32,
    args: Result<Vec<TypedExpr>, TypeFault>,
) -> Result<Vec<TypedExpr>, TypeFault>
    ensures { (found : Found (List T.Expr)) → GivesAll typed_of args found → GivesAll typed_of result (spec.lights_of (spot_of g.now) word line found) }
{
    if let Err(TypeFault::NoMemory) = args {
        return Err(TypeFault::NoMemory);
    }
    if let Ok(args) = &args {
        if !lights_take(word, operands_of(args.as_slice())) {
            return fault(TypeCode::T2, line);
        }
    }
    if !g.kind.has_lights(word) {
        return fault(TypeCode::T6, line);
    }
    if g.default {
        return fault(TypeCode::T11, line);
    }
    args
}

fn is_float(kind: NodeType) -> bool
    ensures { result ≡ rules.is_float kind }
{
    matches!(kind, NodeType::Float)
}

fn is_triple(kind: NodeType) -> bool
    ensures { result ≡ rules.is_triple kind }
{
    matches!(
        kind,
        NodeType::Float | NodeType::Point | NodeType::Vector | NodeType::Normal
    )
}

fn lights_take(word: LightStmt, operands: Operands) -> bool
    ensures { result ≡ W.lights_take word operands }
{
    match word {
        LightStmt::Solar => match operands {
            Operands::Two(axis, angle) => is_triple(axis) && is_float(angle),
            _ => false,
        },
        _ => match operands {
            Operands::One(place) => is_triple(place),
            Operands::Three(place, axis, angle) => is_triple(place)
                && is_triple(axis)
                && is_float(angle),
            _ => false,
        },
    }
}
