// Functions in place of their calls, and nodes numbered in the order of the text.
ghost use Rattle.std.specs.Prelude.{◌≡◌, ◌≤◌, ◌+◌, map, true, IfOk, OnOk, get_or};
ghost use Rattle.sl_ast.specs.Typed as A;
ghost use Rattle.sl_ast.specs.TypedView.{tree_expr, tree_stmt, default_of, local_of as param_type};
ghost use Rattle.sl_types.specs.Inline as spec;
ghost use Rattle.sl_types.specs.Placing.{functions, Lighter, Puts};
ghost use Rattle.sl_expressions.specs.Scope.{body_in};
ghost use Rattle.sl_expressions.specs.Typed as T;
ghost use Rattle.sl_expressions.specs.TypedView.{typed_of, tlink_of, tstmt_of};
ghost use Rattle.sl_expressions.specs.Views.{body_of, callee_of, local_of};
ghost use Rattle.sl_typing.specs.Views.{param_of};

use fixed_math::{List, NoMemory, Num};
use sl_ast::{
    LightStmt, NodeType, Operation, ParamDecl, ParamDefault, Place, SetOperator, SlType, TreeExpr,
    TreeFormal, TreeStmt, Variable,
};
use sl_typing::{Body, Faulty, Known, Local, Param, TypedExpr, TypedLink, TypedStmt};
use std::alloc::Global;

// A function where a call of it is, with those before it.
#[derive(Clone, Copy)]
pub struct Inside<'a, 'b> {
    pub formals: &'a [Local<'b>],
    pub body: &'a Body,
    pub before: &'a [Known<'b>],
}

fn body_at<'a>(by_default: bool, function: &'a Known<'_>) -> &'a Result<Body, Faulty>
    ensures { body_of result.now ≡ body_in by_default (callee_of function.now) }
{
    if by_default {
        &function.by_default
    } else {
        &function.body
    }
}

// The function of that number; none where it has a fault, since then nothing calls it.
#[tactic(auto, using(crate::proofs::Placed::function_at, crate::proofs::Placed::function_after))]
fn function_in<'a, 'b>(by_default: bool, known: &'a [Known<'b>], k: usize) -> Option<Inside<'a, 'b>>
    ensures puts { Puts by_default known.now k result }
    ensures lighter { Lighter by_default known.now result }
{
    if k >= known.len() {
        return None;
    }
    let function = &known[k];
    let before = &known[..k];
    match body_at(by_default, function) {
        Err(_) => None,
        Ok(body) => Some(Inside {
            formals: function.formals.as_slice(),
            body,
            before,
        }),
    }
}

// The place of the next node.
pub fn place(line: u32, next: &mut u32) -> Place
    requires { next.old ≤ 65535 }
    ensures place { result ≡ spec.at line next.old }
    ensures next { next.new ≡ next.old + 1 }
{
    let number = *next;
    *next = number + 1;
    Place { line, number }
}

// The formals of a function.
fn tree_formals(alloc: Global, formals: &[Local<'_>]) -> Result<Vec<TreeFormal>, NoMemory>
    ensures { IfOk result (λ v. v.items ≡ map spec.tree_formal (map local_of formals.now)) }
{
    let mut made = Vec::new(alloc);
    for formal in formals {
        made.push(TreeFormal {
            kind: formal.kind,
            uniform: formal.uniform,
            line: formal.line,
        })?;
    }
    Ok(made)
}

#[tactic(auto, using(sl_ast::proofs::TypedRows::held_exprs))]
fn apply_node(operation: Operation, args: Vec<TreeExpr>, kind: NodeType, place: Place) -> TreeExpr
    ensures { tree_expr result ≡ A.apply operation (A.exprs (map tree_expr args.items)) kind place }
{
    TreeExpr::Apply {
        operation,
        args: List(args),
        kind,
        place,
    }
}

// An operator over two operands.
fn pair_node(
    alloc: Global,
    operation: Operation,
    a: TreeExpr,
    b: TreeExpr,
    kind: NodeType,
    place: Place,
) -> Result<TreeExpr, NoMemory>
    ensures { IfOk result (λ t. tree_expr t ≡ A.apply operation (A.more (tree_expr a) (A.more (tree_expr b) A.none)) kind place) }
{
    let args = vec![in alloc; a, b]?;
    Ok(apply_node(operation, args, kind, place))
}

// The number that so many nodes further has.
fn number_after(next: u32, nodes: usize) -> u32
    requires { next + nodes ≤ 65536 }
    ensures { result ≡ next + nodes }
{
    next + nodes as u32
}

#[tactic(auto, using(sl_ast::proofs::TypedRows::held_exprs, sl_ast::proofs::TypedRows::held_stmts))]
fn call_node(
    args: Vec<TreeExpr>,
    formals: Vec<TreeFormal>,
    body: Vec<TreeStmt>,
    returned: Place,
    value: Box<TreeExpr>,
    kind: NodeType,
    place: Place,
) -> TreeExpr
    ensures { tree_expr result ≡ A.call (A.exprs (map tree_expr args.items)) formals.items (A.stmts (map tree_stmt body.items)) returned (tree_expr value.value) kind place }
{
    TreeExpr::Call {
        args: List(args),
        formals: List(formals),
        body: List(body),
        returned,
        value,
        kind,
        place,
    }
}

#[tactic(auto, using(sl_ast::proofs::TypedRows::held_stmts))]
fn block_node(body: Vec<TreeStmt>, place: Place) -> TreeStmt
    ensures { tree_stmt result ≡ A.block (A.stmts (map tree_stmt body.items)) place }
{
    TreeStmt::Block {
        body: List(body),
        place,
    }
}

#[tactic(auto, using(sl_ast::proofs::TypedRows::held_stmts))]
fn group_node(body: Vec<TreeStmt>) -> TreeStmt
    ensures { tree_stmt result ≡ A.group (A.stmts (map tree_stmt body.items)) }
{
    TreeStmt::Group { body: List(body) }
}

fn declare_node(uniform: bool, kind: SlType, value: TreeExpr, place: Place) -> TreeStmt
    ensures { tree_stmt result ≡ A.declare uniform kind (tree_expr value) place }
{
    TreeStmt::Declare {
        uniform,
        kind,
        value,
        place,
    }
}

fn set_node(
    variable: Variable,
    operator: SetOperator,
    kind: SlType,
    value: TreeExpr,
    place: Place,
) -> TreeStmt
    ensures { tree_stmt result ≡ A.assign variable operator kind (tree_expr value) place }
{
    TreeStmt::Set {
        variable,
        operator,
        kind,
        value,
        place,
    }
}

fn if_node(test: Box<TreeExpr>, then: Box<TreeStmt>, place: Place) -> TreeStmt
    ensures { tree_stmt result ≡ A.test (tree_expr test.value) (tree_stmt then.value) place }
{
    TreeStmt::If {
        test: Box::into_inner(test),
        then,
        place,
    }
}

fn if_else_node(
    test: Box<TreeExpr>,
    then: Box<TreeStmt>,
    otherwise: Box<TreeStmt>,
    place: Place,
) -> TreeStmt
    ensures { tree_stmt result ≡ A.test_else (tree_expr test.value) (tree_stmt then.value) (tree_stmt otherwise.value) place }
{
    TreeStmt::IfElse {
        test: Box::into_inner(test),
        then,
        otherwise,
        place,
    }
}

fn while_node(test: Box<TreeExpr>, body: Box<TreeStmt>, place: Place) -> TreeStmt
    ensures { tree_stmt result ≡ A.repeat (tree_expr test.value) (tree_stmt body.value) place }
{
    TreeStmt::While {
        test: Box::into_inner(test),
        body,
        place,
    }
}

// A `for` from its parts.
#[tactic(auto, using(sl_ast::proofs::TypedRows::held_stmts))]
fn for_node(
    first: Vec<TreeStmt>,
    test: Box<TreeExpr>,
    step: Vec<TreeStmt>,
    body: Box<TreeStmt>,
    place: Place,
) -> TreeStmt
    ensures { tree_stmt result ≡ A.steps (A.stmts (map tree_stmt first.items)) (tree_expr test.value) (A.stmts (map tree_stmt step.items)) (tree_stmt body.value) place }
{
    TreeStmt::For {
        first: List(first),
        test: Box::into_inner(test),
        step: List(step),
        body,
        place,
    }
}

#[tactic(auto, using(sl_ast::proofs::TypedRows::held_exprs))]
fn lights_node(word: LightStmt, args: Vec<TreeExpr>, body: Box<TreeStmt>, place: Place) -> TreeStmt
    ensures { tree_stmt result ≡ A.lights word (A.exprs (map tree_expr args.items)) (tree_stmt body.value) place }
{
    TreeStmt::Lights {
        word,
        args: List(args),
        body,
        place,
    }
}

// A call of a function with a fault, which stands nowhere in a typed file.
fn idle(
    alloc: Global,
    args: Vec<TreeExpr>,
    kind: NodeType,
    at: Place,
    next: &mut u32,
) -> Result<TreeExpr, NoMemory>
    requires { next.old ≤ 65534 }
    ensures tree { IfOk result (λ t. tree_expr t ≡ spec.called_at spec.nothing next.old (A.exprs (map tree_expr args.items)) kind at) }
    ensures next { OnOk result (next.new ≡ next.old + 2) }
{
    let returned = place(0, next);
    let value = TreeExpr::Number {
        value: Num::sat(0),
        place: place(0, next),
    };
    let value = Box::new(alloc, value)?;
    Ok(call_node(
        args,
        Vec::new(alloc),
        Vec::new(alloc),
        returned,
        value,
        kind,
        at,
    ))
}

// A call, whose function does what it does from the next node on.
#[cycle(inline)]
fn call(
    k: usize,
    args: Vec<TreeExpr>,
    alloc: Global,
    by_default: bool,
    known: &[Known<'_>],
    kind: NodeType,
    at: Place,
    next: &mut u32,
) -> Result<TreeExpr, NoMemory>
    requires { next.old + (get_or (functions by_default known.now) k spec.nothing).extent.nodes ≤ 65536 }
    ensures tree { IfOk result (λ t. tree_expr t ≡ spec.called_at (get_or (functions by_default known.now) k spec.nothing) next.old (A.exprs (map tree_expr args.items)) kind at) }
    ensures next { OnOk result (next.new ≡ next.old + (get_or (functions by_default known.now) k spec.nothing).extent.nodes) }
{
    let Some(function) = function_in(by_default, known, k) else {
        return idle(alloc, args, kind, at, next);
    };
    let formals = tree_formals(alloc, function.formals)?;
    let does = stmts(
        function.body.stmts.as_slice(),
        alloc,
        by_default,
        function.before,
        next,
    )?;
    let returned = place(function.body.returned, next);
    let value = expr(
        &function.body.value,
        alloc,
        by_default,
        function.before,
        next,
    )?;
    let value = Box::new(alloc, value)?;
    Ok(call_node(args, formals, does, returned, value, kind, at))
}

// The tree of an expression with functions in place, and the number of the node after it.
#[cycle(inline)]
#[tactic(auto, using(crate::proofs::TypedNodes::apply_shown, crate::proofs::TypedNodes::call_shown))]
fn expr(
    e: &TypedExpr,
    alloc: Global,
    by_default: bool,
    known: &[Known<'_>],
    next: &mut u32,
) -> Result<TreeExpr, NoMemory>
    requires { next.old + spec.count (functions by_default known.now) (typed_of e.now) ≤ 65536 }
    ensures tree { IfOk result (λ t. tree_expr t ≡ spec.inline (functions by_default known.now) next.old (typed_of e.now)) }
    ensures next { OnOk result (next.new ≡ next.old + spec.count (functions by_default known.now) (typed_of e.now)) }
{
    match e {
        TypedExpr::Number { value, line } => Ok(TreeExpr::Number {
            value: *value,
            place: place(*line, next),
        }),
        TypedExpr::Word { text, line } => Ok(TreeExpr::Word {
            text: text.copied(alloc)?,
            place: place(*line, next),
        }),
        TypedExpr::Variable {
            variable,
            kind,
            line,
        } => Ok(TreeExpr::Variable {
            variable: *variable,
            kind: *kind,
            place: place(*line, next),
        }),
        TypedExpr::Apply {
            operation,
            args,
            kind,
            line,
        } => {
            let at = place(*line, next);
            let args = exprs(args.as_slice(), alloc, by_default, known, next)?;
            Ok(apply_node(*operation, args, *kind, at))
        }
        TypedExpr::Chain {
            first,
            links,
            operation,
            operand,
            kind,
            line,
        } => {
            let at = place(*line, next);
            let before = chain(links.as_slice(), first, alloc, by_default, known, next)?;
            let operand = expr(operand, alloc, by_default, known, next)?;
            pair_node(alloc, *operation, before, operand, *kind, at)
        }
        TypedExpr::Call {
            function,
            args,
            kind,
            line,
        } => {
            let at = place(*line, next);
            let args = exprs(args.as_slice(), alloc, by_default, known, next)?;
            call(*function, args, alloc, by_default, known, *kind, at, next)
        }
    }
}

// Operators after a first operand, each over those before it: the node of the last stands first in the text's order.
#[cycle(inline)]
fn chain(
    links: &[TypedLink],
    first: &TypedExpr,
    alloc: Global,
    by_default: bool,
    known: &[Known<'_>],
    next: &mut u32,
) -> Result<TreeExpr, NoMemory>
    requires { next.old + spec.count (functions by_default known.now) (T.chained (typed_of first.now) (map tlink_of links.now)) ≤ 65536 }
    ensures tree { IfOk result (λ t. tree_expr t ≡ spec.inline (functions by_default known.now) next.old (T.chained (typed_of first.now) (map tlink_of links.now))) }
    ensures next { OnOk result (next.new ≡ next.old + spec.count (functions by_default known.now) (T.chained (typed_of first.now) (map tlink_of links.now))) }
{
    let start = *next;
    let mut number = number_after(start, links.len());
    *next = number;
    let mut value = expr(first, alloc, by_default, known, next)?;
    for link in links {
        number -= 1;
        let at = Place {
            line: link.line,
            number,
        };
        let operand = expr(&link.operand, alloc, by_default, known, next)?;
        value = pair_node(alloc, link.operation, value, operand, link.kind, at)?;
    }
    Ok(value)
}

#[cycle(inline)]
fn exprs(
    es: &[TypedExpr],
    alloc: Global,
    by_default: bool,
    known: &[Known<'_>],
    next: &mut u32,
) -> Result<Vec<TreeExpr>, NoMemory>
    requires { next.old + spec.count_args (functions by_default known.now) (T.exprs (map typed_of es.now)) ≤ 65536 }
    ensures tree { IfOk result (λ v. A.exprs (map tree_expr v.items) ≡ spec.inline_args (functions by_default known.now) next.old (T.exprs (map typed_of es.now))) }
    ensures next { OnOk result (next.new ≡ next.old + spec.count_args (functions by_default known.now) (T.exprs (map typed_of es.now))) }
{
    let mut made = Vec::new(alloc);
    for e in es {
        let one = expr(e, alloc, by_default, known, next)?;
        made.push(one)?;
    }
    Ok(made)
}

// The tree of a statement with functions in place, and the number of the node after it.
#[cycle(inline)]
#[tactic(auto, using(crate::proofs::TypedNodes::block_shown, crate::proofs::TypedNodes::group_shown, crate::proofs::TypedNodes::for_shown))]
fn stmt(
    s: &TypedStmt,
    alloc: Global,
    by_default: bool,
    known: &[Known<'_>],
    next: &mut u32,
) -> Result<TreeStmt, NoMemory>
    requires { next.old + spec.count_stmt (functions by_default known.now) (tstmt_of s.now) ≤ 65536 }
    ensures tree { IfOk result (λ t. tree_stmt t ≡ spec.inline_stmt (functions by_default known.now) next.old (tstmt_of s.now)) }
    ensures next { OnOk result (next.new ≡ next.old + spec.count_stmt (functions by_default known.now) (tstmt_of s.now)) }
{
    match s {
        TypedStmt::Empty { line } => Ok(TreeStmt::Empty {
            place: place(*line, next),
        }),
        TypedStmt::Break { line } => Ok(TreeStmt::Break {
            place: place(*line, next),
        }),
        TypedStmt::Continue { line } => Ok(TreeStmt::Continue {
            place: place(*line, next),
        }),
        TypedStmt::Start {
            uniform,
            kind,
            line,
        } => Ok(TreeStmt::Start {
            uniform: *uniform,
            kind: *kind,
            place: place(*line, next),
        }),
        TypedStmt::Block { body, line } => {
            let at = place(*line, next);
            let body = stmts(body.as_slice(), alloc, by_default, known, next)?;
            Ok(block_node(body, at))
        }
        TypedStmt::Group { body } => {
            let body = stmts(body.as_slice(), alloc, by_default, known, next)?;
            Ok(group_node(body))
        }
        TypedStmt::Declare {
            uniform,
            kind,
            value,
            line,
        } => {
            let at = place(*line, next);
            let value = expr(value, alloc, by_default, known, next)?;
            Ok(declare_node(*uniform, *kind, value, at))
        }
        TypedStmt::Set {
            variable,
            operator,
            kind,
            value,
            line,
        } => {
            let at = place(*line, next);
            let value = expr(value, alloc, by_default, known, next)?;
            Ok(set_node(*variable, *operator, *kind, value, at))
        }
        TypedStmt::If { test, then, line } => {
            let at = place(*line, next);
            let test = condition(test, alloc, by_default, known, next)?;
            let then = branch(then, alloc, by_default, known, next)?;
            Ok(if_node(test, then, at))
        }
        TypedStmt::IfElse {
            test,
            then,
            otherwise,
            line,
        } => {
            let at = place(*line, next);
            let test = condition(test, alloc, by_default, known, next)?;
            let then = branch(then, alloc, by_default, known, next)?;
            let otherwise = branch(otherwise, alloc, by_default, known, next)?;
            Ok(if_else_node(test, then, otherwise, at))
        }
        TypedStmt::While { test, body, line } => {
            let at = place(*line, next);
            let test = condition(test, alloc, by_default, known, next)?;
            let body = branch(body, alloc, by_default, known, next)?;
            Ok(while_node(test, body, at))
        }
        TypedStmt::For {
            first,
            test,
            step,
            body,
            line,
        } => {
            let at = place(*line, next);
            let first = stmts(first.as_slice(), alloc, by_default, known, next)?;
            let test = condition(test, alloc, by_default, known, next)?;
            let step = stmts(step.as_slice(), alloc, by_default, known, next)?;
            let body = branch(body, alloc, by_default, known, next)?;
            Ok(for_node(first, test, step, body, at))
        }
        TypedStmt::Lights {
            word,
            args,
            body,
            line,
        } => {
            let at = place(*line, next);
            let args = exprs(args.as_slice(), alloc, by_default, known, next)?;
            let body = branch(body, alloc, by_default, known, next)?;
            Ok(lights_node(*word, args, body, at))
        }
    }
}

// The condition of a statement, in a box: so what is held while the rest of the statement is made is one pointer.
#[cycle(inline)]
fn condition(
    e: &TypedExpr,
    alloc: Global,
    by_default: bool,
    known: &[Known<'_>],
    next: &mut u32,
) -> Result<Box<TreeExpr>, NoMemory>
    requires { next.old + spec.count (functions by_default known.now) (typed_of e.now) ≤ 65536 }
    ensures tree { IfOk result (λ t. tree_expr t.value ≡ spec.inline (functions by_default known.now) next.old (typed_of e.now)) }
    ensures next { OnOk result (next.new ≡ next.old + spec.count (functions by_default known.now) (typed_of e.now)) }
{
    let made = expr(e, alloc, by_default, known, next)?;
    Ok(Box::new(alloc, made)?)
}

#[cycle(inline)]
fn branch(
    s: &TypedStmt,
    alloc: Global,
    by_default: bool,
    known: &[Known<'_>],
    next: &mut u32,
) -> Result<Box<TreeStmt>, NoMemory>
    requires { next.old + spec.count_stmt (functions by_default known.now) (tstmt_of s.now) ≤ 65536 }
    ensures tree { IfOk result (λ t. tree_stmt t.value ≡ spec.inline_stmt (functions by_default known.now) next.old (tstmt_of s.now)) }
    ensures next { OnOk result (next.new ≡ next.old + spec.count_stmt (functions by_default known.now) (tstmt_of s.now)) }
{
    let made = stmt(s, alloc, by_default, known, next)?;
    Ok(Box::new(alloc, made)?)
}

/// The trees of statements one after another, and the number of the node after them.
#[cycle(inline)]
pub fn stmts(
    body: &[TypedStmt],
    alloc: Global,
    by_default: bool,
    known: &[Known<'_>],
    next: &mut u32,
) -> Result<Vec<TreeStmt>, NoMemory>
    requires { next.old + spec.count_stmts (functions by_default known.now) (T.stmts (map tstmt_of body.now)) ≤ 65536 }
    ensures tree { IfOk result (λ v. A.stmts (map tree_stmt v.items) ≡ spec.inline_stmts (functions by_default known.now) next.old (T.stmts (map tstmt_of body.now))) }
    ensures next { OnOk result (next.new ≡ next.old + spec.count_stmts (functions by_default known.now) (T.stmts (map tstmt_of body.now))) }
{
    let mut made = Vec::new(alloc);
    for s in body {
        let one = stmt(s, alloc, by_default, known, next)?;
        made.push(one)?;
    }
    Ok(made)
}

// A parameter of the tree.
fn declared_one(alloc: Global, param: &Param<'_>) -> Result<ParamDecl, NoMemory>
    ensures { IfOk result (λ d. param_type d ≡ spec.declared_of (param_of param.now)) }
{
    let name = param.local.name.copied(alloc)?;
    Ok(ParamDecl {
        name,
        kind: param.local.kind,
        uniform: param.local.uniform,
    })
}

// The parameters of the tree.
pub fn declared(alloc: Global, params: &[Param<'_>]) -> Result<Vec<ParamDecl>, NoMemory>
    ensures { IfOk result (λ v. map param_type v.items ≡ map spec.declared_of (map param_of params.now)) }
{
    let mut made = Vec::new(alloc);
    for param in params {
        let one = declared_one(alloc, param)?;
        made.push(one)?;
    }
    Ok(made)
}

/// The trees of the parameters' defaults, and the number of the node after them.
pub fn defaults(
    alloc: Global,
    params: &[Param<'_>],
    known: &[Known<'_>],
    next: &mut u32,
) -> Result<Vec<ParamDefault>, NoMemory>
    requires { next.old + spec.count_params (functions true known.now) (map param_of params.now) ≤ 65536 }
    ensures tree { IfOk result (λ v. map default_of v.items ≡ spec.defaults_at (functions true known.now) next.old (map param_of params.now)) }
    ensures next { OnOk result (next.new ≡ next.old + spec.count_params (functions true known.now) (map param_of params.now)) }
{
    let mut made = Vec::new(alloc);
    for param in params {
        let at = place(param.local.line, next);
        let value = expr(&param.value, alloc, true, known, next)?;
        made.push(ParamDefault { value, place: at })?;
    }
    Ok(made)
}
