// How great the tree with functions in place is, without that tree.
ghost use Rattle.std.specs.Prelude.{List, ◌≡◌, ◌≤◌, [], IfOk, get_or, map, false, true};
ghost use Rattle.sl_ast.specs.Syntax as U;
ghost use Rattle.sl_types.specs.Checked.{is_within};
ghost use Rattle.sl_types.specs.Inline.{tree_of};
ghost use Rattle.sl_types.specs.Extents as E;
ghost use Rattle.sl_types.specs.Sizes as S;
ghost use Rattle.sl_types.specs.Folds.{fold, fold_args, fold_stmt, fold_stmts, fold_body};
ghost use Rattle.sl_expressions.specs.Scope.{body_in};
ghost use Rattle.sl_expressions.specs.Typed as T;
ghost use Rattle.sl_expressions.specs.TypedView.{typed_of, tlink_of, tstmt_of};
ghost use Rattle.sl_typing.specs.Functions as F;
ghost use Rattle.sl_types.specs.Sizes.{extent_of};
ghost use Rattle.sl_expressions.specs.Views.{body_of, callee_of};
ghost use Rattle.sl_typing.specs.Views.{param_of, program_of};

use sl_typing::{Body, Faulty, Known, Param, Program, TypedExpr, TypedLink, TypedStmt};
use std::alloc::{AllocError, Global};
use std::cmp::{max, min};

/// How many nodes there are, and how many stand one in another, up to one more than is allowed.
#[derive(Clone, Copy)]
pub struct Extent {
    pub nodes: u32,
    pub depth: u32,
}

const NOWHERE: Extent = Extent { nodes: 0, depth: 0 };

const ABSENT: Extent = Extent { nodes: 2, depth: 2 };

// A node over such parts.
#[tactic(auto, using(crate::proofs::Joins::over_is))]
fn over(x: Extent) -> Extent
    ensures { (y : E.Extent) → extent_of x ≡ S.cut y → extent_of result ≡ S.cut (E.under y) }
{
    Extent {
        nodes: 1 + min(x.nodes, 65536),
        depth: 1 + min(x.depth, 256),
    }
}

// Parts beside each other.
#[tactic(auto, using(crate::proofs::Joins::with_is))]
fn with(x: Extent, y: Extent) -> Extent
    ensures { (u v : E.Extent) → extent_of x ≡ S.cut u → extent_of y ≡ S.cut v → extent_of result ≡ S.cut (E.beside u v) }
{
    let nodes = x.nodes as u64 + y.nodes as u64;
    Extent {
        nodes: min(nodes, 65537) as u32,
        depth: min(max(x.depth, y.depth), 257),
    }
}

// An operator over two operands.
fn pair(x: Extent, y: Extent) -> Extent
    ensures { (u v : E.Extent) → extent_of x ≡ S.cut u → extent_of y ≡ S.cut v → extent_of result ≡ S.cut (E.under (E.beside u (E.beside v E.nowhere))) }
{
    over(with(x, y))
}

// What a function does.
fn size_of(sizes: &[Extent], k: usize) -> Extent
    ensures { extent_of result ≡ get_or (map extent_of sizes.now) k E.absent }
{
    match sizes.get(k) {
        Some(size) => *size,
        None => ABSENT,
    }
}

#[cycle(size)]
#[tactic(auto, using(crate::proofs::TypedNodes::apply_shown, crate::proofs::TypedNodes::call_shown, crate::proofs::Chains::chain_shown))]
fn size(e: &TypedExpr, sizes: &[Extent]) -> Extent
    ensures { (fs : List E.Extent) → map extent_of sizes.now ≡ map S.cut fs → extent_of result ≡ S.cut (fold E.counting fs (typed_of e.now)) }
{
    match e {
        TypedExpr::Number { .. } => over(NOWHERE),
        TypedExpr::Word { .. } => over(NOWHERE),
        TypedExpr::Variable { .. } => over(NOWHERE),
        TypedExpr::Apply { args, .. } => over(size_args(args.as_slice(), sizes)),
        TypedExpr::Chain {
            first,
            links,
            operand,
            ..
        } => {
            let before = size_links(links.as_slice(), sizes, size(first, sizes));
            pair(before, size(operand, sizes))
        }
        TypedExpr::Call { function, args, .. } => {
            let parts = size_args(args.as_slice(), sizes);
            over(with(parts, size_of(sizes, *function)))
        }
    }
}

#[cycle(size)]
fn size_args(args: &[TypedExpr], sizes: &[Extent]) -> Extent
    ensures { (fs : List E.Extent) → map extent_of sizes.now ≡ map S.cut fs → extent_of result ≡ S.cut (fold_args E.counting fs (T.exprs (map typed_of args.now))) }
{
    let mut before = NOWHERE;
    for e in args {
        before = with(before, size(e, sizes));
    }
    before
}

// Operators after what is so great.
#[cycle(size)]
fn size_links(links: &[TypedLink], sizes: &[Extent], first: Extent) -> Extent
    ensures { (fs : List E.Extent) (e : T.Expr) → map extent_of sizes.now ≡ map S.cut fs → S.IsCutOf first (fold E.counting fs e) → S.IsCutOf result (fold E.counting fs (T.chained e (map tlink_of links.now))) }
{
    let mut before = first;
    for link in links {
        before = pair(before, size(&link.operand, sizes));
    }
    before
}

#[cycle(size_stmt)]
#[tactic(auto, using(crate::proofs::TypedNodes::block_shown, crate::proofs::TypedNodes::group_shown, crate::proofs::TypedNodes::for_shown))]
fn size_stmt(s: &TypedStmt, sizes: &[Extent]) -> Extent
    ensures { (fs : List E.Extent) → map extent_of sizes.now ≡ map S.cut fs → extent_of result ≡ S.cut (fold_stmt E.counting fs (tstmt_of s.now)) }
{
    match s {
        TypedStmt::Empty { .. } => over(NOWHERE),
        TypedStmt::Break { .. } => over(NOWHERE),
        TypedStmt::Continue { .. } => over(NOWHERE),
        TypedStmt::Start { .. } => over(NOWHERE),
        TypedStmt::Block { body, .. } => over(size_stmts(body.as_slice(), sizes)),
        TypedStmt::Group { body } => size_stmts(body.as_slice(), sizes),
        TypedStmt::Declare { value, .. } => over(size(value, sizes)),
        TypedStmt::Set { value, .. } => over(size(value, sizes)),
        TypedStmt::If { test, then, .. } => over(with(size(test, sizes), size_stmt(then, sizes))),
        TypedStmt::IfElse {
            test,
            then,
            otherwise,
            ..
        } => {
            let branches = with(size_stmt(then, sizes), size_stmt(otherwise, sizes));
            over(with(size(test, sizes), branches))
        }
        TypedStmt::While { test, body, .. } => over(with(
            size(test, sizes),
            size_stmt(body, sizes),
        )),
        TypedStmt::For {
            first,
            test,
            step,
            body,
            ..
        } => {
            let turn = with(size_stmts(step.as_slice(), sizes), size_stmt(body, sizes));
            let tested = with(size(test, sizes), turn);
            over(with(size_stmts(first.as_slice(), sizes), tested))
        }
        TypedStmt::Lights { args, body, .. } => {
            over(with(size_args(args.as_slice(), sizes), size_stmt(body, sizes)))
        }
    }
}

#[cycle(size_stmt)]
fn size_stmts(body: &[TypedStmt], sizes: &[Extent]) -> Extent
    ensures { (fs : List E.Extent) → map extent_of sizes.now ≡ map S.cut fs → extent_of result ≡ S.cut (fold_stmts E.counting fs (T.stmts (map tstmt_of body.now))) }
{
    let mut before = NOWHERE;
    for s in body {
        before = with(before, size_stmt(s, sizes));
    }
    before
}

fn size_body(body: &Result<Body, Faulty>, sizes: &[Extent]) -> Extent
    ensures { (fs : List E.Extent) → map extent_of sizes.now ≡ map S.cut fs → extent_of result ≡ S.cut (fold_body E.counting fs (body_of body.now)) }
{
    match body {
        Ok(body) => with(
            size_stmts(body.stmts.as_slice(), sizes),
            over(size(&body.value, sizes)),
        ),
        Err(_) => ABSENT,
    }
}

fn size_known(by_default: bool, known: &Known<'_>, sizes: &[Extent]) -> Extent
    ensures { (fs : List E.Extent) → map extent_of sizes.now ≡ map S.cut fs → extent_of result ≡ S.cut (fold_body E.counting fs (body_in by_default (callee_of known.now))) }
{
    if by_default {
        size_body(&known.by_default, sizes)
    } else {
        size_body(&known.body, sizes)
    }
}

// The sizes of what the functions do, each from those before it.
fn sizes_from(
    alloc: Global,
    by_default: bool,
    known: &[Known<'_>],
) -> Result<Vec<Extent>, AllocError>
    ensures { IfOk result (λ v. map extent_of v.items ≡ map S.cut (S.extents_from by_default [] (map callee_of known.now))) }
{
    let mut sizes = Vec::new(alloc);
    for one in known {
        let size = size_known(by_default, one, sizes.as_slice());
        sizes.push(size)?;
    }
    Ok(sizes)
}

fn size_params(params: &[Param<'_>], sizes: &[Extent]) -> Extent
    ensures { (fs : List E.Extent) → map extent_of sizes.now ≡ map S.cut fs → extent_of result ≡ S.cut (E.extent_params fs (map param_of params.now)) }
{
    let mut before = NOWHERE;
    for one in params {
        before = with(before, over(size(&one.value, sizes)));
    }
    before
}

// The size of the whole tree: the shader's node, its parameters and its body.
fn size_program(alloc: Global, program: &Program<'_>) -> Result<Extent, AllocError>
    ensures { IfOk result (λ x. extent_of x ≡ S.cut (S.extent_program (program_of program.now))) }
{
    let by_default = sizes_from(alloc, true, program.known.as_slice())?;
    let sizes = sizes_from(alloc, false, program.known.as_slice())?;
    let params = size_params(program.params.as_slice(), by_default.as_slice());
    let body = size_stmts(program.body.as_slice(), sizes.as_slice());
    Ok(over(with(params, body)))
}

fn fits(x: Extent) -> bool
    ensures { result ≡ S.fits (extent_of x) }
{
    x.nodes < 65537 && x.depth < 257
}

/// Whether the tree with functions in place has at most 65,536 nodes, and at most 256 in one another. The tree isn't built:
/// it may be exponential in the text.
pub fn is_within(alloc: Global, program: &Program<'_>) -> Result<bool, AllocError>
    ensures { IfOk result (λ b. (s : U.Shader) → b ≡ is_within (tree_of s (program_of program.now))) }
{
    let whole = size_program(alloc, program)?;
    Ok(fits(whole))
}
