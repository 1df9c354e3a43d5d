// Which parameters a shader's body assigns.
ghost use Rattle.std.specs.Prelude.{◌≡◌, ◌++◌, map, option_map, IfOk, OnOk};
ghost use Rattle.sl_ast.specs.Syntax as U;
ghost use Rattle.sl_ast.specs.SyntaxView.{stmt_of, declared_of, assignment_of};
ghost use Rattle.sl_typing.specs.Assigned as spec;

use fixed_math::{Names, NoMemory, Text};
use sl_ast::{Assignment, Declared, Stmt};
use std::alloc::Global;

// Notes a name that is set, unless a variable of the body has it.
#[tactic(auto, using(crate::proofs::SetNames::with_none))]
fn note<'a>(name: &'a Text, own: &Names<'a>, set: &mut Names<'a>) -> Result<(), NoMemory>
    ensures { OnOk result (set.new ≡ set.old ++ spec.set_outside own.now name.now) }
{
    if own.place_of(name).is_none() {
        set.push(name)?;
    }
    Ok(())
}

#[tactic(auto, using(crate::proofs::SetNames::with_none))]
fn note_if<'a>(
    assignment: &'a Option<Assignment>,
    own: &Names<'a>,
    set: &mut Names<'a>,
) -> Result<(), NoMemory>
    ensures { OnOk result (set.new ≡ set.old ++ spec.set_if own.now (option_map assignment_of assignment.now)) }
{
    match assignment {
        Some(assignment) => note(&assignment.name, own, set),
        None => Ok(()),
    }
}

// Adds names that are declared to those of the body's variables.
#[tactic(auto, using(crate::proofs::SetNames::with_none, crate::proofs::SetNames::names_step))]
fn declare<'a>(names: &'a [Declared], own: &mut Names<'a>) -> Result<(), NoMemory>
    ensures { OnOk result (own.new ≡ own.old ++ map spec.declared_name (map declared_of names.now)) }
{
    for declared in names {
        own.push(&declared.name)?;
    }
    Ok(())
}

// Notes what a statement sets, and adds what it declares to the names of the body's variables.
#[cycle(assigned)]
#[tactic(auto, using(crate::proofs::Nodes::block_is, crate::proofs::SetNames::joined, crate::proofs::SetNames::with_none))]
fn note_stmt<'a>(s: &'a Stmt, own: &mut Names<'a>, set: &mut Names<'a>) -> Result<(), NoMemory>
    ensures set { OnOk result (set.new ≡ set.old ++ spec.sets own.old (stmt_of s.now)) }
    ensures own { OnOk result (own.new ≡ own.old ++ spec.declared_names (stmt_of s.now)) }
{
    match s {
        Stmt::Set { set: assignment } => note(&assignment.name, own, set),
        Stmt::Declare { names, .. } => declare(names.as_slice(), own),
        Stmt::Block { body, .. } => note_block(body.as_slice(), own, set),
        Stmt::If { then, .. } => note_branch(then, own, set),
        Stmt::IfElse {
            then,
            otherwise,
            ..
        } => {
            note_branch(then, own, set)?;
            note_branch(otherwise, own, set)
        }
        Stmt::For {
            first,
            step,
            body,
            ..
        } => {
            note_if(first, own, set)?;
            note_if(step, own, set)?;
            note_branch(body, own, set)
        }
        Stmt::While { body, .. } => note_branch(body, own, set),
        Stmt::Lights { body, .. } => note_branch(body, own, set),
        Stmt::Solar { body, .. } => note_branch(body, own, set),
        Stmt::Empty { .. } | Stmt::Break { .. } | Stmt::Continue { .. } | Stmt::Return { .. } => {
            Ok(())
        }
    }
}

// The same of a statement whose declarations no later one sees.
#[cycle(assigned)]
#[tactic(auto, using(crate::proofs::SetNames::taken_back))]
fn note_branch<'a>(s: &'a Stmt, own: &mut Names<'a>, set: &mut Names<'a>) -> Result<(), NoMemory>
    ensures set { OnOk result (set.new ≡ set.old ++ spec.sets own.old (stmt_of s.now)) }
    ensures own { OnOk result (own.new ≡ own.old) }
{
    let count = own.len();
    note_stmt(s, own, set)?;
    own.truncate(count);
    Ok(())
}

// The same of the statements of a block.
#[cycle(assigned)]
fn note_block<'a>(
    body: &'a [Stmt],
    own: &mut Names<'a>,
    set: &mut Names<'a>,
) -> Result<(), NoMemory>
    ensures set { OnOk result (set.new ≡ set.old ++ spec.sets_all own.old (U.stmts (map stmt_of body.now))) }
    ensures own { OnOk result (own.new ≡ own.old) }
{
    let count = own.len();
    for s in body {
        note_stmt(s, own, set)?;
    }
    own.truncate(count);
    Ok(())
}

/// The names that a shader's body sets where none of its own variables has them.
pub(crate) fn assigned_in<'a>(alloc: Global, body: &'a [Stmt]) -> Result<Names<'a>, NoMemory>
    ensures { IfOk result (λ names. names ≡ spec.assigned_in (U.stmts (map stmt_of body.now))) }
{
    let mut own = Names::new(alloc);
    let mut set = Names::new(alloc);
    note_block(body, &mut own, &mut set)?;
    Ok(set)
}
