// Trees with their codes.
ghost use Rattle.std.specs.Prelude.{◌≡◌, ◌≤◌, IfOk};
ghost use Rattle.sl_ast.specs.Registers.{rows_of};
ghost use Rattle.sl_ast.specs.Settled.{IsSettled};
ghost use Rattle.sl_ast.specs.TreeView.{tree_of};
ghost use Rattle.grid_code.specs.View.{block_of};
ghost use Rattle.mask_codegen.specs.Compiled.{IsCodeOf, NamesVarying, Compiles};

use crate::fault::CodeFault;
use crate::lit::is_ambient;
use crate::looks::look_up_set;
use crate::named::name_all;
use crate::sets::set_of;
use core_codegen::{emit, given_registers, param_slots};
use fixed_math::{List, NoMemory};
use grid_code::{Code, RegisterSet};
use sl_ast::{ParamDecl, Tree};
use sl_look_ups::binding_params;
use sl_lowering::lower_body;
use std::alloc::Global;
use std::marker::Model;
use uniform_varying::rows;

// A tree counts at most so many rows of registers.
const MOST_ROWS: u64 = 4096;

// The code of a settled tree that counts few rows, or want of memory.
fn code_of(alloc: Global, tree: &Tree) -> Result<Code, NoMemory>
    requires settled { IsSettled (tree_of tree.now) }
    requires few { rows_of (tree_of tree.now) ≤ 4096 }
    ensures { IfOk result (λ c. IsCodeOf (tree_of tree.now) c) }
{
    let params = param_slots(alloc, tree.params.as_slice())?;
    let body = lower_body(alloc, tree)?;
    let nodes = emit(alloc, &body, &params)?;
    let mut seen = given_registers(alloc, tree.kind, &params)?;
    name_all(&nodes, &mut seen)?;
    let varying = set_of(alloc, &seen, false)?;
    let uniform = set_of(alloc, &seen, true)?;
    let ambient = is_ambient(tree.kind, &nodes);
    let look_ups = look_up_set(alloc, tree)?;
    Ok(Code {
        kind: tree.kind,
        params: List(params),
        nodes: List(nodes),
        ambient,
        varying,
        uniform,
        look_ups,
    })
}

// The varying registers that code names.
fn named_in(alloc: Global, code: &Code) -> Result<RegisterSet, NoMemory>
    ensures { IfOk result (λ named. NamesVarying named (block_of code.now.nodes)) }
{
    let mut seen = Vec::new(alloc);
    name_all(code.nodes.as_slice(), &mut seen)?;
    set_of(alloc, &seen, false)
}

/// A tree with a code that means it: at each place of a grid the code gives what the tree means there.
///
/// No call gives the tree back, so whoever has this alone can run nothing but its code.
#[derive(Drop)]
pub struct Compiled {
    tree: Tree,
    code: Code,
    named: RegisterSet,
    binding: Vec<ParamDecl>,
}

impl Model for Compiled {
    ghost use Rattle.std.specs.Coded.{codes};
    ghost use Rattle.std.specs.Prelude.{◌≡◌, map};
    ghost use Rattle.sl_ast.specs.TreeView.{tree_of};
    ghost use Rattle.sl_ast.specs.TypedView.{local_of};
    ghost use Rattle.sl_look_ups.specs.Naming.{binding_params};
    ghost use Rattle.sl_ast.specs.contracts.typed.TreeExpr as e;
    ghost use Rattle.sl_ast.specs.contracts.typed.TreeStmt as s;
    ghost use Rattle.grid_code.specs.contracts.code.Node as n;
    ghost use Rattle.grid_code.specs.View.{block_of};
    ghost use Rattle.mask_codegen.specs.Compiled.{Seen, IsCodeOf, NamesVarying};

    ghost Value = { Seen };

    ghost coded = { Prim.hlevel (codes, e.the_row.coded, s.the_row.coded, n.the_row.coded) };

    ghost view = { λ c. record { tree = c.tree; code = c.code } };

    ghost invariant = { λ c. IsCodeOf (tree_of c.tree) c.code × NamesVarying c.named (block_of c.code.nodes) × (map local_of c.binding.items ≡ binding_params (tree_of c.tree)) };
}

impl Compiled {
    ghost use Rattle.std.specs.Prelude.{◌≡◌, map};
    ghost use Rattle.sl_ast.specs.TypedView.{local_of};
    ghost use Rattle.sl_look_ups.specs.Naming.{binding_params};
    ghost use Rattle.sl_ast.specs.TreeView.{tree_of};
    ghost use Rattle.grid_code.specs.View.{block_of};
    ghost use Rattle.mask_codegen.specs.Compiled.{IsCodeOf, NamesVarying};

    /// The parameters of the tree.
    pub fn params(&self) -> &[ParamDecl]
        ensures { result.now ≡ self.now.tree.params }
    {
        self.tree.params.as_slice()
    }

    /// The parameters as variables of primitives bind to them.
    pub fn binding_params(&self) -> &[ParamDecl]
        ensures { map local_of result.now ≡ binding_params (tree_of self.now.tree) }
    {
        self.binding.as_slice()
    }

    /// The code, which is one of the tree, a settled one: of its kind, with its parameters, the text that its body is
    /// emitted as, which means it, with a statement over lights where the tree has one, in at most sixteen rows for each
    /// that the tree counts. Its look-ups are those of the tree, in the order of the text. So the law of uniform
    /// registers holds of it.
    pub fn code(&self) -> &Code
        ensures code { result.now ≡ self.now.code }
        ensures means { IsCodeOf (tree_of self.now.tree) self.now.code }
    {
        &self.code
    }

    /// The varying registers that the code names: what others hold is nothing to it.
    pub fn named(&self) -> &RegisterSet
        ensures { NamesVarying result.now (block_of self.now.code.nodes) }
    {
        &self.named
    }
}

/// A settled tree with its code. `M9` comes exactly where the tree counts more than 4,096 rows of registers. A refused
/// tree is dropped.
pub fn compile(alloc: Global, tree: Tree) -> Result<Compiled, CodeFault>
    requires settled { IsSettled (tree_of tree) }
    ensures { Compiles tree result }
{
    let counted = rows(alloc, &tree)?;
    if counted > MOST_ROWS {
        return Err(CodeFault::M9);
    }
    let code = code_of(alloc, &tree)?;
    let named = named_in(alloc, &code)?;
    let binding = binding_params(alloc, &tree)?;
    Ok(Compiled {
        tree,
        code,
        named,
        binding,
    })
}
