// The typed tree of a file, or its first fault.
ghost use Rattle.std.specs.Prelude.{◌≡◌, IfOk, Ok, Err, true, map, option_map, if◌then◌else◌};
ghost use Rattle.sl_expressions.specs.declared.faults.TypeCode.TheVariants.{M8};
ghost use Rattle.sl_ast.specs.Settled.{IsSettled, unsettled};
ghost use Rattle.sl_ast.specs.ShaderView.{shader_of};
ghost use Rattle.sl_ast.specs.TreeView.{tree_of};
ghost use Rattle.sl_ast.specs.WellTyped.{well_typed};
ghost use Rattle.sl_types.specs.Checked as spec;
ghost use Rattle.sl_types.specs.Distinct.{are_distinct};
ghost use Rattle.sl_types.specs.Inline.{tree_of as inlined};
ghost use Rattle.sl_expressions.specs.Views.{Gives};
ghost use Rattle.sl_typing.specs.Views.{program_of};
ghost use Rattle.uniform_varying.specs.Gives.{fault_of};

use crate::inline::{declared, defaults, place, stmts};
use crate::sizes::is_within;
use fixed_math::{List, NoMemory};
use sl_ast::{ControlCode, Shader, Tree};
use sl_typing::{Program, TypeCode, TypeFault, program};
use std::alloc::Global;
use uniform_varying::{ControlFault, first_fault};

fn limited<'a>(within: bool, program: Program<'a>, line: u32) -> Result<Program<'a>, TypeFault>
    ensures { Gives program_of result (if within then Ok (program_of program.entry) else Err (M8, line)) }
{
    if !within {
        return Err(TypeFault::At {
            code: TypeCode::M8,
            line,
        });
    }
    Ok(program)
}

// The typed functions, parameters and body of a file, as far as its tree is within the limits.
fn sized<'a>(alloc: Global, shader: &'a Shader) -> Result<Program<'a>, TypeFault>
    ensures { Gives program_of result (spec.sized (shader_of shader.now)) }
{
    let program = program(alloc, shader)?;
    let within = is_within(alloc, &program)?;
    limited(within, program, shader.line)
}

// The tree of a file whose program is within the limits.
fn tree(alloc: Global, shader: &Shader, program: &Program<'_>) -> Result<Tree, NoMemory>
    requires within { spec.is_within (inlined (shader_of shader.now) (program_of program.now)) ≡ true }
    requires typed { well_typed (inlined (shader_of shader.now) (program_of program.now)) ≡ true }
    ensures { IfOk result (λ t. tree_of t ≡ inlined (shader_of shader.now) (program_of program.now)) }
{
    let known = program.known.as_slice();
    let mut next = 0;
    let at = place(shader.line, &mut next);
    let params = declared(alloc, program.params.as_slice())?;
    let defaults = defaults(alloc, program.params.as_slice(), known, &mut next)?;
    let body = stmts(program.body.as_slice(), alloc, false, known, &mut next)?;
    Ok(Tree {
        kind: shader.kind,
        params: List(params),
        defaults: List(defaults),
        body: List(body),
        place: at,
        nodes: next,
    })
}

// The codes of the faults of classes and control.
fn code_of(code: ControlCode) -> TypeCode
    ensures { result ≡ spec.code_of code }
{
    match code {
        ControlCode::T3 => TypeCode::T3,
        ControlCode::T4 => TypeCode::T4,
        ControlCode::T5 => TypeCode::T5,
        ControlCode::T9 => TypeCode::T9,
        ControlCode::T11 => TypeCode::T11,
    }
}

fn settled(tree: Tree, found: Option<ControlFault>) -> Result<Tree, TypeFault>
    requires { option_map fault_of found ≡ unsettled (tree_of tree) }
    ensures gives { Gives tree_of result (spec.settled (tree_of tree) (option_map fault_of found)) }
    ensures settled { IfOk result (λ t. IsSettled (tree_of t)) }
    ensures kept { IfOk result (λ t. t ≡ tree) }
{
    match found {
        None => Ok(tree),
        Some(first) => Err(TypeFault::At {
            code: code_of(first.code),
            line: first.line,
        }),
    }
}

/// The typed tree of a file, in which functions stand in place of their calls, or its first fault (Shading Language,
/// RenderMan Interface 3.2, sections 11 to 16).
///
/// The faults of names, types, kinds of shaders and places come first, in the order of the text; those of a function are
/// told once, where it is first called. Then `M8` stands at the line of the shader whose tree is too great: more than 65,536
/// nodes, or more than 256 in one another. The faults of classes and control come last, in the order of the text: no such
/// fault stands in a tree that is given. No two of its parameters have one name.
pub fn check(alloc: Global, shader: &Shader) -> Result<Tree, TypeFault>
    ensures gives { Gives tree_of result (spec.checked (shader_of shader.now)) }
    ensures settled { IfOk result (λ t. IsSettled (tree_of t)) }
    ensures distinct { IfOk result (λ t. are_distinct (map (λ l. l.name) (tree_of t).params) ≡ true) }
{
    let program = sized(alloc, shader)?;
    let tree = tree(alloc, shader, &program)?;
    let found = first_fault(alloc, &tree)?;
    settled(tree, found)
}
