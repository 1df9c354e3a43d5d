// The value of a parameter's default.
ghost use Rattle.std.specs.Prelude.{◌≡◌, ◌<◌, length, IfOk, [], true};
ghost use Rattle.sl_ast.specs.Settled.{IsSettled};
ghost use Rattle.sl_ast.specs.TreeView.{tree_of};
ghost use Rattle.sl_ast.specs.TypedView.{default_of};
ghost use Rattle.sl_meaning.specs.Defaults as spec;
ghost use Rattle.sl_meaning.specs.Lowered.{expr};
ghost use Rattle.sl_evaluation.specs.Constant.{IsConstant};

use crate::evaluate::{in_kind, value};
use crate::scope::Scope;
use fixed_math::NoMemory;
use sl_ast::{ParamDefault, SlType, Tree, Value};
use sl_lowering::lower_default;
use std::alloc::Global;
use transforms::Spaces;

// The most turns of a loop: as many as the budget has.
const TURNS: u32 = 65536;

fn evaluated(
    alloc: Global,
    default: &ParamDefault,
    kind: SlType,
    spaces: &Spaces,
) -> Result<Value, NoMemory>
    requires { IsConstant (expr (default_of default.now).value [] true) }
    ensures { IfOk result (λ v. v ≡ spec.evaluated kind (default_of default.now).value spaces.now) }
{
    let mut scope = Scope::new(alloc);
    let expression = lower_default(alloc, default)?;
    let found = value(&expression, alloc, spaces, TURNS, &mut scope)?;
    in_kind(alloc, kind, &found)
}

/// The value of the default of the parameter with that index: that of its expression, run by itself with full budgets, in
/// the type of the parameter (Shading Language, RenderMan Interface 3.2, section 11).
///
/// The tree is settled, and the parameter is there. A default in a settled tree is uniform, so it holds no sum over lights,
/// no difference and nothing that reads `Ng`; a typed one sees no predefined variable but `PI`, and the functions that
/// it calls hold no statement over lights. So it meets no light, no neighbour in a grid and no variable of a point, and
/// all its loops are uniform. The one refusal is want of memory.
pub fn default_value(
    alloc: Global,
    tree: &Tree,
    param: u32,
    spaces: &Spaces,
) -> Result<Value, NoMemory>
    requires settled { IsSettled (tree_of tree.now) }
    requires there { param < length tree.now.params }
    ensures { IfOk result (λ v. v ≡ spec.default_of (tree_of tree.now) param spaces.now) }
{
    let index = param as usize;
    let kind = tree.params.as_slice()[index].kind;
    let default = &tree.defaults.as_slice()[index];
    evaluated(alloc, default, kind, spaces)
}
