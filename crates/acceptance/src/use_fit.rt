// How the parameters of shader requests fit their shaders.
ghost use Rattle.std.specs.Prelude.{◌≡◌, IfOk, All, map, slice_get, Some};
ghost use Rattle.outside.specs.Library.{Files};
ghost use Rattle.acceptance.specs.UseFit as spec;
ghost use Rattle.acceptance.specs.Shaders.{shader_tree};
ghost use Rattle.acceptance.specs.Reading.{IsReadOf, ArePlaced, BindsUse, BindsUses, declared_by, name_of, tree_read, values_at};
ghost use Rattle.acceptance.specs.Answers.{Clears};

use crate::read::ReadShader;
use crate::shaders::UsedShaders;
use crate::{Refusal, bind, declared_names};
use fixed_math::{List, Names, NoMemory};
use scene_state::ShaderUse;
use sl_ast::Value;
use std::alloc::Global;

/// The names of the parameters that each shader declares.
pub(crate) fn all_declared<'a>(
    alloc: Global,
    shaders: &'a [ReadShader],
) -> Result<Vec<Names<'a>>, NoMemory>
    ensures { IfOk result (λ ds. ds.items ≡ map declared_by shaders.now) }
{
    let mut declared = Vec::new(alloc);
    for shader in shaders {
        declared.push(declared_names(alloc, &shader.tree)?)?;
    }
    Ok(declared)
}

// What the parameters of a request are bound to, where it fits the shader at its place.
fn bind_at(
    alloc: Global,
    request: &ShaderUse,
    shaders: &[ReadShader],
    declared: &[Names<'_>],
    place: usize,
) -> Result<List<Value>, Refusal>
    requires place { slice_get (map name_of shaders.now) place ≡ Some request.now.name }
    requires declared { declared.now ≡ map declared_by shaders.now }
    ensures clears { (files : Files) → All (IsReadOf files) shaders.now → Clears result (spec.use_refused request.now (shader_tree files request.now.name)) }
    ensures binds { BindsUse request.now (slice_get (map tree_read shaders.now) place) (values_at shaders.now request.now place) result }
{
    let shader = &shaders[place];
    bind(alloc, &shader.tree, &declared[place], request)
}

/// What the parameters of all shader requests of a scene are bound to, where they fit their shaders, which have been read.
pub(crate) fn bind_all(
    alloc: Global,
    uses: &[ShaderUse],
    shaders: &UsedShaders,
) -> Result<Vec<List<Value>>, Refusal>
    requires { ArePlaced uses.now shaders.now }
    ensures clears { (files : Files) → All (IsReadOf files) shaders.now.read → Clears result (spec.uses_refused files uses.now) }
    ensures binds { BindsUses uses.now shaders.now result }
{
    let read = shaders.read.as_slice();
    let of_use = shaders.of_use.as_slice();
    let declared = all_declared(alloc, read)?;
    let mut values = Vec::new(alloc);
    for index in 0..uses.len() {
        let place = of_use[index] as usize;
        let bound = bind_at(alloc, &uses[index], read, &declared, place)?;
        values.push(bound)?;
    }
    Ok(values)
}
