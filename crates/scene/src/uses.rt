// Shader requests, and copies of parameters.
ghost use Rattle.std.specs.Prelude.{◌≡◌, IfOk};

use crate::{Param, Values};
use fixed_math::{List, NoMemory, Num, Text};
use std::alloc::Global;
use transforms::Affine;

/// The kinds of shaders (RenderMan Interface 3.2, part II). An atmosphere is a volume.
#[derive(Debug, Clone, Copy, PartialEq, Eq)]
pub enum ShaderKind {
    Surface,
    Displacement,
    Light,
    Volume,
}

/// A request for a shader: its name, its parameters, the map from its shader space to camera space, and the request's line.
#[derive(Drop)]
pub struct ShaderUse {
    pub name: Text,
    pub kind: ShaderKind,
    pub params: List<Param>,
    pub space: Affine,
    pub line: u32,
}

fn texts_copy(alloc: Global, texts: &[Text]) -> Result<List<Text>, NoMemory>
    ensures { IfOk result (λ t. t ≡ texts.now) }
{
    let mut copies = Vec::new(alloc);
    for text in texts {
        copies.push(text.copied(alloc)?)?;
    }
    Ok(List(copies))
}

fn numbers_copy(alloc: Global, numbers: &[Num]) -> Result<List<Num>, NoMemory>
    ensures { IfOk result (λ n. n ≡ numbers.now) }
{
    let mut copies = Vec::new(alloc);
    copies.extend_from_slice(numbers)?;
    Ok(List(copies))
}

fn values_copy(alloc: Global, values: &Values) -> Result<Values, NoMemory>
    ensures { IfOk result (λ v. v ≡ values.now) }
{
    Ok(match values {
        Values::Numbers(numbers) => Values::Numbers(numbers_copy(alloc, numbers.as_slice())?),
        Values::Strings(texts) => Values::Strings(texts_copy(alloc, texts.as_slice())?),
    })
}

/// A copy of a parameter.
pub fn param_copy(alloc: Global, param: &Param) -> Result<Param, NoMemory>
    ensures { IfOk result (λ p. p ≡ param.now) }
{
    Ok(Param {
        name: param.name.copied(alloc)?,
        class: param.class,
        kind: param.kind,
        values: values_copy(alloc, &param.values)?,
    })
}

/// A copy of parameters.
pub fn params_copy(alloc: Global, params: &[Param]) -> Result<List<Param>, NoMemory>
    ensures { IfOk result (λ p. p ≡ params.now) }
{
    let mut copies = Vec::new(alloc);
    for param in params {
        copies.push(param_copy(alloc, param)?)?;
    }
    Ok(List(copies))
}
