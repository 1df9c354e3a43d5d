// What the parameters of shader requests are bound to.
ghost use Rattle.std.specs.Prelude.{◌≡◌, ◌<◌, IfOk, length, map, option_map, slice_get};
ghost use Rattle.rib_reader.specs.Holding.{last_named};
ghost use Rattle.sl_ast.specs.Settled.{IsSettled};
ghost use Rattle.sl_ast.specs.TreeView.{tree_of};
ghost use Rattle.acceptance.specs.RequestFit.{param_name};
ghost use Rattle.acceptance.specs.Bound as spec;

use builtins::image;
use fixed_math::{List, Names, NoMemory, Num, Text, Vec3};
use scene::{Param, ShaderUse, Values};
use sl_ast::{SlType, Tree, Value};
use sl_evaluation::default_value;
use std::alloc::Global;
use transforms::{Affine, Spaces};

// The number at that place, 0 where there is none.
fn number_at(values: &Values, index: usize) -> Num
    ensures { result ≡ spec.number_at values.now index }
{
    match values {
        Values::Numbers(numbers) => match numbers.as_slice().get(index) {
            Some(number) => *number,
            None => Num::sat(0),
        },
        Values::Strings(_) => Num::sat(0),
    }
}

fn triple_in(values: &Values) -> Vec3
    ensures { result ≡ spec.triple_in values.now }
{
    Vec3 {
        x: number_at(values, 0),
        y: number_at(values, 1),
        z: number_at(values, 2),
    }
}

// The first string, the empty one where there is none.
fn word_in(alloc: Global, values: &Values) -> Result<Text, NoMemory>
    ensures { IfOk result (λ t. t ≡ spec.word_in values.now) }
{
    match values {
        Values::Numbers(_) => Text::from_bytes(alloc, b""),
        Values::Strings(texts) => match texts.as_slice().get(0) {
            Some(text) => text.copied(alloc),
            None => Text::from_bytes(alloc, b""),
        },
    }
}

// What is given for a parameter of that type, in camera space.
fn given_value(
    alloc: Global,
    kind: SlType,
    space: &Affine,
    values: &Values,
) -> Result<Value, NoMemory>
    ensures { IfOk result (λ v. v ≡ spec.given_value kind space.now values.now) }
{
    Ok(match kind {
        SlType::Float => Value::Number(number_at(values, 0)),
        SlType::Str => Value::Word(word_in(alloc, values)?),
        SlType::Color | SlType::Point | SlType::Vector | SlType::Normal => {
            Value::Triple(image(kind, space, triple_in(values)))
        }
    })
}

// The parameter at that place, where there is one.
fn param_at(params: &[Param], place: usize) -> Option<&Param>
    ensures { option_map (λ p. p.now) result ≡ slice_get params.now place }
{
    params.get(place)
}

// The last value of that name of a request, whose parameters have these names.
fn given<'a>(params: &'a [Param], names: &Names<'_>, name: &Text) -> Option<&'a Param>
    requires { names.now ≡ map param_name params.now }
    ensures { option_map (λ p. p.now) result ≡ last_named name.now params.now }
{
    match names.place_of(name) {
        Some(place) => param_at(params, place),
        None => None,
    }
}

// The spaces of a default.
fn default_spaces(space: &Affine) -> Spaces
    ensures { result ≡ spec.default_spaces space.now }
{
    Spaces {
        world: Affine::identity(),
        object: Affine::identity(),
        shader: *space,
        near: Num::sat(0),
        far: Num::sat(0),
        flip: false,
    }
}

// The default of the parameter with that index.
#[tactic(auto, unfolding(crate::specs::Bound::default_in))]
fn default_in(alloc: Global, tree: &Tree, space: &Affine, index: u32) -> Result<Value, NoMemory>
    requires settled { IsSettled (tree_of tree.now) }
    requires there { index < length tree.now.params }
    ensures { IfOk result (λ v. v ≡ spec.default_in (tree_of tree.now) space.now index) }
{
    default_value(alloc, tree, index, &default_spaces(space))
}

// The value of the parameter with that index, where the request's parameters have these names.
fn bound_value(
    alloc: Global,
    tree: &Tree,
    request: &ShaderUse,
    names: &Names<'_>,
    index: u32,
) -> Result<Value, NoMemory>
    requires settled { IsSettled (tree_of tree.now) }
    requires there { index < length tree.now.params }
    requires names { names.now ≡ map param_name request.now.params }
    ensures { IfOk result (λ v. v ≡ spec.bound_value (tree_of tree.now) request.now index) }
{
    let param = &tree.params.as_slice()[index as usize];
    match given(request.params.as_slice(), names, &param.name) {
        Some(given) => given_value(alloc, param.kind, &request.space, &given.values),
        None => default_in(alloc, tree, &request.space, index),
    }
}

// The number of a tree's parameters, each of which is a node.
fn param_count(tree: &Tree) -> u32
    ensures { result ≡ length tree.now.params }
{
    tree.params.len() as u32
}

// The names of parameters.
fn names_of<'a>(alloc: Global, params: &'a [Param]) -> Result<Names<'a>, NoMemory>
    ensures { IfOk result (λ n. n ≡ map param_name params.now) }
{
    let mut names = Names::new(alloc);
    for param in params {
        names.push(&param.name)?;
    }
    Ok(names)
}

/// What the parameters of a request are bound to over its shader's tree.
pub(crate) fn bound_values(
    alloc: Global,
    tree: &Tree,
    request: &ShaderUse,
) -> Result<List<Value>, NoMemory>
    requires { IsSettled (tree_of tree.now) }
    ensures { IfOk result (λ vs. vs ≡ spec.bound_values (tree_of tree.now) request.now) }
{
    let names = names_of(alloc, request.params.as_slice())?;
    let mut values = Vec::new(alloc);
    for index in 0..param_count(tree) {
        values.push(bound_value(alloc, tree, request, &names, index)?)?;
    }
    Ok(List(values))
}
