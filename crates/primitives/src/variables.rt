// The variables of primitives.
ghost use Rattle.std.specs.Prelude.{◌≡◌, ◌+◌, ◌*◌, ◌≤◌, ◌++◌, true, not, All, IfOk, filter, length, map};
ghost use Rattle.rib_reader.specs.Lists.{is_points};
ghost use Rattle.scene.specs.Kinds.{width, count};
ghost use Rattle.scene.specs.Seats.{IsOfKind};
ghost use Rattle.primitives.specs.Variables.{variables_in, values_in, is_counted, are_counted};

use crate::seat::Extent;
use fixed_math::NoMemory;
use rib_reader::{Request, holding};
use scene::{Class, Kind, Param, RequestVariables, Shared, Values};
use std::alloc::Global;

// Those that aren't points.
fn without_points<'a>(alloc: Global, held: &[&'a Param]) -> Result<Vec<&'a Param>, NoMemory>
    ensures { IfOk result (λ r. r.items ≡ filter (λ p. not (is_points p.now.name)) held.now) }
{
    let others = held
        .iter()
        .copied()
        .filter(|param| param.name.as_str() != "P");
    Ok(others.collect(alloc)?)
}

// The variables that a primitive has: those of its list that hold, without its points.
fn held_by<'a>(alloc: Global, request: &'a Request) -> Result<Vec<&'a Param>, NoMemory>
    ensures value { IfOk result (λ held. map (λ p. p.now) held.items ≡ variables_in request.now.params) }
    ensures kinds { IfOk result (λ _. All IsOfKind (variables_in request.now.params)) }
{
    let held = holding(alloc, request.variables())?;
    let others = without_points(alloc, &held)?;
    Ok(others)
}

/// The variables that a primitive has, for all its patches.
pub(crate) fn variables_in(
    alloc: Global,
    request: &Request,
) -> Result<Shared<RequestVariables>, NoMemory>
    ensures value { IfOk result (λ held. held ≡ variables_in request.now.params) }
    ensures kinds { IfOk result (λ held. All IsOfKind held) }
{
    let held = held_by(alloc, request)?;
    let variables = RequestVariables::new(alloc, &held)?;
    Shared::new(alloc, variables)
}

/// How many numbers or strings a value of that kind has.
pub(crate) fn width(kind: Kind) -> usize
    ensures { result ≡ width kind }
{
    match kind {
        Kind::Float | Kind::Str => 1,
        Kind::Pair => 2,
        _ => 3,
    }
}

fn count(values: &Values) -> usize
    ensures { result ≡ count values.now }
{
    match values {
        Values::Numbers(numbers) => numbers.0.len(),
        Values::Strings(strings) => strings.0.len(),
    }
}

// How many values a variable of that class has.
fn values_in(class: Class, extent: &Extent) -> usize
    ensures { result ≡ values_in class extent.now }
{
    match class {
        Class::Constant => 1,
        Class::Uniform => extent.faces,
        Class::Varying | Class::Vertex => extent.points,
        Class::FaceVarying => extent.corners,
    }
}

fn is_counted(extent: &Extent, param: &Param) -> bool
    ensures { result ≡ is_counted extent.now param.now }
{
    let values = values_in(param.class, extent) as u128;
    count(&param.values) as u128 == width(param.kind) as u128 * values
}

/// Whether each variable has as many numbers or strings as its values take.
pub(crate) fn are_counted(extent: &Extent, params: &[Param]) -> bool
    ensures { result ≡ are_counted extent.now params.now }
{
    for param in params {
        if !is_counted(extent, param) {
            return false;
        }
    }
    true
}
