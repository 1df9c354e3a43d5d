// What a list says of its variables.
ghost use Rattle.std.specs.Prelude.{◌≡◌, IfOk, option_map, codes};
ghost use Rattle.rib_reader.specs.Rules.{follows_of};
ghost use Rattle.rib_reader.specs.Holding.{is_named};
ghost use Rattle.rib_reader.specs.Lists.{is_points, needed, is_as_needed, is_vertex, is_bound, is_counted, kind_code, name_code, count_code, own_code, param_code, whole_code, params_code, request_code, numbers_held, points_in};
ghost use Rattle.scene.specs.Kinds.{width, count, is_of_kind};

use crate::args::Arg;
use crate::codes::{code_when, lower_of};
use crate::faults::RibCode;
use crate::follows::Follows;
use crate::later::last_named;
use crate::list_values::is_string;
use crate::req::Req;
use crate::rules::{args_fault, following};
use crate::texts::is_word;
use fixed_math::{NoMemory, Num, Text};
use scene::{Class, Kind, Param, Values};
use std::alloc::Global;

// How many numbers or strings a value of that kind has.
fn width(kind: Kind) -> usize
    ensures { result ≡ width kind }
{
    match kind {
        Kind::Float | Kind::Str => 1,
        Kind::Pair => 2,
        _ => 3,
    }
}

fn count(values: &Values) -> usize
    ensures { result ≡ count values.now }
{
    match values {
        Values::Numbers(numbers) => numbers.0.len(),
        Values::Strings(strings) => strings.0.len(),
    }
}

fn is_of_kind(kind: Kind, values: &Values) -> bool
    ensures { result ≡ is_of_kind kind values.now }
{
    match values {
        Values::Numbers(_) => !is_string(kind),
        Values::Strings(_) => is_string(kind),
    }
}

fn is_points(name: &Text) -> bool
    ensures { result ≡ is_points name.now }
{
    is_word(name, "P")
}

// The kind that a primitive's variable of that name must have.
fn needed(name: &Text) -> Option<Kind>
    ensures { result ≡ needed name.now }
{
    if is_points(name) {
        Some(Kind::Point)
    } else if is_word(name, "N") {
        Some(Kind::Normal)
    } else if is_word(name, "Cs") || is_word(name, "Os") {
        Some(Kind::Color)
    } else if is_word(name, "s") || is_word(name, "t") {
        Some(Kind::Float)
    } else if is_word(name, "st") {
        Some(Kind::Pair)
    } else {
        None
    }
}

fn is_as_needed(needed: Option<Kind>, kind: Kind) -> bool
    ensures { result ≡ is_as_needed needed kind }
{
    matches!(
        (needed, kind),
        (None, _)
            | (Some(Kind::Point), Kind::Point)
            | (Some(Kind::Normal), Kind::Normal)
            | (Some(Kind::Color), Kind::Color)
            | (Some(Kind::Float), Kind::Float)
            | (Some(Kind::Pair), Kind::Pair)
    )
}

fn kind_fault(name: &Text, kind: Kind) -> Option<RibCode>
    ensures { result ≡ kind_code name.now kind }
{
    code_when(!is_as_needed(needed(name), kind), RibCode::S3)
}

fn is_vertex(class: Class) -> bool
    ensures { result ≡ is_vertex class }
{
    matches!(class, Class::Vertex)
}

fn is_bound(name: &Text, kind: Kind) -> bool
    ensures { result ≡ is_bound name.now kind }
{
    match kind {
        Kind::Float => is_word(name, "sphere"),
        _ => false,
    }
}

/// What a list says of a variable's name, class and kind.
pub fn name_fault(follows: Follows, name: &Text, class: Class, kind: Kind) -> Option<RibCode>
    ensures { result ≡ name_code follows name.now class kind }
{
    match follows {
        Follows::Bound => code_when(!is_bound(name, kind), RibCode::S5),
        Follows::Variables => kind_fault(name, kind),
        Follows::Bicubic => lower_of(
            kind_fault(name, kind),
            code_when(is_vertex(class) && !is_points(name), RibCode::S2),
        ),
        Follows::Quadric => lower_of(
            kind_fault(name, kind),
            code_when(is_points(name), RibCode::S3),
        ),
        _ => None,
    }
}

fn is_counted(follows: Follows) -> bool
    ensures { result ≡ is_counted follows }
{
    matches!(follows, Follows::Bound | Follows::Parameters)
}

/// What a list says of the number of a variable's numbers or strings.
pub fn count_fault(follows: Follows, kind: Kind, values: &Values) -> Option<RibCode>
    ensures { result ≡ count_code follows kind values.now }
{
    code_when(
        is_counted(follows) && count(values) != width(kind),
        RibCode::S5,
    )
}

// The code of a variable in that list.
fn own_fault(follows: Follows, param: &Param) -> Option<RibCode>
    ensures { result ≡ own_code follows param.now }
{
    lower_of(
        name_fault(follows, &param.name, param.class, param.kind),
        count_fault(follows, param.kind, &param.values),
    )
}

fn param_fault(follows: Follows, param: &Param) -> Option<RibCode>
    ensures { result ≡ param_code follows param.now }
{
    lower_of(
        code_when(!is_of_kind(param.kind, &param.values), RibCode::S3),
        own_fault(follows, param),
    )
}

fn has_points(params: &[Param]) -> bool
    ensures { result ≡ is_named (codes "P") params.now }
{
    params.iter().any(|param| is_points(&param.name))
}

// The code of what the list as a whole must have.
fn whole_fault(follows: Follows, params: &[Param]) -> Option<RibCode>
    ensures { result ≡ whole_code follows params.now }
{
    match follows {
        Follows::Bound => code_when(params.is_empty(), RibCode::S5),
        Follows::Variables | Follows::Bicubic => code_when(!has_points(params), RibCode::S3),
        Follows::Parameters | Follows::Quadric => None,
        _ => code_when(!params.is_empty(), RibCode::S3),
    }
}

fn params_fault(follows: Follows, params: &[Param]) -> Option<RibCode>
    ensures { result ≡ params_code follows params.now }
{
    let mut fault = whole_fault(follows, params);
    for param in params {
        fault = lower_of(fault, param_fault(follows, param));
    }
    fault
}

fn numbers_held(values: &Values) -> Option<&[Num]>
    ensures { option_map (λ n. n.now) result ≡ numbers_held values.now }
{
    match values {
        Values::Numbers(numbers) => Some(numbers.as_slice()),
        Values::Strings(_) => None,
    }
}

/// The numbers of the last P, where one is there.
pub fn last_points(params: &[Param]) -> Option<&[Num]>
    ensures { option_map (λ n. n.now) result ≡ points_in params.now }
{
    numbers_held(&last_named(params, "P")?.values)
}

/// The lowest code that stands in the arguments and the list of a request.
pub fn request_fault(
    alloc: Global,
    name: Req,
    args: &[Arg],
    params: &[Param],
) -> Result<Option<RibCode>, NoMemory>
    ensures { IfOk result (λ r. r ≡ request_code name args.now params.now) }
{
    Ok(lower_of(
        args_fault(alloc, name, args)?,
        params_fault(following(name, args), params),
    ))
}
