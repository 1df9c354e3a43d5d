// The variables of a primitive by their names.
ghost use Rattle.std.specs.Prelude.{◌≡◌, ◌<◌, length, IfSome};
ghost use Rattle.std.specs.Str.{bytes_eq};
ghost use Rattle.grid_variables.specs.Variables.{variable_named as variable_of, is_pair as is_pair_of, setter as setter_of, bound_variable as bound_of};
ghost use Rattle.grid_variables.specs.ByPlace.{at_place, later};

use fixed_math::Text;
use scene::{PrimitiveVariables, Variable};
use shader_binding::sets_predefined;

fn is_word(text: &Text, word: &str) -> bool
    ensures { result ≡ bytes_eq text.now word.now }
{
    text.as_str().as_bytes() == word.as_bytes()
}

/// The variable at that place, where there is one.
fn at_place<'s>(variables: &'s PrimitiveVariables, place: Option<usize>) -> Option<Variable<'s>>
    requires { IfSome place (λ k. k < length variables.now) }
    ensures { result ≡ at_place variables.now place }
{
    match place {
        Some(k) => Some(variables.at(k)),
        None => None,
    }
}

/// The last variable of that name.
pub(crate) fn variable_named<'s>(
    variables: &'s PrimitiveVariables,
    name: &str,
) -> Option<Variable<'s>>
    ensures { result ≡ variable_of name.now variables.now }
{
    at_place(variables, variables.place_of(name))
}

/// Whether a variable sets both coordinates of textures.
pub(crate) fn is_pair(variable: &Variable) -> bool
    ensures { result ≡ is_pair_of variable.now }
{
    is_word(variable.name(), "st")
}

/// The later of two places, where there are some.
#[tactic(auto, using(crate::proofs::Passing::greater_second, crate::proofs::Passing::greater_first))]
fn later(a: Option<usize>, b: Option<usize>) -> Option<usize>
    ensures { result ≡ later a b }
{
    match (a, b) {
        (Some(a), Some(b)) => Some(if a < b { b } else { a }),
        (Some(a), None) => Some(a),
        (None, b) => b,
    }
}

/// The last variable that sets the coordinate of textures of that name.
pub(crate) fn setter<'s>(variables: &'s PrimitiveVariables, name: &str) -> Option<Variable<'s>>
    ensures { result ≡ setter_of name.now variables.now }
{
    at_place(
        variables,
        later(variables.place_of(name), variables.place_of("st")),
    )
}

/// The variable that binds to the parameter of that name.
pub(crate) fn bound_variable<'s>(
    variables: &'s PrimitiveVariables,
    name: &Text,
) -> Option<Variable<'s>>
    ensures { result ≡ bound_of name.now variables.now }
{
    if sets_predefined(name) {
        None
    } else {
        variable_named(variables, name.as_str())
    }
}
