// Of several variables of one name the one that holds.
ghost use Rattle.std.specs.Prelude.{◌≡◌, IfOk, option_map, map};
ghost use Rattle.rib_reader.specs.Holding.{last_named, holding, is_at};
ghost use Rattle.fixed_math.specs.Names.{last_place};

use fixed_math::{Names, NoMemory, Text};
use scene::Param;
use std::alloc::Global;

/// The variable of that name that holds: the last one.
#[tactic(auto, using(crate::proofs::LastNamed::or_assoc))]
pub fn last_named<'a>(params: &'a [Param], name: &str) -> Option<&'a Param>
    ensures { option_map (λ p. p.now) result ≡ last_named name.now params.now }
{
    let mut found = None;
    for param in params {
        if param.name.as_str() == name {
            found = Some(param);
        }
    }
    found
}

// The names of variables, in order.
fn names_of(alloc: Global, params: &[Param]) -> Result<Names<'_>, NoMemory>
    ensures { IfOk result (λ names. names ≡ map (λ p. p.name) params.now) }
{
    let mut names = Names::new(alloc);
    for param in params {
        names.push(&param.name)?;
    }
    Ok(names)
}

// Whether the last of a name stands at that place.
fn is_last(names: &Names<'_>, place: usize, name: &Text) -> bool
    ensures { result ≡ is_at place (last_place name.now names.now) }
{
    match names.place_of(name) {
        Some(last) => last == place,
        None => false,
    }
}

/// The variables that hold, in order: of several of one name the last one.
pub fn holding(alloc: Global, params: &[Param]) -> Result<Vec<&Param>, NoMemory>
    ensures { IfOk result (λ held. map (λ p. p.now) held.items ≡ holding params.now) }
{
    let names = names_of(alloc, params)?;
    let mut held = Vec::new(alloc);
    for (place, param) in params.iter().enumerate() {
        if is_last(&names, place, &param.name) {
            held.push(param)?;
        }
    }
    Ok(held)
}
