// The pairs of a list, a token and its value.
ghost use Rattle.std.specs.Prelude.{◌≡◌, Ok, IfOk, OnOk, drop, slice_get};
ghost use Rattle.rib_reader.specs.Lists.{Of, is_sphere, bound, meaning_in, misfit_code, missing_code, judged, given, pair_code, variable_of, nothing, pairs_of, of_pairs, list_of};
ghost use Rattle.rib_reader.specs.PairSteps.{with_pair};

use crate::args::Arg;
use crate::codes::{code_when, lower_of};
use crate::declarations::token_meaning;
use crate::declared::{Declarations, Declared};
use crate::faults::RibCode;
use crate::follows::Follows;
use crate::list_faults::{count_fault, name_fault};
use crate::list_values::values_of;
use crate::listing::Listing;
use crate::texts::is_word;
use fixed_math::{List, NoMemory, Text};
use scene::{Class, Kind, Param};
use std::alloc::Global;

fn nothing(alloc: Global) -> Listing
    ensures { result ≡ nothing }
{
    Listing {
        fault: None,
        params: List(Vec::new(alloc)),
    }
}

fn is_sphere(token: &Text) -> bool
    ensures { result ≡ is_sphere token.now }
{
    is_word(token, "sphere") || is_word(token, "float sphere")
}

// The displacement bound.
#[tactic(auto, using(crate::proofs::Ascii::sphere_is_ascii))]
fn bound(alloc: Global) -> Result<Declared, NoMemory>
    ensures { IfOk result (λ d. d ≡ bound) }
{
    Ok(Declared {
        name: Text::from_bytes(alloc, b"sphere")?,
        class: Class::Uniform,
        kind: Kind::Float,
    })
}

// The name, class and kind that a token stands for, or the code of why for none.
fn meaning(
    alloc: Global,
    follows: Follows,
    declarations: &Declarations<'_>,
    token: &Text,
) -> Result<Result<Declared, RibCode>, NoMemory>
    ensures { IfOk result (λ r. r ≡ meaning_in follows declarations.now token.now) }
{
    match follows {
        Follows::Bound => {
            if is_sphere(token) {
                Ok(Ok(bound(alloc)?))
            } else {
                Ok(Err(RibCode::S5))
            }
        }
        _ => token_meaning(alloc, declarations, token),
    }
}

// The code of a value that isn't of its token's kind.
fn misfit(follows: Follows) -> RibCode
    ensures { result ≡ misfit_code follows }
{
    match follows {
        Follows::Bound => RibCode::S5,
        _ => RibCode::S3,
    }
}

// The code of a token behind which no value stands.
fn missing(behind: &[Arg]) -> Option<RibCode>
    ensures { result ≡ missing_code (slice_get behind.now 0) }
{
    code_when(behind.is_empty(), RibCode::S3)
}

// The lowest code of what a token stands for and of the value behind it, and the variable.
fn of_declared(
    alloc: Global,
    follows: Follows,
    declared: Declared,
    behind: &[Arg],
) -> Result<(Option<RibCode>, Option<Param>), NoMemory>
    ensures code { IfOk result (λ r. r.0 ≡ judged follows (Ok declared) (slice_get behind.now 0)) }
    ensures variable { IfOk result (λ r. r.1 ≡ given (Ok declared) (slice_get behind.now 0)) }
{
    let named = name_fault(follows, &declared.name, declared.class, declared.kind);
    let Some(value) = behind.first() else {
        return Ok((lower_of(named, Some(RibCode::S3)), None));
    };
    let Some(values) = values_of(alloc, declared.kind, value)? else {
        return Ok((lower_of(named, Some(misfit(follows))), None));
    };
    let fault = lower_of(named, count_fault(follows, declared.kind, &values));
    let variable = Param {
        name: declared.name,
        class: declared.class,
        kind: declared.kind,
        values,
    };
    Ok((fault, Some(variable)))
}

// The lowest code of a token with what stands behind it, and its variable.
fn of_pair(
    alloc: Global,
    follows: Follows,
    declarations: &Declarations<'_>,
    token: &Text,
    behind: &[Arg],
) -> Result<(Option<RibCode>, Option<Param>), NoMemory>
    ensures code { IfOk result (λ r. r.0 ≡ pair_code follows declarations.now (Of token.now (slice_get behind.now 0))) }
    ensures variable { IfOk result (λ r. r.1 ≡ variable_of follows declarations.now (Of token.now (slice_get behind.now 0))) }
{
    if matches!(follows, Follows::Free) {
        return Ok((missing(behind), None));
    }
    match meaning(alloc, follows, declarations, token)? {
        Ok(declared) => of_declared(alloc, follows, declared, behind),
        Err(code) => Ok((lower_of(Some(code), missing(behind)), None)),
    }
}

// A pair more.
fn add(
    alloc: Global,
    follows: Follows,
    declarations: &Declarations<'_>,
    listing: &mut Listing,
    token: &Text,
    behind: &[Arg],
) -> Result<(), NoMemory>
    ensures { OnOk result (listing.new ≡ with_pair follows declarations.now listing.old (Of token.now (slice_get behind.now 0))) }
{
    let (fault, variable) = of_pair(alloc, follows, declarations, token, behind)?;
    listing.fault = lower_of(listing.fault, fault);
    if let Some(variable) = variable {
        listing.params.0.push(variable)?;
    }
    Ok(())
}

// The values behind the first one.
fn past_first(values: &[Arg]) -> &[Arg]
    ensures { result.now ≡ drop 1 values.now }
{
    match values.split_first() {
        Some((_, others)) => others,
        None => values,
    }
}

// Pair by pair, up to the first place at which no string stands for a token.
fn pairs(
    alloc: Global,
    follows: Follows,
    declarations: &Declarations<'_>,
    values: &[Arg],
) -> Result<Listing, NoMemory>
    ensures { IfOk result (λ l. l ≡ of_pairs follows declarations.now (pairs_of values.now)) }
{
    let mut listing = nothing(alloc);
    let mut rest = values;
    while let Some((front, behind)) = rest.split_first() {
        let Arg::Str(token) = front else {
            listing.fault = lower_of(listing.fault, Some(RibCode::S3));
            return Ok(listing);
        };
        add(alloc, follows, declarations, &mut listing, token, behind)?;
        rest = past_first(behind);
    }
    Ok(listing)
}

/// What is read of a request's list, behind these declarations.
pub fn list(
    alloc: Global,
    follows: Follows,
    declarations: &Declarations<'_>,
    values: &[Arg],
) -> Result<Listing, NoMemory>
    ensures { IfOk result (λ l. l ≡ list_of follows declarations.now values.now) }
{
    match follows {
        Follows::Anything => Ok(nothing(alloc)),
        Follows::Nothing => Ok(Listing {
            fault: code_when(!values.is_empty(), RibCode::S3),
            params: List(Vec::new(alloc)),
        }),
        _ => pairs(alloc, follows, declarations, values),
    }
}
