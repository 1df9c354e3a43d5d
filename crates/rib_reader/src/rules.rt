// What a row says of arguments.
ghost use Rattle.std.specs.Prelude.{◌≡◌, neg_ℤ, option_map, IfOk};
ghost use Rattle.rib_reader.specs.Rules.{is_outside, is_below, is_less, is_not_less, is_one, is_none_of, word_at, raw_at, numbers_at, levels_code, sphere_code, times_code, declare_code, lowest, rule_code, args_code, follows_of};

use crate::args::Arg;
use crate::arguments::{is_array_at, num, numbers_in, raw, shapes_fit, whole, word};
use crate::codes::{code_when, lower_of};
use crate::declarations::declared_type;
use crate::faults::RibCode;
use crate::follows::Follows;
use crate::req::Req;
use crate::rows::row;
use crate::table::{Rule, Tail, Words};
use crate::words::is_in;
use fixed_math::NoMemory;
use std::alloc::Global;

fn is_outside(number: Option<i64>, least: i64, most: i64) -> bool
    ensures { result ≡ is_outside number least most }
{
    match number {
        Some(number) => number < least || most < number,
        None => false,
    }
}

fn is_below(number: Option<i64>, least: i64) -> bool
    ensures { result ≡ is_below number least }
{
    match number {
        Some(number) => number < least,
        None => false,
    }
}

fn is_less(a: Option<i64>, b: Option<i64>) -> bool
    ensures { result ≡ is_less a b }
{
    match (a, b) {
        (Some(a), Some(b)) => a < b,
        _ => false,
    }
}

fn is_not_less(a: Option<i64>, b: Option<i64>) -> bool
    ensures { result ≡ is_not_less a b }
{
    match (a, b) {
        (Some(a), Some(b)) => !(a < b),
        _ => false,
    }
}

/// Whether a string stands at that place and is a word of the set.
pub fn is_one(words: Words, args: &[Arg], place: usize) -> bool
    ensures { result ≡ is_one words (word_at args.now place) }
{
    match word(args, place) {
        Some(text) => is_in(words, text),
        None => false,
    }
}

fn is_none_of(words: Words, args: &[Arg], place: usize) -> bool
    ensures { result ≡ is_none_of words (word_at args.now place) }
{
    match word(args, place) {
        Some(text) => !is_in(words, text),
        None => false,
    }
}

// What is said of the greatest level and of the range that is written.
fn levels(one: Option<i64>, low: Option<i64>, high: Option<i64>) -> Option<RibCode>
    ensures { result ≡ levels_code one low high }
{
    lower_of(
        code_when(is_less(Some(65_535), one), RibCode::S2),
        code_when(
            is_below(one, 1) || is_below(low, 0) || is_less(high, low) || is_less(one, high),
            RibCode::S3,
        ),
    )
}

// The number at that place with the other sign, where one is there.
fn negated(args: &[Arg], place: usize) -> Option<i64>
    ensures { result ≡ option_map neg_ℤ (raw_at args.now place) }
{
    Some(num(args, place)?.neg().raw())
}

// What is said of a sphere's ends.
fn sphere(args: &[Arg]) -> Option<RibCode>
    ensures { result ≡ sphere_code (raw_at args.now 0) (raw_at args.now 1) (raw_at args.now 2) }
{
    code_when(
        is_less(negated(args, 0), raw(args, 1)) || is_less(raw(args, 2), raw(args, 0)),
        RibCode::S2,
    )
}

fn declaration(alloc: Global, args: &[Arg]) -> Result<Option<RibCode>, NoMemory>
    ensures { IfOk result (λ r. r ≡ declare_code (word_at args.now 1)) }
{
    match word(args, 1) {
        Some(text) => Ok(declared_type(alloc, text)?.err()),
        None => Ok(None),
    }
}

// What is said of the times of a motion.
fn times(args: &[Arg]) -> Option<RibCode>
    ensures { result ≡ times_code (numbers_at args.now 0) }
{
    match numbers_in(args, 0) {
        Some([from, to]) => {
            let rises = from.num().raw() < to.num().raw();
            code_when(!rises, RibCode::S3)
        }
        _ => None,
    }
}

// The code of the rule, where it doesn't hold.
fn rule_fault(alloc: Global, rule: Rule, args: &[Arg]) -> Result<Option<RibCode>, NoMemory>
    ensures { IfOk result (λ r. r ≡ rule_code rule args.now) }
{
    Ok(match rule {
        Rule::Within(place, least, most) => {
            code_when(is_outside(whole(args, place), least, most), RibCode::S3)
        }
        Rule::AtLeast(place, least) => { code_when(is_below(raw(args, place), least), RibCode::S3) }
        Rule::Rising(first, second) => {
            code_when(
                is_not_less(raw(args, first), raw(args, second)),
                RibCode::S3,
            )
        }
        Rule::Ordered(first, second) => {
            code_when(is_less(raw(args, second), raw(args, first)), RibCode::S3)
        }
        Rule::Only(place, same) => {
            code_when(is_outside(raw(args, place), same, same), RibCode::S2)
        }
        Rule::Between(place, least, most) => {
            code_when(is_outside(raw(args, place), least, most), RibCode::S3)
        }
        Rule::OneOf(place, words, code) => code_when(is_none_of(words, args, place), code),
        Rule::NoneOf(place, words) => code_when(is_one(words, args, place), RibCode::S2),
        Rule::NoArray(place) => code_when(is_array_at(args, place), RibCode::S2),
        Rule::Levels => {
            if is_one(Words::Modes, args, 0) {
                levels(whole(args, 1), whole(args, 2), whole(args, 3))
            } else {
                None
            }
        }
        Rule::WholeSphere => sphere(args),
        Rule::Times => times(args),
        Rule::Declaration => declaration(alloc, args)?,
    })
}

// The lowest code of a row's rules.
fn rules_fault(alloc: Global, rules: &[Rule], args: &[Arg]) -> Result<Option<RibCode>, NoMemory>
    ensures { IfOk result (λ r. r ≡ lowest (λ q. rule_code q args.now) rules.now) }
{
    let Some((rule, rules)) = rules.split_first() else {
        return Ok(None);
    };
    let first = rule_fault(alloc, *rule, args)?;
    Ok(lower_of(first, rules_fault(alloc, rules, args)?))
}

/// The lowest code that stands in the arguments.
pub fn args_fault(alloc: Global, name: Req, args: &[Arg]) -> Result<Option<RibCode>, NoMemory>
    ensures { IfOk result (λ r. r ≡ args_code name args.now) }
{
    let row = row(name);
    let unfit = code_when(!shapes_fit(row.shapes, args), RibCode::S3);
    Ok(lower_of(unfit, rules_fault(alloc, row.rules, args)?))
}

/// What follows the arguments.
pub fn following(name: Req, args: &[Arg]) -> Follows
    ensures { result ≡ follows_of name args.now }
{
    match row(name).tail {
        Tail::Empty => Follows::Nothing,
        Tail::Anything => Follows::Anything,
        Tail::Free => Follows::Free,
        Tail::Attribute => {
            if is_one(Words::Bounds, args, 0) {
                Follows::Bound
            } else {
                Follows::Free
            }
        }
        Tail::Parameters => Follows::Parameters,
        Tail::Variables => Follows::Variables,
        Tail::QuadricVariables => Follows::Quadric,
        Tail::PatchVariables => {
            if is_one(Words::Bicubic, args, 0) {
                Follows::Bicubic
            } else {
                Follows::Variables
            }
        }
    }
}
