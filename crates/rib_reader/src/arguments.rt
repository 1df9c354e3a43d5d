// The kinds of arguments, and what stands at a place among them.
ghost use Rattle.std.specs.Prelude.{◌≡◌, option_map};
ghost use Rattle.rib_reader.specs.Rules.{are_whole, fits, fit, word_at, number_at, raw_at, whole_at, numbers_at, is_array_at};

use crate::args::Arg;
use crate::table::Shape;
use fixed_math::{Decimal, Num, Text};

fn are_whole(numbers: &[Decimal]) -> bool
    ensures { result ≡ are_whole numbers.now }
{
    numbers.iter().all(|number| number.whole().is_some())
}

fn shape_fits(shape: Shape, arg: &Arg) -> bool
    ensures { result ≡ fits shape arg.now }
{
    match (shape, arg) {
        (Shape::Whole, Arg::Number(number)) => number.whole().is_some(),
        (Shape::Number, Arg::Number(_)) => true,
        (Shape::Word, Arg::Str(_)) => true,
        (Shape::Array(len), Arg::Numbers(numbers)) => numbers.0.len() as u64 == len,
        (Shape::Wholes, Arg::Numbers(numbers)) => are_whole(&numbers.0),
        _ => false,
    }
}

/// Whether the arguments are of these kinds, one by one.
pub fn shapes_fit(shapes: &[Shape], args: &[Arg]) -> bool
    ensures { result ≡ fit shapes.now args.now }
{
    let Some((shape, shapes)) = shapes.split_first() else {
        return args.is_empty();
    };
    let Some((arg, args)) = args.split_first() else {
        return false;
    };
    shape_fits(*shape, arg) && shapes_fit(shapes, args)
}

/// The string at that place, where one is there.
pub fn word(args: &[Arg], place: usize) -> Option<&Text>
    ensures { option_map (λ t. t.now) result ≡ word_at args.now place }
{
    match args.get(place) {
        Some(Arg::Str(text)) => Some(text),
        _ => None,
    }
}

fn number(args: &[Arg], place: usize) -> Option<Decimal>
    ensures { result ≡ number_at args.now place }
{
    match args.get(place) {
        Some(Arg::Number(number)) => Some(*number),
        _ => None,
    }
}

/// The whole number at that place, where one is there.
pub fn whole(args: &[Arg], place: usize) -> Option<i64>
    ensures { result ≡ whole_at args.now place }
{
    number(args, place)?.whole()
}

/// The number at that place, where one is there.
pub fn num(args: &[Arg], place: usize) -> Option<Num>
    ensures { result ≡ raw_at args.now place }
{
    Some(number(args, place)?.num())
}

/// The raw of the number at that place, where one is there.
pub fn raw(args: &[Arg], place: usize) -> Option<i64>
    ensures { result ≡ raw_at args.now place }
{
    Some(num(args, place)?.raw())
}

/// The items of the array of numbers at that place, where one is there.
pub fn numbers_in(args: &[Arg], place: usize) -> Option<&[Decimal]>
    ensures { option_map (λ n. n.now) result ≡ numbers_at args.now place }
{
    match args.get(place) {
        Some(Arg::Numbers(numbers)) => Some(numbers.as_slice()),
        _ => None,
    }
}

/// Whether an array stands at that place.
pub fn is_array_at(args: &[Arg], place: usize) -> bool
    ensures { result ≡ is_array_at args.now place }
{
    matches!(
        args.get(place),
        Some(Arg::Numbers(_)) | Some(Arg::Strings(_))
    )
}
