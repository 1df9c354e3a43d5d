// Primitives of one motion block.
ghost use Rattle.std.specs.Prelude.{◌≡◌, true};
ghost use Rattle.rib_reader.specs.Reading.{plain};
ghost use Rattle.rib_reader.specs.Table.{row_of};
ghost use Rattle.rib_reader.specs.Lists.{has_points};
ghost use Rattle.scene_state.specs.MotionBlocks.{is_same_whole, is_same_arg, are_same_args, are_alike};

use rib_reader::{Arg, Request};

// Whether one whole number is there twice.
fn is_same_whole(a: Option<i64>, b: Option<i64>) -> bool
    ensures { result ≡ is_same_whole a b }
{
    match (a, b) {
        (Some(a), Some(b)) => a == b,
        _ => false,
    }
}

// Whether two arguments have the same value: two whole numbers or two strings.
fn is_same(a: &Arg, b: &Arg) -> bool
    ensures { result ≡ is_same_arg a.now b.now }
{
    match (a, b) {
        (Arg::Number(a), Arg::Number(b)) => is_same_whole(a.whole(), b.whole()),
        (Arg::Str(a), Arg::Str(b)) => a.as_str() == b.as_str(),
        _ => false,
    }
}

// Whether these are as many arguments as those, with the same values.
fn are_same(args: &[Arg], others: &[Arg]) -> bool
    ensures { result ≡ are_same_args args.now others.now }
{
    let Some((a, args)) = args.split_first() else {
        return others.is_empty();
    };
    let Some((b, others)) = others.split_first() else {
        return false;
    };
    is_same(a, b) && are_same(args, others)
}

/// Whether two primitives have equal arguments and as many points.
pub(crate) fn are_alike(first: &Request, last: &Request) -> bool
    requires first { has_points (row_of first.now.name).tail ≡ true }
    requires last { has_points (row_of last.now.name).tail ≡ true }
    ensures { result ≡ are_alike (plain first.now) (plain last.now) }
{
    are_same(first.args.as_slice(), last.args.as_slice())
        && first.points().len() == last.points().len()
}
