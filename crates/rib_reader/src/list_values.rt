// The values of a list's variables.
ghost use Rattle.std.specs.Prelude.{◌≡◌, IfOk, ◌∷◌, [], Some, map, option_map};
ghost use Rattle.fixed_math.specs.Decimal.{num};
ghost use Rattle.rib_reader.specs.Lists.{numbers_of, strings_of, values_of};
ghost use Rattle.scene.specs.Kinds.{is_string};

use crate::args::Arg;
use fixed_math::{Decimal, List, NoMemory, Num, Text};
use scene::{Kind, Values};
use std::alloc::Global;

fn nums(alloc: Global, numbers: &[Decimal]) -> Result<List<Num>, NoMemory>
    ensures { IfOk result (λ r. r ≡ map num numbers.now) }
{
    let mut all = Vec::new(alloc);
    for number in numbers {
        all.push(number.num())?;
    }
    Ok(List(all))
}

fn copies(alloc: Global, strings: &[Text]) -> Result<List<Text>, NoMemory>
    ensures { IfOk result (λ r. r ≡ strings.now) }
{
    let mut all = Vec::new(alloc);
    for string in strings {
        all.push(string.copied(alloc)?)?;
    }
    Ok(List(all))
}

fn one_num(alloc: Global, number: Decimal) -> Result<List<Num>, NoMemory>
    ensures { IfOk result (λ r. r ≡ num number ∷ []) }
{
    let mut all = Vec::new(alloc);
    all.push(number.num())?;
    Ok(List(all))
}

fn one_copy(alloc: Global, string: &Text) -> Result<List<Text>, NoMemory>
    ensures { IfOk result (λ r. r ≡ string.now ∷ []) }
{
    let mut all = Vec::new(alloc);
    all.push(string.copied(alloc)?)?;
    Ok(List(all))
}

fn as_nums(alloc: Global, value: &Arg) -> Result<Option<List<Num>>, NoMemory>
    ensures { IfOk result (λ r. r ≡ option_map (map num) (numbers_of value.now)) }
{
    Ok(match value {
        Arg::Number(number) => Some(one_num(alloc, *number)?),
        Arg::Numbers(numbers) => Some(nums(alloc, &numbers.0)?),
        _ => None,
    })
}

fn as_strings(alloc: Global, value: &Arg) -> Result<Option<List<Text>>, NoMemory>
    ensures { IfOk result (λ r. r ≡ strings_of value.now) }
{
    Ok(match value {
        Arg::Str(string) => Some(one_copy(alloc, string)?),
        Arg::Strings(strings) => Some(copies(alloc, &strings.0)?),
        Arg::Numbers(numbers) => {
            if numbers.0.is_empty() {
                Some(List(Vec::new(alloc)))
            } else {
                None
            }
        }
        _ => None,
    })
}

/// Whether values of that kind are strings.
pub fn is_string(kind: Kind) -> bool
    ensures { result ≡ is_string kind }
{
    matches!(kind, Kind::Str)
}

/// The values of that kind that a value of a list gives.
pub fn values_of(alloc: Global, kind: Kind, value: &Arg) -> Result<Option<Values>, NoMemory>
    ensures { IfOk result (λ r. r ≡ values_of kind value.now) }
{
    if is_string(kind) {
        Ok(as_strings(alloc, value)?.map(|strings| Values::Strings(strings)))
    } else {
        Ok(as_nums(alloc, value)?.map(|numbers| Values::Numbers(numbers)))
    }
}
