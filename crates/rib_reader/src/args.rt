// The values behind a request's name.
use fixed_math::{Decimal, List, Text};

/// A value behind a request's name.
#[derive(Drop)]
pub enum Arg {
    Number(Decimal),
    Str(Text),
    /// An array of numbers. The array without items is one of these.
    Numbers(List<Decimal>),
    Strings(List<Text>),
}
