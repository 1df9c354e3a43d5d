// The parts of a row of the table.
use crate::faults::RibCode;

/// The kind of an argument.
#[derive(Clone, Copy)]
pub enum Shape {
    /// A whole number.
    Whole,
    Number,
    /// A string.
    Word,
    /// An array of so many numbers.
    Array(u64),
    /// An array of whole numbers.
    Wholes,
}

/// A set of words that an argument may be.
#[derive(Clone, Copy)]
pub enum Words {
    Projections,
    Filters,
    Modes,
    Interpolations,
    Orientations,
    Handed,
    Bases,
    Patches,
    Bicubic,
    Wraps,
    Bounds,
}

/// What a row of the table says of the values of the arguments. Arguments are named by their places.
#[derive(Clone, Copy)]
pub enum Rule {
    /// The whole number there lies from the first number to the second, or S3.
    Within(usize, i64, i64),
    /// The number there has at least this raw, or S3.
    AtLeast(usize, i64),
    /// The number at the first place is less than that at the second, or S3.
    Rising(usize, usize),
    /// The number at the first place is at most that at the second, or S3.
    Ordered(usize, usize),
    /// The number there has this raw, or S2.
    Only(usize, i64),
    /// The number there has a raw from the first number to the second, or S3.
    Between(usize, i64, i64),
    /// The string there is one of these words, or that code.
    OneOf(usize, Words, RibCode),
    /// The string there is none of these words, or S2.
    NoneOf(usize, Words),
    /// No array stands there, or S2.
    NoArray(usize),
    /// What `Quantize` says of its numbers.
    Levels,
    /// What `Sphere` says of its radius and of the heights at which it ends: none of it is cut off, or S2.
    WholeSphere,
    /// What `MotionBegin` says of its times: where they are two, the first is less than the second, or S3.
    Times,
    /// What `Declare` says of its second word.
    Declaration,
}

/// What may follow the arguments of a request.
#[derive(Clone, Copy)]
pub enum Tail {
    /// Nothing.
    Empty,
    /// Any values, which are passed over.
    Anything,
    /// Pairs of a string and a value, which are passed over.
    Free,
    /// As `Free`, but for the attribute "displacementbound".
    Attribute,
    /// A shader's or a projection's parameters.
    Parameters,
    /// A primitive's variables, P among them.
    Variables,
    /// Those of a patch or a mesh: where it is bicubic, no variable other than P is a vertex variable.
    PatchVariables,
    /// Those of a quadric, without P.
    QuadricVariables,
}

/// A row of the table: the kinds of the arguments, what is said of their values, and what follows them.
#[derive(Clone, Copy)]
pub struct Row {
    pub shapes: &'static [Shape],
    pub rules: &'static [Rule],
    pub tail: Tail,
}
