// The variables that a request is given.
use fixed_math::{List, Num, Text};

/// The storage class of a variable.
#[derive(Debug, Clone, Copy, PartialEq, Eq)]
pub enum Class {
    Constant,
    Uniform,
    Varying,
    Vertex,
    FaceVarying,
}

/// The kind of a variable's values. A pair is the two texture coordinates of `st`.
#[derive(Debug, Clone, Copy, PartialEq, Eq)]
pub enum Kind {
    Float,
    Color,
    Point,
    Vector,
    Normal,
    Str,
    Pair,
}

/// What a variable is given: numbers one behind the other, or strings.
#[derive(Drop)]
pub enum Values {
    Numbers(List<Num>),
    Strings(List<Text>),
}

/// A variable of a request's list, with the class and kind that the declarations before it give.
#[derive(Drop)]
pub struct Param {
    pub name: Text,
    pub class: Class,
    pub kind: Kind,
    pub values: Values,
}
