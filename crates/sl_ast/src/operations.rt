// The operations of the trees, in three kinds.
use crate::kinds::{SlType, SpaceName};

/// The operators, conversions and built-in functions.
#[derive(Clone, Copy)]
pub enum Operation {
    Value(ValueOperation),
    /// `faceforward` with two arguments: the third is the predefined `Ng`, which this operation reads.
    FaceForwardNg,
    Difference(Difference),
    Sum(LightSum),
    Look(Look),
}

/// The operators, conversions and built-in functions whose value is a function of their operands' values.
#[derive(Clone, Copy)]
pub enum ValueOperation {
    Negate,
    Not,
    Or,
    And,
    Equal,
    NotEqual,
    Less,
    LessEqual,
    Greater,
    GreaterEqual,
    Add,
    Subtract,
    Cross,
    Multiply,
    Divide,
    Dot,
    /// The first of two values where a condition holds, else the second.
    Select,
    /// A type before three components, of a colour or in that space.
    Triple(SlType, SpaceName),
    /// A type before a value, from that space.
    Convert(SlType, SpaceName),
    Abs,
    Sign,
    Floor,
    Ceil,
    Round,
    Min,
    Max,
    Clamp,
    Mod,
    Mix,
    Sin,
    Cos,
    Tan,
    Sqrt,
    InverseSqrt,
    Pow,
    Exp,
    Log,
    Radians,
    Degrees,
    Step,
    SmoothStep,
    XComp,
    YComp,
    ZComp,
    Comp,
    Length,
    Distance,
    Normalize,
    Reflect,
    FaceForward,
    /// From the first space to the second. In the typed tree the strings that name them are operands too.
    Transform(SpaceName, SpaceName),
    VTransform(SpaceName, SpaceName),
    NTransform(SpaceName, SpaceName),
    Depth,
    Noise,
}

/// The built-in functions whose value at a point depends on their operand's values at its neighbours in the grid.
#[derive(Clone, Copy)]
pub enum Difference {
    Du,
    Dv,
    CalculateNormal,
}

/// `texture`, and what stands before it. A look-up's value at a point depends on its operands' values at the point's
/// neighbours in the grid.
#[derive(Clone, Copy)]
pub enum Look {
    /// `texture` with a name, s and t.
    At,
    /// `texture` with a name alone: s and t are the predefined variables, which this operation reads.
    Here,
    /// `float` before `texture`: the first part of the colour.
    First,
}

/// The built-in functions that are sums over the lights of a surface.
#[derive(Clone, Copy)]
pub enum LightSum {
    Ambient,
    Diffuse,
    Specular,
}
