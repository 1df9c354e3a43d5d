// The words and operators of the Shading Language that trees name.
use std::error::Error;
use std::fmt;

/// The type of a value (Shading Language, RenderMan Interface 3.2, section 11).
#[derive(Clone, Copy, Debug, PartialEq, Eq)]
pub enum SlType {
    Float,
    Color,
    Point,
    Vector,
    Normal,
    Str,
}

/// The kind of a shader.
#[derive(Clone, Copy, Debug, PartialEq, Eq)]
pub enum SlKind {
    Surface,
    Displacement,
    Light,
    Volume,
}

/// The storage class that a declaration states.
#[derive(Clone, Copy, Debug, PartialEq, Eq)]
pub enum Class {
    Uniform,
    Varying,
}

/// A row of binary operators, the loosest first.
#[derive(Clone, Copy, Debug, PartialEq, Eq)]
pub enum Row {
    Or,
    And,
    Equality,
    Relation,
    Sum,
    Cross,
    Product,
    Dot,
}

/// A binary operator.
#[derive(Clone, Copy, Debug, PartialEq, Eq)]
pub enum Operator {
    Or,
    And,
    Equal,
    NotEqual,
    Less,
    LessEqual,
    Greater,
    GreaterEqual,
    Add,
    Subtract,
    Cross,
    Multiply,
    Divide,
    Dot,
}

/// A prefix operator.
#[derive(Clone, Copy, Debug, PartialEq, Eq)]
pub enum Prefix {
    Negative,
    Not,
}

/// How an assignment changes its variable: `=`, `+=`, `-=`, `*=` or `/=`.
#[derive(Clone, Copy, Debug, PartialEq, Eq)]
pub enum SetOperator {
    Set,
    Add,
    Subtract,
    Multiply,
    Divide,
}

/// The faults of classes and control that a typed tree can have.
///
/// - `T3`: a varying value goes into a uniform variable, or is the index of `comp`, or a parameter's default; a string is
///   varying.
/// - `T4`: a uniform variable is set under varying control.
/// - `T5`: `Du`, `Dv`, `calculatenormal` or `texture` under varying control.
/// - `T9`: a second `illuminate` or `solar`, or one in a loop.
/// - `T11`: `illuminance` in `illuminance`.
#[derive(Clone, Copy, Debug, PartialEq, Eq)]
pub enum ControlCode {
    T3,
    T4,
    T5,
    T9,
    T11,
}

impl fmt::Display for ControlCode {
    fn fmt<W: fmt::Write>(&self, f: &mut fmt::Formatter<W>) -> fmt::Result {
        write!(f, "{self:?}")
    }
}

impl Error for ControlCode {}

/// The statements over lights.
#[derive(Clone, Copy, Debug, PartialEq, Eq)]
pub enum LightStmt {
    Illuminance,
    Illuminate,
    Solar,
}

/// The type of an expression of the typed tree: that of a value, or a condition.
#[derive(Clone, Copy, Debug, PartialEq, Eq)]
pub enum NodeType {
    Float,
    Color,
    Point,
    Vector,
    Normal,
    Str,
    Test,
}

/// The predefined variables of all kinds of shaders, and the constant `PI`.
#[derive(Clone, Copy)]
pub enum Predefined {
    P,
    N,
    Ng,
    I,
    E,
    U,
    V,
    Du,
    Dv,
    S,
    T,
    Cs,
    Os,
    DPdu,
    DPdv,
    L,
    Cl,
    Ci,
    Oi,
    Ps,
    Pi,
}

/// A coordinate space; `Current` is camera space.
#[derive(Clone, Copy, Debug, PartialEq, Eq)]
pub enum SpaceName {
    Current,
    World,
    Object,
    Shader,
}
