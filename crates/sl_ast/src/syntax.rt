// The untyped tree: one variant for each row of the grammar, with the lines at which faults of its parts are told.
use crate::kinds::{Class, Operator, Prefix, Row, SetOperator, SlType};
use fixed_math::{List, Text};

/// The name of a coordinate or colour space before a value, and the line of the string.
#[derive(Drop)]
pub struct Space {
    pub name: Text,
    pub line: u32,
}

/// An expression.
#[cycle(expressions)]
#[derive(Drop)]
pub enum Expr {
    /// A number as it is written.
    Number {
        text: Text,
        line: u32,
    },
    /// A string, its escapes resolved.
    Str {
        text: Text,
        line: u32,
    },
    /// A variable.
    Name {
        name: Text,
        line: u32,
    },
    /// A call of a function or built-in.
    Call {
        name: Text,
        args: List<Expr>,
        line: u32,
    },
    /// An expression in parentheses; the line is that of the opening one.
    Paren {
        inner: Box<Expr>,
        line: u32,
    },
    /// A type with its three components; the line is that of the type.
    Triple {
        kind: SlType,
        space: Option<Space>,
        x: Box<Expr>,
        y: Box<Expr>,
        z: Box<Expr>,
        line: u32,
    },
    /// A type before another value; the line is that of the type.
    Typed {
        kind: SlType,
        space: Option<Space>,
        value: Box<Expr>,
        line: u32,
    },
    /// A prefix operator with its operand.
    Prefixed {
        operator: Prefix,
        operand: Box<Expr>,
        line: u32,
    },
    /// A chain of operators of one row, grouped to the left.
    Chain {
        row: Row,
        first: Box<Expr>,
        links: List<Link>,
    },
    /// A `?` with its condition and two values; the line is that of the `?`.
    Choice {
        test: Box<Expr>,
        first: Box<Expr>,
        second: Box<Expr>,
        line: u32,
    },
}

/// One operator of a chain with the operand behind it.
#[cycle(expressions)]
#[derive(Drop)]
pub struct Link {
    pub operator: Operator,
    pub line: u32,
    pub operand: Expr,
}

/// An assignment to a variable; `line` is that of the variable's name, and `set_line` that of the operator.
#[derive(Drop)]
pub struct Assignment {
    pub name: Text,
    pub operator: SetOperator,
    pub value: Expr,
    pub line: u32,
    pub set_line: u32,
}

/// A declared name with its value, if it has one; `line` is that of the name, and `set_line` that of the token behind it, which
/// is the equals sign of the value.
#[derive(Drop)]
pub struct Declared {
    pub name: Text,
    pub value: Option<Expr>,
    pub line: u32,
    pub set_line: u32,
}

/// The axis and angle of a cone of light.
#[derive(Drop)]
pub struct Cone {
    pub axis: Expr,
    pub angle: Expr,
}

/// The two statements over a place and a cone.
#[derive(Clone, Copy, Debug, PartialEq, Eq)]
pub enum LightWord {
    Illuminance,
    Illuminate,
}

/// A statement; its line is that of its first token.
#[derive(Drop)]
pub enum Stmt {
    Empty {
        line: u32,
    },
    Block {
        body: List<Stmt>,
        line: u32,
    },
    Set {
        set: Assignment,
    },
    Break {
        line: u32,
    },
    Continue {
        line: u32,
    },
    Return {
        value: Expr,
        line: u32,
    },
    Declare {
        class: Option<Class>,
        kind: SlType,
        names: List<Declared>,
        line: u32,
    },
    If {
        test: Expr,
        then: Box<Stmt>,
        line: u32,
    },
    IfElse {
        test: Expr,
        then: Box<Stmt>,
        otherwise: Box<Stmt>,
        line: u32,
    },
    While {
        test: Expr,
        body: Box<Stmt>,
        line: u32,
    },
    For {
        first: Option<Assignment>,
        test: Expr,
        step: Option<Assignment>,
        body: Box<Stmt>,
        line: u32,
    },
    Lights {
        word: LightWord,
        place: Expr,
        cone: Option<Cone>,
        body: Box<Stmt>,
        line: u32,
    },
    Solar {
        axis: Expr,
        angle: Expr,
        body: Box<Stmt>,
        line: u32,
    },
}

/// Names that are declared together: each parameter of a shader has a value, no formal of a function has one.
#[derive(Drop)]
pub struct Group {
    pub class: Option<Class>,
    pub kind: SlType,
    pub names: List<Declared>,
}

/// A function; `ended` says that a semicolon stands behind the last formal, and the line is that of its name.
#[derive(Drop)]
pub struct Function {
    pub returns: SlType,
    pub name: Text,
    pub formals: List<Group>,
    pub ended: bool,
    pub body: List<Stmt>,
    pub line: u32,
}
