// The typed tree: one node for each operation, the body of each called function in its call's place.
use crate::kinds::{LightStmt, NodeType, Predefined, SetOperator, SlType};
use crate::operations::Operation;
use fixed_math::{List, Num, Text, Vec3};

/// The line on which a node's token begins, and the node's number. Numbers go from 0, a node before its parts and the
/// parts in order of the text, an inlined call's arguments before its body.
#[derive(Clone, Copy, Debug, PartialEq, Eq)]
pub struct Place {
    pub line: u32,
    pub number: u32,
}

/// A variable: one that the shader's kind predefines, or a parameter, formal or local by its level in the scope.
///
/// The parameters of the shader have the first levels, or the formals of a function in its body. Each local has the
/// next level from its declaration to the end of its block.
#[derive(Clone, Copy)]
pub enum Variable {
    Predefined(Predefined),
    Level(u32),
}

/// A formal of an inlined call, with the line of its name.
#[derive(Clone, Copy, Debug, PartialEq, Eq)]
pub struct TreeFormal {
    pub kind: SlType,
    pub uniform: bool,
    pub line: u32,
}

/// An expression.
#[cycle(tree)]
#[derive(Drop)]
pub enum TreeExpr {
    Number {
        value: Num,
        place: Place,
    },
    Word {
        text: Text,
        place: Place,
    },
    Variable {
        variable: Variable,
        kind: NodeType,
        place: Place,
    },
    /// An operator, conversion or built-in on its operands, which are not promoted.
    Apply {
        operation: Operation,
        args: List<TreeExpr>,
        kind: NodeType,
        place: Place,
    },
    /// An inlined call: the formals are set to the arguments, the body runs, and the value is that of its `return`.
    Call {
        args: List<TreeExpr>,
        formals: List<TreeFormal>,
        body: List<TreeStmt>,
        returned: Place,
        value: Box<TreeExpr>,
        kind: NodeType,
        place: Place,
    },
}

/// A statement. Each name of a declaration is one of its own.
#[cycle(tree)]
#[derive(Drop)]
pub enum TreeStmt {
    Empty {
        place: Place,
    },
    Block {
        body: List<TreeStmt>,
        place: Place,
    },
    /// A declaration of other than one name where one statement stands, as a branch. It is a block for names, and no node.
    Group {
        body: List<TreeStmt>,
    },
    Declare {
        uniform: bool,
        kind: SlType,
        value: TreeExpr,
        place: Place,
    },
    /// A declaration without a value: 0 or the empty string.
    Start {
        uniform: bool,
        kind: SlType,
        place: Place,
    },
    /// An assignment to a variable of that type.
    Set {
        variable: Variable,
        operator: SetOperator,
        kind: SlType,
        value: TreeExpr,
        place: Place,
    },
    Break {
        place: Place,
    },
    Continue {
        place: Place,
    },
    If {
        test: TreeExpr,
        then: Box<TreeStmt>,
        place: Place,
    },
    IfElse {
        test: TreeExpr,
        then: Box<TreeStmt>,
        otherwise: Box<TreeStmt>,
        place: Place,
    },
    While {
        test: TreeExpr,
        body: Box<TreeStmt>,
        place: Place,
    },
    /// `first` and `step` hold a `Set` or nothing.
    For {
        first: List<TreeStmt>,
        test: TreeExpr,
        step: List<TreeStmt>,
        body: Box<TreeStmt>,
        place: Place,
    },
    /// `illuminance` and `illuminate` with a place, or a place, an axis and an angle; `solar` with an axis and an angle.
    Lights {
        word: LightStmt,
        args: List<TreeExpr>,
        body: Box<TreeStmt>,
        place: Place,
    },
}

/// A value of the Shading Language. A colour is its three channels.
#[derive(Drop)]
pub enum Value {
    Number(Num),
    Triple(Vec3),
    Word(Text),
}

/// A parameter that a shader declares.
#[derive(Drop)]
pub struct ParamDecl {
    pub name: Text,
    pub kind: SlType,
    pub uniform: bool,
}

/// The default of a parameter, with the place of the parameter's node.
#[derive(Drop)]
pub struct ParamDefault {
    pub value: TreeExpr,
    pub place: Place,
}
