// The typed tree before functions are put in place: a call holds how many functions stand before its own. It is as deep as the
// text is nested, and no deeper where the text is long.
use fixed_math::{List, Num, Text};
use sl_ast::{LightStmt, NodeType, Operation, SetOperator, SlType, Variable};

#[cycle(typed)]
#[derive(Drop)]
pub enum TypedExpr {
    Number {
        value: Num,
        line: u32,
    },
    Word {
        text: Text,
        line: u32,
    },
    Variable {
        variable: Variable,
        kind: NodeType,
        line: u32,
    },
    Apply {
        operation: Operation,
        args: List<TypedExpr>,
        kind: NodeType,
        line: u32,
    },
    /// Operators of one row, which group to the left: a first operand, the operators before the last, each with the operand
    /// after it, and the last. The links lie flat, since a text may have any number of them.
    Chain {
        first: Box<TypedExpr>,
        links: List<TypedLink>,
        operation: Operation,
        operand: Box<TypedExpr>,
        kind: NodeType,
        line: u32,
    },
    Call {
        function: usize,
        args: List<TypedExpr>,
        kind: NodeType,
        line: u32,
    },
}

/// An operator of a chain with the operand after it, and the type of what stands as far as that.
#[cycle(typed)]
#[derive(Drop)]
pub struct TypedLink {
    pub operation: Operation,
    pub operand: TypedExpr,
    pub kind: NodeType,
    pub line: u32,
}

#[cycle(typed_stmts)]
#[derive(Drop)]
pub enum TypedStmt {
    Empty {
        line: u32,
    },
    Block {
        body: List<TypedStmt>,
        line: u32,
    },
    /// A declaration of other than one name where one statement stands, as a branch. It is a block for names, and no node.
    Group {
        body: List<TypedStmt>,
    },
    Declare {
        uniform: bool,
        kind: SlType,
        value: TypedExpr,
        line: u32,
    },
    Start {
        uniform: bool,
        kind: SlType,
        line: u32,
    },
    Set {
        variable: Variable,
        operator: SetOperator,
        kind: SlType,
        value: TypedExpr,
        line: u32,
    },
    Break {
        line: u32,
    },
    Continue {
        line: u32,
    },
    If {
        test: TypedExpr,
        then: Box<TypedStmt>,
        line: u32,
    },
    IfElse {
        test: TypedExpr,
        then: Box<TypedStmt>,
        otherwise: Box<TypedStmt>,
        line: u32,
    },
    While {
        test: TypedExpr,
        body: Box<TypedStmt>,
        line: u32,
    },
    For {
        first: List<TypedStmt>,
        test: TypedExpr,
        step: List<TypedStmt>,
        body: Box<TypedStmt>,
        line: u32,
    },
    Lights {
        word: LightStmt,
        args: List<TypedExpr>,
        body: Box<TypedStmt>,
        line: u32,
    },
}
