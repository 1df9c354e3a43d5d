// A file with its functions and its shader.
use sl_expressions::{Functions, Local, TypedExpr, TypedStmt};

/// A parameter with its default.
#[derive(Drop)]
pub struct Param<'a> {
    pub local: Local<'a>,
    pub value: TypedExpr,
}

/// A file: its functions, each with what it does or the first fault in it, and the parameters and the body of its shader.
#[derive(Drop)]
pub struct Program<'a> {
    pub known: Functions<'a>,
    pub params: Vec<Param<'a>>,
    pub body: Vec<TypedStmt>,
}
