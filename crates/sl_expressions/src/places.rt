// What is known at a place of a shader's text.
use crate::faults::{TypeCode, TypeFault};
use crate::scope::Functions;
use crate::typed::{TypedExpr, TypedStmt};
use fixed_math::{List, Text};
use sl_ast::{SlKind, SlType};

/// A parameter, formal or local, with the line of its name. `fixed` says that it is a parameter that nothing assigns.
#[derive(Clone, Copy)]
pub struct Local<'a> {
    pub uniform: bool,
    pub kind: SlType,
    pub name: &'a Text,
    pub fixed: bool,
    pub line: u32,
}

/// What a function does, with the line of its `return` and the value.
#[derive(Drop)]
pub struct Body {
    pub stmts: List<TypedStmt>,
    pub returned: u32,
    pub value: TypedExpr,
}

/// A fault and its line.
#[derive(Clone, Copy)]
pub struct Faulty {
    pub code: TypeCode,
    pub line: u32,
}

/// A function whose text stands before: what it does in the shader's body and in the default of a parameter, or the first
/// fault in it.
#[derive(Drop)]
pub struct Known<'a> {
    pub name: &'a Text,
    pub formals: Vec<Local<'a>>,
    pub returns: SlType,
    pub body: Result<Body, Faulty>,
    pub by_default: Result<Body, Faulty>,
}

/// The arguments of a call: all of them, or the first fault in them. `other` says that the first has a type that isn't a string's.
#[derive(Drop)]
pub struct Args {
    pub typed: Result<Vec<TypedExpr>, TypeFault>,
    pub other: bool,
}

/// The function that a place is in.
#[derive(Clone, Copy)]
pub struct Own<'a, 'b> {
    pub name: &'b Text,
    pub formals: &'a [Local<'b>],
    pub returns: SlType,
}

/// Where something stands: in a shader of that kind; in a parameter's default; where only formals, locals and `PI` are
/// seen; in the body of a statement over lights; in a loop.
#[derive(Clone, Copy)]
pub struct Spot {
    pub kind: SlKind,
    pub default: bool,
    pub bare: bool,
    pub lit: bool,
    pub looped: bool,
}

/// What the text around a place says, with the function that the place is in and the functions before.
#[derive(Clone, Copy)]
pub struct Around<'a, 'b> {
    pub at: Spot,
    pub own: Option<Own<'a, 'b>>,
    pub known: &'a Functions<'b>,
}
