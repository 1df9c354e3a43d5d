// The core tree.
use fixed_math::List;
use sl_ast::{Difference, LightStmt, LightSum, SlType, Value, ValueOperation, Variable};

/// An expression.
#[cycle(core)]
#[derive(Drop)]
pub enum CoreExpr {
    Literal(Value),
    Read(Variable),
    /// An operation on its operands' values.
    Apply(ValueOperation, List<CoreExpr>),
    Differ(Difference, Box<CoreExpr>),
    Sum(LightSum, List<CoreExpr>),
    /// A look-up, with the number of its node in the typed tree: its name, s and t.
    Texture(u32, List<CoreExpr>),
    /// An inlined call: its arguments, its body, and the type and the value of its `return`.
    Call(List<Argument>, List<CoreStmt>, SlType, Box<CoreExpr>),
}

/// An argument, with the class and the type of the formal that it goes into.
#[cycle(core)]
#[derive(Drop)]
pub struct Argument {
    pub uniform: bool,
    pub kind: SlType,
    pub value: CoreExpr,
}

/// A loop: whether it is a uniform one, its condition, its body, and the step that each turn ends with.
#[cycle(core)]
#[derive(Drop)]
pub struct CoreLoop {
    pub uniform: bool,
    pub test: CoreExpr,
    pub step: List<CoreStmt>,
    pub body: List<CoreStmt>,
}

/// A statement.
#[cycle(core)]
#[derive(Drop)]
pub enum CoreStmt {
    /// A formal, parameter or local of that class and type, set to a value.
    Declare(bool, SlType, CoreExpr),
    /// An assignment to a variable of that type.
    Assign(Variable, SlType, CoreExpr),
    Block(List<CoreStmt>),
    /// A condition, what is run where it holds, and what is run where it doesn't.
    Test(CoreExpr, List<CoreStmt>, List<CoreStmt>),
    Repeat(CoreLoop),
    Lights(LightStmt, List<CoreExpr>, List<CoreStmt>),
    Break,
    Continue,
}
