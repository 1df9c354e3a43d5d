// The untyped tree of a shader's file.
ghost use Rattle.std.specs.Prelude.{◌≤◌, map};
ghost use Rattle.sl_ast.specs.Syntax.{stmts};
ghost use Rattle.sl_ast.specs.SyntaxView.{stmt_of, group_of, function_of};
ghost use Rattle.sl_ast.specs.Levels.{levels_file};

use crate::kinds::SlKind;
use crate::syntax::{Function, Group, Stmt};
use fixed_math::{List, Text};

/// The untyped tree of one file: its functions and its shader.
///
/// `ended` says that a semicolon stands behind the last parameter, and the line is that of the word for the shader's
/// kind. No more than 64 levels are open at once in its text, where each statement, each expression, each prefix
/// operator and each type before a value opens one.
#[derive(Drop)]
pub struct Shader {
    pub functions: List<Function>,
    pub kind: SlKind,
    pub name: Text,
    pub params: List<Group>,
    pub ended: bool,
    pub body: List<Stmt>,
    pub line: u32,
    pub ghost shallow: { levels_file (map function_of functions) (map group_of params) (stmts (map stmt_of body)) ≤ 64 },
}
