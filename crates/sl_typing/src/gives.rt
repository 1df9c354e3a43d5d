// Whether a `return` stands anywhere.
ghost use Rattle.std.specs.Prelude.{◌≡◌, map};
ghost use Rattle.sl_ast.specs.Syntax as U;
ghost use Rattle.sl_ast.specs.SyntaxView.{stmt_of};
ghost use Rattle.sl_typing.specs.Functions as spec;

use sl_ast::Stmt;

#[cycle(gives)]
fn gives(s: &Stmt) -> bool
    ensures { result ≡ spec.gives (stmt_of s.now) }
{
    match s {
        Stmt::Block { body, line: _line } => gives_any(body.as_slice()),
        Stmt::Return { .. } => true,
        Stmt::If { then, .. } => gives(then),
        Stmt::IfElse {
            then,
            otherwise,
            ..
        } => gives(then) || gives(otherwise),
        Stmt::While { body, .. } => gives(body),
        Stmt::For { body, .. } => gives(body),
        Stmt::Lights { body, .. } => gives(body),
        Stmt::Solar { body, .. } => gives(body),
        _ => false,
    }
}

#[cycle(gives)]
pub fn gives_any(body: &[Stmt]) -> bool
    ensures { result ≡ spec.gives_any (U.stmts (map stmt_of body.now)) }
{
    for s in body {
        if gives(s) {
            return true;
        }
    }
    false
}
