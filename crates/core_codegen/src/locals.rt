// How many variables statements declare.
ghost use Rattle.std.specs.Prelude.{◌≡◌, ◌<◌, ◌^◌};
ghost use Rattle.sl_meaning.specs.CoreView.{stmt_of, stmts_of};
ghost use Rattle.core_codegen.specs.Compile.{locals, all_locals};

use sl_meaning::CoreStmt;

#[cycle(locals)]
fn declared(s: &CoreStmt) -> u32
    requires { locals (stmt_of s.now) < 2 ^ 32 }
    ensures { result ≡ locals (stmt_of s.now) }
{
    match s {
        CoreStmt::Declare(_, _, _) => 1,
        CoreStmt::Block(body) => all_declared(body.as_slice()),
        CoreStmt::Test(_, then, otherwise) => all_declared(then.as_slice())
            + all_declared(otherwise.as_slice()),
        CoreStmt::Repeat(repeated) => all_declared(repeated.step.as_slice())
            + all_declared(repeated.body.as_slice()),
        CoreStmt::Lights(_, _, body) => all_declared(body.as_slice()),
        CoreStmt::Assign(_, _, _) | CoreStmt::Break | CoreStmt::Continue => 0,
    }
}

// How many variables a frame's statements declare, but for those of the frames of calls.
#[cycle(locals)]
pub(crate) fn all_declared(all: &[CoreStmt]) -> u32
    requires { all_locals (stmts_of all.now) < 2 ^ 32 }
    ensures { result ≡ all_locals (stmts_of all.now) }
{
    let mut count = 0;
    for s in all {
        count += declared(s);
    }
    count
}
