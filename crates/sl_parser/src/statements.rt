// Statements from tokens.
ghost use Rattle.std.specs.Prelude.{◌≡◌, ◌<◌, IfOk, IfSome, length, option_map};
ghost use Rattle.sl_ast.specs.SyntaxView.{stmt_of};
ghost use Rattle.sl_expression_grammar.specs.Reading.{head_is, rest_after};
ghost use Rattle.sl_expression_grammar.specs.Expressions.{expr_at};
ghost use Rattle.sl_expression_grammar.specs.Parsing.{Gives, GivesItems};
ghost use Rattle.sl_parser.specs.Statements.{begins_stmt, is_else, block_in, if_with, while_with, for_with, lights_with, solar_with, return_with, assign_with, declare_with, leave_with, again_with, word_with, stmt_opened, stmt_at};
ghost use Rattle.sl_parser.specs.Boxes.{boxed_stmt};

use crate::declarations::{Valued, assignment, group};
use crate::nodes::{
    make_block, make_for, make_if, make_if_else, make_lights, make_solar, make_while,
};
use crate::statement_heads::{for_head, lights_head, solar_head, test};
use sl_ast::{LightWord, Stmt};
use sl_expression_grammar::{
    SlCode, Stop, boxed, closed, code_at, expr, past, push_boxed, rest_after,
};
use sl_lexer::{Mark, Token, TokenKind, Word};
use std::alloc::Global;

fn begins_stmt(ts: &[Token]) -> bool
    ensures { result ≡ head_is begins_stmt ts.now }
{
    match ts {
        [first, ..] => match &first.kind {
            TokenKind::Mark(Mark::Semicolon | Mark::LeftBrace)
            | TokenKind::Name(_)
            | TokenKind::Class(_)
            | TokenKind::Type(_) => true,
            TokenKind::Word(word) => !matches!(word, Word::Else),
            _ => false,
        },
        [] => false,
    }
}

// The tokens after an `else` at the front.
fn after_else(ts: &[Token]) -> Option<&[Token]>
    ensures at { option_map (λ o. o.now) result ≡ rest_after is_else ts.now }
    ensures within { IfSome result (λ o. length o.now < length ts.now) }
{
    match ts {
        [first, rest @ ..] => match &first.kind {
            TokenKind::Word(Word::Else) => Some(rest),
            _ => None,
        },
        [] => None,
    }
}

fn return_value<'a>(
    alloc: Global,
    levels: u32,
    line: u32,
    ts: &'a [Token],
) -> Result<(Box<Stmt>, &'a [Token]), Stop<'a>>
    ensures gives { Gives boxed_stmt result (return_with (expr_at levels) line ts.now) }
    ensures within { IfOk result (λ s. length s.1.now < length ts.now) }
{
    let (value, rest) = expr(alloc, levels, ts)?;
    let (value, rest) = closed(value, Mark::Semicolon, rest)?;
    let value = Box::into_inner(value);
    boxed(alloc, Stmt::Return { value, line }, rest)
}

fn set<'a>(
    alloc: Global,
    levels: u32,
    ts: &'a [Token],
) -> Result<(Box<Stmt>, &'a [Token]), Stop<'a>>
    ensures gives { Gives boxed_stmt result (assign_with (expr_at levels) ts.now) }
    ensures within { IfOk result (λ s. length s.1.now < length ts.now) }
{
    let (set, rest) = assignment(alloc, levels, ts)?;
    let (set, rest) = closed(set, Mark::Semicolon, rest)?;
    let set = Box::into_inner(set);
    boxed(alloc, Stmt::Set { set }, rest)
}

fn declaration<'a>(
    alloc: Global,
    levels: u32,
    line: u32,
    ts: &'a [Token],
) -> Result<(Box<Stmt>, &'a [Token]), Stop<'a>>
    ensures gives { Gives boxed_stmt result (declare_with (expr_at levels) line ts.now) }
    ensures within { IfOk result (λ s. length s.1.now < length ts.now) }
{
    let (group, rest) = group(alloc, levels, Valued::Freely, ts)?;
    let (group, rest) = closed(group, Mark::Semicolon, rest)?;
    let declare = Stmt::Declare {
        class: group.class,
        kind: group.kind,
        names: group.names,
        line,
    };
    boxed(alloc, declare, rest)
}

// A `break` after its word.
fn leave<'a>(
    alloc: Global,
    line: u32,
    ts: &'a [Token],
) -> Result<(Box<Stmt>, &'a [Token]), Stop<'a>>
    ensures gives { Gives boxed_stmt result (leave_with line ts.now) }
    ensures within { IfOk result (λ s. length s.1.now < length ts.now) }
{
    let rest = past(Mark::Semicolon, ts)?;
    boxed(alloc, Stmt::Break { line }, rest)
}

// A `continue` after its word.
fn again<'a>(
    alloc: Global,
    line: u32,
    ts: &'a [Token],
) -> Result<(Box<Stmt>, &'a [Token]), Stop<'a>>
    ensures gives { Gives boxed_stmt result (again_with line ts.now) }
    ensures within { IfOk result (λ s. length s.1.now < length ts.now) }
{
    let rest = past(Mark::Semicolon, ts)?;
    boxed(alloc, Stmt::Continue { line }, rest)
}

// A statement, where so many levels are left.
#[cycle(statements)]
pub fn stmt<'a>(
    alloc: Global,
    levels: u32,
    ts: &'a [Token],
) -> Result<(Box<Stmt>, &'a [Token]), Stop<'a>>
    ensures gives { Gives boxed_stmt result (stmt_at levels ts.now) }
    ensures within { IfOk result (λ s. length s.1.now < length ts.now) }
{
    if levels > 0 {
        opened(alloc, levels - 1, ts)
    } else if begins_stmt(ts) {
        Err(Stop::At(SlCode::P3, ts))
    } else {
        Err(Stop::At(code_at(ts), ts))
    }
}

// A statement that has opened its level.
#[cycle(statements)]
fn opened<'a>(
    alloc: Global,
    levels: u32,
    ts: &'a [Token],
) -> Result<(Box<Stmt>, &'a [Token]), Stop<'a>>
    ensures gives { Gives boxed_stmt result (stmt_opened (stmt_at levels) (expr_at levels) ts.now) }
    ensures within { IfOk result (λ s. length s.1.now < length ts.now) }
{
    let Some((first, rest)) = ts.split_first() else {
        return Err(Stop::At(SlCode::P2, ts));
    };
    let line = first.line;
    match &first.kind {
        TokenKind::Mark(Mark::Semicolon) => boxed(alloc, Stmt::Empty { line }, rest),
        TokenKind::Mark(Mark::LeftBrace) => {
            let (body, rest) = block(alloc, levels, rest)?;
            make_block(alloc, body, line, rest)
        }
        TokenKind::Name(_) => set(alloc, levels, ts),
        TokenKind::Class(_) | TokenKind::Type(_) => declaration(alloc, levels, line, ts),
        TokenKind::Word(word) => worded(alloc, levels, *word, line, rest, ts),
        _ => Err(Stop::At(code_at(ts), ts)),
    }
}

// A statement that begins with a word.
#[cycle(statements)]
fn worded<'a>(
    alloc: Global,
    levels: u32,
    word: Word,
    line: u32,
    rest: &'a [Token],
    ts: &'a [Token],
) -> Result<(Box<Stmt>, &'a [Token]), Stop<'a>>
    requires { length rest.now < length ts.now }
    ensures gives { Gives boxed_stmt result (word_with (stmt_at levels) (expr_at levels) word line rest.now ts.now) }
    ensures within { IfOk result (λ s. length s.1.now < length ts.now) }
{
    match word {
        Word::Break => leave(alloc, line, rest),
        Word::Continue => again(alloc, line, rest),
        Word::Return => return_value(alloc, levels, line, rest),
        Word::If => choice(alloc, levels, line, rest),
        Word::Else => Err(Stop::At(code_at(ts), ts)),
        Word::While => repeated(alloc, levels, line, rest),
        Word::For => stepped(alloc, levels, line, rest),
        Word::Illuminance => lit(alloc, levels, LightWord::Illuminance, line, rest),
        Word::Illuminate => lit(alloc, levels, LightWord::Illuminate, line, rest),
        Word::Solar => solar(alloc, levels, line, rest),
    }
}

// The statements of a block and its closing brace.
#[cycle(statements)]
pub fn block<'a>(
    alloc: Global,
    levels: u32,
    ts: &'a [Token],
) -> Result<(Vec<Stmt>, &'a [Token]), Stop<'a>>
    ensures gives { GivesItems stmt_of result (block_in (stmt_at levels) ts.now) }
    ensures within { IfOk result (λ s. length s.1.now < length ts.now) }
{
    let mut body = Vec::new(alloc);
    let mut rest = ts;
    loop {
        if let Some(tail) = rest_after(Mark::RightBrace, rest) {
            return Ok((body, tail));
        }
        let (item, left) = stmt(alloc, levels, rest)?;
        push_boxed(&mut body, item)?;
        rest = left;
    }
}

// A condition and one or two branches.
#[cycle(statements)]
fn choice<'a>(
    alloc: Global,
    levels: u32,
    line: u32,
    ts: &'a [Token],
) -> Result<(Box<Stmt>, &'a [Token]), Stop<'a>>
    ensures gives { Gives boxed_stmt result (if_with (stmt_at levels) (expr_at levels) line ts.now) }
    ensures within { IfOk result (λ s. length s.1.now < length ts.now) }
{
    let (test, rest) = test(alloc, levels, ts)?;
    let (then, rest) = stmt(alloc, levels, rest)?;
    let Some(rest) = after_else(rest) else {
        return make_if(alloc, test, then, line, rest);
    };
    let (otherwise, rest) = stmt(alloc, levels, rest)?;
    make_if_else(alloc, test, then, otherwise, line, rest)
}

#[cycle(statements)]
fn repeated<'a>(
    alloc: Global,
    levels: u32,
    line: u32,
    ts: &'a [Token],
) -> Result<(Box<Stmt>, &'a [Token]), Stop<'a>>
    ensures gives { Gives boxed_stmt result (while_with (stmt_at levels) (expr_at levels) line ts.now) }
    ensures within { IfOk result (λ s. length s.1.now < length ts.now) }
{
    let (test, rest) = test(alloc, levels, ts)?;
    let (body, rest) = stmt(alloc, levels, rest)?;
    make_while(alloc, test, body, line, rest)
}

#[cycle(statements)]
fn stepped<'a>(
    alloc: Global,
    levels: u32,
    line: u32,
    ts: &'a [Token],
) -> Result<(Box<Stmt>, &'a [Token]), Stop<'a>>
    ensures gives { Gives boxed_stmt result (for_with (stmt_at levels) (expr_at levels) line ts.now) }
    ensures within { IfOk result (λ s. length s.1.now < length ts.now) }
{
    let (head, rest) = for_head(alloc, levels, ts)?;
    let (body, rest) = stmt(alloc, levels, rest)?;
    make_for(alloc, head, body, line, rest)
}

#[cycle(statements)]
fn lit<'a>(
    alloc: Global,
    levels: u32,
    word: LightWord,
    line: u32,
    ts: &'a [Token],
) -> Result<(Box<Stmt>, &'a [Token]), Stop<'a>>
    ensures gives { Gives boxed_stmt result (lights_with (stmt_at levels) (expr_at levels) word line ts.now) }
    ensures within { IfOk result (λ s. length s.1.now < length ts.now) }
{
    let (head, rest) = lights_head(alloc, levels, ts)?;
    let (body, rest) = stmt(alloc, levels, rest)?;
    make_lights(alloc, word, head, body, line, rest)
}

#[cycle(statements)]
fn solar<'a>(
    alloc: Global,
    levels: u32,
    line: u32,
    ts: &'a [Token],
) -> Result<(Box<Stmt>, &'a [Token]), Stop<'a>>
    ensures gives { Gives boxed_stmt result (solar_with (stmt_at levels) (expr_at levels) line ts.now) }
    ensures within { IfOk result (λ s. length s.1.now < length ts.now) }
{
    let (cone, rest) = solar_head(alloc, levels, ts)?;
    let (body, rest) = stmt(alloc, levels, rest)?;
    make_solar(alloc, cone, body, line, rest)
}
