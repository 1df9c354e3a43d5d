// Functions, shaders and whole files from tokens.
ghost use Rattle.std.specs.Prelude.{◌≡◌, ◌≤◌, ◌<◌, [], ◌∷◌, IfOk, IfSome, length, map, option_map};
ghost use Rattle.sl_ast.specs.SyntaxView.{stmt_of, group_of, function_of};
ghost use Rattle.sl_ast.specs.ShaderView.{shader_of};
ghost use Rattle.sl_ast.specs.Levels.{levels_functions};
ghost use Rattle.sl_lexer.specs.declared.token.Mark.TheVariants.{Semicolon};
ghost use Rattle.sl_expression_grammar.specs.Reading.{with_front, many, rest_after, is_mark};
ghost use Rattle.sl_expression_grammar.specs.Expressions.{expr_at};
ghost use Rattle.sl_expression_grammar.specs.Parsing.{Gives, GivesItems};
ghost use Rattle.sl_parser.specs.Statements.{group_with};
ghost use Rattle.sl_parser.specs.Files.{semicolon_at, next_group, some_groups, groups_end, groups_with, body_at, function_with, functions_in, sort_at, shader_then, file_of};

use crate::declarations::{Valued, group, name, type_at};
use crate::nodes::make_function;
use crate::statements::block;
use fixed_math::List;
use sl_ast::{Function, Group, Shader, SlKind, SlType, Stmt};
use sl_expression_grammar::{Stop, closed, code_at, past, push, rest_after};
use sl_lexer::{Mark, Token, TokenKind};
use std::alloc::Global;

/// Groups of declared names, and whether a semicolon stands after the last.
#[derive(Drop)]
pub struct GroupList {
    pub groups: Vec<Group>,
    pub ended: bool,
}

// The tokens after a semicolon that goes on with a list of groups.
fn after_semicolon(ts: &[Token]) -> Option<&[Token]>
    ensures at { option_map (λ o. o.now) result ≡ semicolon_at ts.now }
    ensures within { IfSome result (λ o. length o.now < length ts.now) }
{
    match rest_after(Mark::Semicolon, ts) {
        Some(rest) => match rest_after(Mark::RightParen, rest) {
            Some(_) => None,
            None => Some(rest),
        },
        None => None,
    }
}

// At least one group.
fn some_groups<'a>(
    alloc: Global,
    levels: u32,
    valued: Valued,
    ts: &'a [Token],
) -> Result<(Vec<Group>, &'a [Token]), Stop<'a>>
    ensures gives { GivesItems group_of result (some_groups (group_with (expr_at levels) valued) ts.now) }
    ensures within { IfOk result (λ g. length g.1.now < length ts.now) }
{
    let (first, rest) = group(alloc, levels, valued, ts)?;
    further(alloc, levels, valued, first, rest)
}

// Further groups after the first.
fn further<'a>(
    alloc: Global,
    levels: u32,
    valued: Valued,
    first: Group,
    ts: &'a [Token],
) -> Result<(Vec<Group>, &'a [Token]), Stop<'a>>
    ensures gives { GivesItems group_of result (with_front (group_of first ∷ []) (many (next_group (group_with (expr_at levels) valued)) (length ts.now) ts.now)) }
    ensures within { IfOk result (λ g. length g.1.now ≤ length ts.now) }
{
    let mut groups = Vec::new(alloc);
    push(&mut groups, first)?;
    let mut rest = ts;
    while let Some(after) = after_semicolon(rest) {
        let (item, left) = group(alloc, levels, valued, after)?;
        push(&mut groups, item)?;
        rest = left;
    }
    Ok((groups, rest))
}

// The closing parenthesis after groups, with a semicolon or none before it.
fn groups_end<'a>(groups: Vec<Group>, ts: &'a [Token]) -> Result<(GroupList, &'a [Token]), Stop<'a>>
    ensures gives { Gives (λ g. (map group_of g.groups.items, g.ended)) result (groups_end (map group_of groups.items) ts.now (rest_after (is_mark Semicolon) ts.now)) }
    ensures within { IfOk result (λ g. length g.1.now < length ts.now) }
{
    match rest_after(Mark::Semicolon, ts) {
        None => {
            let ended = false;
            closed(GroupList { groups, ended }, Mark::RightParen, ts)
        }
        Some(rest) => {
            let ended = true;
            closed(GroupList { groups, ended }, Mark::RightParen, rest)
        }
    }
}

// Groups in parentheses.
fn groups<'a>(
    alloc: Global,
    levels: u32,
    valued: Valued,
    ts: &'a [Token],
) -> Result<(GroupList, &'a [Token]), Stop<'a>>
    ensures gives { Gives (λ g. (map group_of g.groups.items, g.ended)) result (groups_with levels valued ts.now) }
    ensures within { IfOk result (λ g. length g.1.now < length ts.now) }
{
    let inside = past(Mark::LeftParen, ts)?;
    if let Some(rest) = rest_after(Mark::RightParen, inside) {
        let groups = Vec::new(alloc);
        let ended = false;
        return Ok((GroupList { groups, ended }, rest));
    }
    let (groups, rest) = some_groups(alloc, levels, valued, inside)?;
    groups_end(groups, rest)
}

// The block of a function or a shader.
fn body<'a>(
    alloc: Global,
    levels: u32,
    ts: &'a [Token],
) -> Result<(Vec<Stmt>, &'a [Token]), Stop<'a>>
    ensures gives { GivesItems stmt_of result (body_at levels ts.now) }
    ensures within { IfOk result (λ b. length b.1.now < length ts.now) }
{
    let inside = past(Mark::LeftBrace, ts)?;
    block(alloc, levels, inside)
}

// A function after its type.
fn function<'a>(
    alloc: Global,
    levels: u32,
    returns: SlType,
    ts: &'a [Token],
) -> Result<(Function, &'a [Token]), Stop<'a>>
    ensures gives { Gives function_of result (function_with levels returns ts.now) }
    ensures within { IfOk result (λ f. length f.1.now < length ts.now) }
{
    let (name, line, rest) = name(ts)?;
    let name = name.copied(alloc)?;
    let (formals, rest) = groups(alloc, levels, Valued::Never, rest)?;
    let (body, rest) = body(alloc, levels, rest)?;
    Ok((make_function(returns, name, formals, body, line), rest))
}

// The functions before the shader.
fn functions<'a>(
    alloc: Global,
    levels: u32,
    ts: &'a [Token],
) -> Result<(Vec<Function>, &'a [Token]), Stop<'a>>
    ensures gives { GivesItems function_of result (functions_in levels ts.now) }
    ensures within { IfOk result (λ f. length f.1.now ≤ length ts.now) }
{
    let mut functions = Vec::new(alloc);
    let mut rest = ts;
    while let Some((returns, after)) = type_at(rest) {
        let (item, left) = function(alloc, levels, returns, after)?;
        push(&mut functions, item)?;
        rest = left;
    }
    Ok((functions, rest))
}

// The word for a shader's kind with its line, and the tokens after it.
fn sort_at(ts: &[Token]) -> Option<(SlKind, u32, &[Token])>
    ensures at { option_map (λ o. (o.0, o.1, o.2.now)) result ≡ sort_at ts.now }
{
    match ts {
        [first, rest @ ..] => match &first.kind {
            TokenKind::Kind(kind) => Some((*kind, first.line, rest)),
            _ => None,
        },
        [] => None,
    }
}

// The shader after its functions.
fn shader<'a>(
    alloc: Global,
    levels: u32,
    functions: Vec<Function>,
    ts: &'a [Token],
) -> Result<(Shader, &'a [Token]), Stop<'a>>
    requires few { levels ≤ 64 }
    requires shallow { levels_functions (map function_of functions.items) ≤ 64 }
    ensures gives { Gives shader_of result (shader_then levels (map function_of functions.items) ts.now (sort_at ts.now)) }
{
    let Some((kind, line, rest)) = sort_at(ts) else {
        return Err(Stop::At(code_at(ts), ts));
    };
    let (name, _, rest) = name(rest)?;
    let name = name.copied(alloc)?;
    let (params, rest) = groups(alloc, levels, Valued::Always, rest)?;
    let (body, rest) = body(alloc, levels, rest)?;
    Ok((
        Shader {
            functions: List(functions),
            kind,
            name,
            params: List(params.groups),
            ended: params.ended,
            body: List(body),
            line,
        },
        rest,
    ))
}

// A whole file.
pub fn file<'a>(
    alloc: Global,
    levels: u32,
    ts: &'a [Token],
) -> Result<(Shader, &'a [Token]), Stop<'a>>
    requires { levels ≤ 64 }
    ensures gives { Gives shader_of result (file_of levels ts.now) }
{
    let (functions, rest) = functions(alloc, levels, ts)?;
    let (shader, rest) = shader(alloc, levels, functions, rest)?;
    if rest.is_empty() {
        Ok((shader, rest))
    } else {
        Err(Stop::At(code_at(rest), rest))
    }
}
