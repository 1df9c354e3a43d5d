// The requests of a scene's tokens.
ghost use Rattle.std.specs.Prelude.{◌≡◌, ◌≤◌, [], ◌∷◌, IfOk, OnOk, length, map, take, drop, option_map};
ghost use Rattle.std.specs.List.{prefix_len};
ghost use Rattle.rib_reader.specs.Values.{scan_of};
ghost use Rattle.rib_reader.specs.Rules.{joined, three_as_one, as_numbers, word_at, dict_after};
ghost use Rattle.rib_reader.specs.declared.req.Req.TheVariants.{Declare};
ghost use Rattle.rib_reader.specs.declared.args.Arg.TheVariants.{Number, Numbers};
ghost use Rattle.rib_reader.specs.Laws.{JoinLaw, SpellLaw, ReadLaw};
ghost use Rattle.rib_reader.specs.Reading.{is_value, is_inside, is_number, numbers_inside, counted_code, first_word, list_in, checked, of_values, of_scan, of_group, requests_of, GivesOne, GivesAll};

use crate::args::Arg;
use crate::arguments::word;
use crate::codes::{code_when, lower_of};
use crate::declarations::declared_type;
use crate::declared::Declarations;
use crate::faults::{RibCode, RibFault};
use crate::list_faults::request_fault;
use crate::listing::Listing;
use crate::names::{Named, request_named};
use crate::pairs::list;
use crate::req::Req;
use crate::request::Request;
use crate::rows::row;
use crate::rules::following;
use crate::scans::scan;
use fixed_math::{Decimal, List, NoMemory, Text};
use rib_lex::{Token, TokenKind};
use scene::Param;
use std::alloc::Global;

// The one value that is an array of these numbers.
fn as_array(alloc: Global, numbers: &[Decimal]) -> Result<List<Arg>, NoMemory>
    ensures { IfOk result (λ r. r ≡ Numbers numbers.now ∷ []) }
{
    let mut array = Vec::new(alloc);
    array.extend_from_slice(numbers)?;
    let mut values = Vec::new(alloc);
    values.push(Arg::Numbers(List(array)))?;
    Ok(List(values))
}

// Three numbers are one array.
fn join_three(alloc: Global, values: List<Arg>) -> Result<List<Arg>, NoMemory>
    ensures { IfOk result (λ r. r ≡ three_as_one values) }
{
    if let [Arg::Number(a), Arg::Number(b), Arg::Number(c)] = values.0.as_slice() {
        return as_array(alloc, &[*a, *b, *c]);
    }
    Ok(values)
}

// Numbers as values.
fn each_number(alloc: Global, numbers: &[Decimal]) -> Result<List<Arg>, NoMemory>
    ensures { IfOk result (λ r. r ≡ map (λ d. Number d) numbers.now) }
{
    let mut values = Vec::new(alloc);
    for number in numbers {
        values.push(Arg::Number(*number))?;
    }
    Ok(List(values))
}

// An array of so many numbers stands for them.
fn as_numbers(alloc: Global, n: usize, values: List<Arg>) -> Result<List<Arg>, NoMemory>
    ensures { IfOk result (λ r. r ≡ as_numbers n values) }
{
    let Some(Arg::Numbers(numbers)) = values.0.first() else {
        return Ok(values);
    };
    if numbers.0.len() != n {
        return Ok(values);
    }
    let mut spread = each_number(alloc, numbers.as_slice())?;
    let mut values = values;
    values.0.remove(0);
    spread.0.append(&mut values.0)?;
    Ok(spread)
}

fn join(alloc: Global, name: Req, values: List<Arg>) -> Result<List<Arg>, NoMemory>
    ensures { IfOk result (λ r. r ≡ joined name values) }
{
    match name {
        Req::Color | Req::Opacity => join_three(alloc, values),
        Req::Sphere | Req::Cylinder => as_numbers(alloc, 4, values),
        Req::Cone | Req::Disk => as_numbers(alloc, 3, values),
        _ => Ok(values),
    }
}

// The first so many values, and those behind them.
fn split(values: &[Arg], n: usize) -> (&[Arg], &[Arg])
    ensures front { result.0.now ≡ take n values.now }
    ensures back { result.1.now ≡ drop n values.now }
{
    if n <= values.len() {
        values.split_at(n)
    } else {
        (values, &[])
    }
}

// What is read of the values behind the arguments.
fn listing(
    alloc: Global,
    declarations: &Declarations<'_>,
    name: Req,
    values: &[Arg],
) -> Result<Listing, NoMemory>
    ensures { IfOk result (λ l. l ≡ list_in declarations.now name values.now) }
{
    let (args, rest) = split(values, row(name).shapes.len());
    list(alloc, following(name, args), declarations, rest)
}

// A request in which no code stands, beside what was met before.
fn check(
    alloc: Global,
    before: Option<RibCode>,
    name: Req,
    args: List<Arg>,
    params: List<Param>,
    line: u32,
) -> Result<Request, RibFault>
    ensures { GivesOne result (checked before record { name = name; args = args; params = params; line = line }) }
{
    let own = request_fault(alloc, name, &args.0, &params.0)?;
    match lower_of(before, own) {
        Some(code) => Err(RibFault::At { code, line }),
        None => Ok(Request {
            name,
            args,
            params,
            line,
        }),
    }
}

fn read_values(
    alloc: Global,
    declarations: &Declarations<'_>,
    name: Req,
    before: Option<RibCode>,
    values: List<Arg>,
    line: u32,
) -> Result<Request, RibFault>
    ensures { GivesOne result (of_values declarations.now name before values line) }
{
    let listing = listing(alloc, declarations, name, &values.0)?;
    let before = lower_of(before, listing.fault);
    let mut args = values;
    args.0.truncate(row(name).shapes.len());
    check(alloc, before, name, args, listing.params, line)
}

// Whether a token doesn't end an array.
fn stays_inside(token: &Token) -> bool
    ensures { result ≡ is_inside token.now }
{
    !matches!(token.kind, TokenKind::Close)
}

// Whether a token is a number.
fn is_number(token: &Token) -> bool
    ensures { result ≡ is_number token.now }
{
    matches!(token.kind, TokenKind::Number(_))
}

// How many numbers stand before the end of an array.
fn numbers_inside(items: &[Token]) -> usize
    ensures { result ≡ numbers_inside items.now }
{
    items
        .iter()
        .take_while(|t| stays_inside(*t))
        .filter(|t| is_number(*t))
        .count()
}

// What is said of the number of times of a motion, which begin these tokens as an array.
fn counted(name: Req, body: &[Token]) -> Option<RibCode>
    ensures { result ≡ counted_code name body.now }
{
    if !matches!(name, Req::MotionBegin) {
        return None;
    }
    let (head, items) = body.split_first()?;
    if !matches!(head.kind, TokenKind::Open) {
        return None;
    }
    code_when(numbers_inside(items) != 2, RibCode::S2)
}

fn read_known(
    alloc: Global,
    declarations: &Declarations<'_>,
    name: Req,
    body: &[Token],
    line: u32,
) -> Result<Request, RibFault>
    ensures { GivesOne result (of_scan declarations.now name (counted_code name body.now) (scan_of body.now) line) }
{
    let scan = scan(alloc, body)?;
    let values = join(alloc, name, scan.values)?;
    let before = lower_of(code_when(scan.broken, RibCode::S3), counted(name, body));
    read_values(alloc, declarations, name, before, values, line)
}

// The request of a token with those behind it.
fn read_group(
    alloc: Global,
    declarations: &Declarations<'_>,
    kind: &TokenKind,
    line: u32,
    body: &[Token],
) -> Result<Request, RibFault>
    ensures { GivesOne result (of_group declarations.now kind.now line body.now) }
{
    let TokenKind::Name(text) = kind else {
        return Err(RibFault::At {
            code: RibCode::S3,
            line,
        });
    };
    match request_named(text.as_str()) {
        Some(Named::Known(name)) => read_known(alloc, declarations, name, body, line),
        Some(Named::LeftOut) => Err(RibFault::At {
            code: RibCode::S2,
            line,
        }),
        None => Err(RibFault::At {
            code: RibCode::S1,
            line,
        }),
    }
}

// The string that the first of these tokens is.
fn first_word(body: &[Token]) -> Option<&Text>
    ensures { option_map (λ t. t.now) result ≡ first_word body.now }
{
    match &body.first()?.kind {
        TokenKind::Str(text) => Some(text),
        _ => None,
    }
}

// What a request with these tokens declares holds from here on.
fn note_declared<'a>(
    alloc: Global,
    declarations: &mut Declarations<'a>,
    request: &Request,
    body: &'a [Token],
) -> Result<(), NoMemory>
    requires { request.now.name ≡ Declare → word_at request.now.args 0 ≡ first_word body.now }
    ensures { OnOk result (declarations.new ≡ dict_after declarations.old request.now.name request.now.args) }
{
    if !matches!(request.name, Req::Declare) {
        return Ok(());
    }
    if let (Some(name), Some(text)) = (first_word(body), word(&request.args.0, 1)) {
        if let Ok((class, kind)) = declared_type(alloc, text)? {
            declarations.push(name, class, kind)?;
        }
    }
    Ok(())
}

// The request of a token with those behind it; what it declares holds from here on.
fn read_next<'a>(
    alloc: Global,
    declarations: &mut Declarations<'a>,
    head: &Token,
    body: &'a [Token],
) -> Result<Request, RibFault>
    ensures request { GivesOne result (of_group declarations.old head.now.kind head.now.line body.now) }
    ensures declared { IfOk result (λ request. declarations.new ≡ dict_after declarations.old request.name request.args) }
{
    let request = read_group(alloc, declarations, &head.kind, head.line, body)?;
    note_declared(alloc, declarations, &request, body)?;
    Ok(request)
}

fn inner(token: &Token) -> bool
    ensures { result ≡ is_value token.now }
{
    !matches!(token.kind, TokenKind::Name(_))
}

// How many tokens stand before the next name.
fn body_len(tokens: &[Token]) -> usize
    ensures within { result ≤ length tokens.now }
    ensures len { result ≡ prefix_len is_value tokens.now }
{
    tokens.iter().take_while(|t| inner(*t)).count()
}

// The requests one after another, each with its tokens up to the next name.
fn read_all(alloc: Global, tokens: &[Token]) -> Result<Vec<Request>, RibFault>
    ensures { GivesAll result (requests_of tokens.now) }
{
    let mut done = Vec::new(alloc);
    let mut declarations = Declarations::new(alloc);
    let mut rest = tokens;
    while let Some((head, behind)) = rest.split_first() {
        let (body, after) = behind.split_at(body_len(behind));
        let request = read_next(alloc, &mut declarations, head, body)?;
        done.push(request)?;
        rest = after;
    }
    Ok(done)
}

/// The requests of a scene's tokens, in order, or its first fault with the line of the request's name; want of memory aside.
///
/// A request is a name, its arguments, and where the table says so pairs of a token and a value (RenderMan Interface 3.2,
/// appendix C). In one request the lowest code comes. Tokens before the first name are S3 with their own line.
#[tactic(auto, using(crate::proofs::Joining::join_law, crate::proofs::Spelling::spell_law, crate::proofs::Spelling::read_law))]
pub fn requests(alloc: Global, tokens: &[Token]) -> Result<Vec<Request>, RibFault>
    ensures gives { GivesAll result (requests_of tokens.now) }
    ensures joins { JoinLaw }
    ensures spells { SpellLaw }
    ensures reads { ReadLaw }
{
    read_all(alloc, tokens)
}
