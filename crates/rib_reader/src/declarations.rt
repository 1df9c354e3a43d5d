// What declarations and tokens say of a variable's class and kind.
ghost use Rattle.std.specs.Prelude.{◌≡◌, ◌==◌, ◌∷◌, [], ◌++◌, IfOk, if◌then◌else◌, length};
ghost use Rattle.std.specs.Str.{IsAscii};
ghost use Rattle.rib_reader.specs.Words.{is_white, words_of, typed, type_of, named_so, inline_of, declared_type, last_type, token_of};
ghost use Rattle.std.specs.Option.{option_or};
ghost use Rattle.rib_reader.specs.Names.{entry_of, class_names, kind_names, variable_names};

use crate::declared::{Declarations, Declared};
use crate::faults::RibCode;
use crate::names::{class_named, kind_named, variable_named};
use fixed_math::{List, NoMemory, Text};
use scene::{Class, Kind};
use std::alloc::Global;

fn is_white(byte: u8) -> bool
    ensures { result ≡ is_white byte }
{
    byte == b' ' || byte == b'\t' || byte == b'\n' || byte == b'\r'
}

// The word is one of the words, unless it has no bytes.
fn add_word(alloc: Global, words: &mut List<Text>, word: &[u8]) -> Result<(), NoMemory>
    requires { IsAscii word.now }
    ensures { IfOk result (λ _. words.new ≡ (if length word.now == 0 then words.old else words.old ++ word.now ∷ [])) }
{
    if !word.is_empty() {
        words.0.push(Text::from_bytes(alloc, word)?)?;
    }
    Ok(())
}

// The words of a text.
fn words(alloc: Global, text: &[u8]) -> Result<List<Text>, NoMemory>
    requires { IsAscii text.now }
    ensures { IfOk result (λ w. w ≡ words_of text.now) }
{
    let mut words = List(Vec::new(alloc));
    let mut word = Vec::new(alloc);
    for byte in text {
        if is_white(*byte) {
            add_word(alloc, &mut words, &word)?;
            word.clear();
        } else {
            word.push(*byte)?;
        }
    }
    add_word(alloc, &mut words, &word)?;
    Ok(words)
}

fn class_in(word: &Text) -> Option<Class>
    ensures { result ≡ entry_of class_names word.now }
{
    class_named(word.as_str())
}

fn kind_in(word: &Text) -> Option<Kind>
    ensures { result ≡ entry_of kind_names word.now }
{
    kind_named(word.as_str())
}

fn typed(class: Option<Class>, kind: Option<Kind>) -> Result<(Class, Kind), RibCode>
    ensures { result ≡ typed class kind }
{
    match (class, kind) {
        (Some(class), Some(kind)) => Ok((class, kind)),
        _ => Err(RibCode::S2),
    }
}

// The type that words give.
fn type_of(words: &[Text]) -> Result<(Class, Kind), RibCode>
    ensures { result ≡ type_of words.now }
{
    match words {
        [kind] => typed(Some(Class::Uniform), kind_in(kind)),
        [class, kind] => typed(class_in(class), kind_in(kind)),
        _ => Err(RibCode::S3),
    }
}

/// What the second word of `Declare` says.
pub fn declared_type(alloc: Global, text: &Text) -> Result<Result<(Class, Kind), RibCode>, NoMemory>
    ensures { IfOk result (λ r. r ≡ declared_type text.now) }
{
    Ok(type_of(&words(alloc, text.as_str().as_bytes())?.0))
}

fn named_so(
    alloc: Global,
    name: &Text,
    typed: Result<(Class, Kind), RibCode>,
) -> Result<Result<Declared, RibCode>, NoMemory>
    ensures { IfOk result (λ r. r ≡ named_so name.now typed) }
{
    Ok(match typed {
        Ok((class, kind)) => Ok(Declared {
            name: name.copied(alloc)?,
            class,
            kind,
        }),
        Err(code) => Err(code),
    })
}

// What the words of an inline declaration say.
fn inline(alloc: Global, words: &[Text]) -> Result<Result<Declared, RibCode>, NoMemory>
    ensures { IfOk result (λ r. r ≡ inline_of words.now) }
{
    match words {
        [kind, name] => named_so(alloc, name, typed(Some(Class::Uniform), kind_in(kind))),
        [class, kind, name] => named_so(alloc, name, typed(class_in(class), kind_in(kind))),
        _ => Ok(Err(RibCode::S4)),
    }
}

// The type of a name that is declared, by the scene or from the start.
fn known_type(declarations: &Declarations<'_>, name: &Text) -> Option<(Class, Kind)>
    ensures { result ≡ option_or (last_type declarations.now name.now) (entry_of variable_names name.now) }
{
    match declarations.type_of(name) {
        Some(typed) => Some(typed),
        None => variable_named(name.as_str()),
    }
}

/// What a token of a list stands for, behind these declarations, or the code of why for nothing.
pub fn token_meaning(
    alloc: Global,
    declarations: &Declarations<'_>,
    token: &Text,
) -> Result<Result<Declared, RibCode>, NoMemory>
    ensures { IfOk result (λ r. r ≡ token_of declarations.now token.now) }
{
    match known_type(declarations, token) {
        Some(typed) => named_so(alloc, token, Ok(typed)),
        None => inline(alloc, &words(alloc, token.as_str().as_bytes())?.0),
    }
}
