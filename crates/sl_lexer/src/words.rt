// The reserved words, and all other words, which are names.
ghost use Rattle.std.specs.Prelude.{◌≡◌};
ghost use Rattle.sl_lexer.specs.Words.{sort_named, class_named, type_named, word_named, kind_named};

use crate::token::{TokenKind, Word};
use fixed_math::Text;
use sl_ast::{Class, SlKind, SlType};

fn sort_named(name: &str) -> Option<SlKind>
    ensures { result ≡ sort_named name.now }
{
    match name {
        "surface" => Some(SlKind::Surface),
        "displacement" => Some(SlKind::Displacement),
        "light" => Some(SlKind::Light),
        "volume" => Some(SlKind::Volume),
        _ => None,
    }
}

fn class_named(name: &str) -> Option<Class>
    ensures { result ≡ class_named name.now }
{
    match name {
        "uniform" => Some(Class::Uniform),
        "varying" => Some(Class::Varying),
        _ => None,
    }
}

fn type_named(name: &str) -> Option<SlType>
    ensures { result ≡ type_named name.now }
{
    match name {
        "float" => Some(SlType::Float),
        "color" => Some(SlType::Color),
        "point" => Some(SlType::Point),
        "vector" => Some(SlType::Vector),
        "normal" => Some(SlType::Normal),
        "string" => Some(SlType::Str),
        _ => None,
    }
}

fn word_named(name: &str) -> Option<Word>
    ensures { result ≡ word_named name.now }
{
    match name {
        "break" => Some(Word::Break),
        "continue" => Some(Word::Continue),
        "return" => Some(Word::Return),
        "if" => Some(Word::If),
        "else" => Some(Word::Else),
        "while" => Some(Word::While),
        "for" => Some(Word::For),
        "illuminance" => Some(Word::Illuminance),
        "illuminate" => Some(Word::Illuminate),
        "solar" => Some(Word::Solar),
        _ => None,
    }
}

// The token that is spelled so.
pub fn kind_named(name: Text) -> TokenKind
    ensures { result ≡ kind_named name }
{
    if let Some(sort) = sort_named(name.as_str()) {
        return TokenKind::Kind(sort);
    }
    if let Some(class) = class_named(name.as_str()) {
        return TokenKind::Class(class);
    }
    if let Some(kind) = type_named(name.as_str()) {
        return TokenKind::Type(kind);
    }
    if let Some(word) = word_named(name.as_str()) {
        return TokenKind::Word(word);
    }
    TokenKind::Name(name)
}
