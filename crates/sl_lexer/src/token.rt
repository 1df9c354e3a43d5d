// The tokens of a shader's text.
use fixed_math::Text;
use sl_ast::{Class, Operator, SetOperator, SlKind, SlType};

/// A reserved word that begins or joins statements.
#[derive(Clone, Copy)]
pub enum Word {
    Break,
    Continue,
    Return,
    If,
    Else,
    While,
    For,
    Illuminance,
    Illuminate,
    Solar,
}

/// A bracket or separator.
#[derive(Clone, Copy)]
pub enum Mark {
    LeftParen,
    RightParen,
    LeftBrace,
    RightBrace,
    Semicolon,
    Comma,
    Question,
    Colon,
}

/// What a token is. A number and a name are their bytes, a string is its bytes with escapes resolved.
#[derive(Drop)]
pub enum TokenKind {
    Number(Text),
    Str(Text),
    Name(Text),
    Kind(SlKind),
    Class(Class),
    Type(SlType),
    Word(Word),
    Mark(Mark),
    Operator(Operator),
    Not,
    Set(SetOperator),
    /// A place where no token begins; the text after it isn't read.
    Bad,
}

/// A token with the line on which it begins.
#[derive(Drop)]
pub struct Token {
    pub kind: TokenKind,
    pub line: u32,
}
