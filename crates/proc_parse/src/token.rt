//! Tokens.

ghost use Rattle.std.specs.Prelude.{◌≡◌};
ghost use Rattle.proc_parse.specs.Words.{mark, spelling};

use rel_base::{Blob, Name, Str};

/// A reserved word.
#[derive(Clone, Copy, Debug, PartialEq, Eq)]
pub enum Word {
    Table,
    Key,
    Index,
    Int,
    Text,
    Bool,
    Bytes,
    Proc,
    Let,
    If,
    Else,
    Get,
    From,
    For,
    In,
    Span,
    On,
    To,
    Insert,
    Update,
    Set,
    Delete,
    Fail,
    True,
    False,
    And,
    Or,
    Not,
    X,
    Now,
    Isolation,
    Exact,
}

/// Punctuation, or an operator.
#[derive(Clone, Copy, Debug, PartialEq, Eq)]
pub enum Sign {
    Open,
    Close,
    OpenBrace,
    CloseBrace,
    Comma,
    Semicolon,
    Dot,
    Equal,
    NotEqual,
    Less,
    LessEqual,
    Greater,
    GreaterEqual,
    Plus,
    Join,
    Minus,
    Star,
    Slash,
    Percent,
}

/// The reserved words.
pub const WORDS: [Word; 32] = [
    Word::Table,
    Word::Key,
    Word::Index,
    Word::Int,
    Word::Text,
    Word::Bool,
    Word::Bytes,
    Word::Proc,
    Word::Let,
    Word::If,
    Word::Else,
    Word::Get,
    Word::From,
    Word::For,
    Word::In,
    Word::Span,
    Word::On,
    Word::To,
    Word::Insert,
    Word::Update,
    Word::Set,
    Word::Delete,
    Word::Fail,
    Word::True,
    Word::False,
    Word::And,
    Word::Or,
    Word::Not,
    Word::X,
    Word::Now,
    Word::Isolation,
    Word::Exact,
];

/// The signs, each before those that it begins with.
pub const SIGNS: [Sign; 19] = [
    Sign::NotEqual,
    Sign::LessEqual,
    Sign::GreaterEqual,
    Sign::Join,
    Sign::Open,
    Sign::Close,
    Sign::OpenBrace,
    Sign::CloseBrace,
    Sign::Comma,
    Sign::Semicolon,
    Sign::Dot,
    Sign::Equal,
    Sign::Less,
    Sign::Greater,
    Sign::Plus,
    Sign::Minus,
    Sign::Star,
    Sign::Slash,
    Sign::Percent,
];

/// What a token says.
#[derive(Drop)]
pub enum Lexeme {
    Word(Word),
    Name(Name),
    Int(i64),
    Text(Str),
    Bytes(Blob),
    Sign(Sign),
    /// Bytes that are no token.
    Bad,
    /// The end of the text.
    End,
}

/// A token, and where it stands: line and column count from 1, columns in bytes, and the places from 0 of its first byte and of the byte
/// after its last one.
#[derive(Drop)]
pub struct Token {
    pub lexeme: Lexeme,
    pub line: u32,
    pub col: u32,
    pub start: u32,
    pub end: u32,
}

impl Word {
    /// The word as a text has it.
    pub fn spelling(self) -> &'static str
        ensures { result.now ≡ spelling self }
    {
        match self {
            Word::Table => "table",
            Word::Key => "key",
            Word::Index => "index",
            Word::Int => "int",
            Word::Text => "text",
            Word::Bool => "bool",
            Word::Bytes => "bytes",
            Word::Proc => "proc",
            Word::Let => "let",
            Word::If => "if",
            Word::Else => "else",
            Word::Get => "get",
            Word::From => "from",
            Word::For => "for",
            Word::In => "in",
            Word::Span => "span",
            Word::On => "on",
            Word::To => "to",
            Word::Insert => "insert",
            Word::Update => "update",
            Word::Set => "set",
            Word::Delete => "delete",
            Word::Fail => "fail",
            Word::True => "true",
            Word::False => "false",
            Word::And => "and",
            Word::Or => "or",
            Word::Not => "not",
            Word::X => "x",
            Word::Now => "now",
            Word::Isolation => "isolation",
            Word::Exact => "exact",
        }
    }
}

impl Sign {
    /// The sign as a text has it.
    pub fn mark(self) -> &'static str
        ensures { result.now ≡ mark self }
    {
        use Sign::*;
        match self {
            Open => "(",
            Close => ")",
            OpenBrace => "{",
            CloseBrace => "}",
            Comma => ",",
            Semicolon => ";",
            Dot => ".",
            Equal => "=",
            NotEqual => "!=",
            Less => "<",
            LessEqual => "<=",
            Greater => ">",
            GreaterEqual => ">=",
            Plus => "+",
            Join => "++",
            Minus => "-",
            Star => "*",
            Slash => "/",
            Percent => "%",
        }
    }
}
