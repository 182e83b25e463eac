//! The words that a query takes from names.

ghost use Rattle.std.specs.Prelude.{◌≡◌, nat_eq};
ghost use Rattle.std.specs.Option.{option_copied};
ghost use Rattle.std.specs.Cmp.Lexicographic.{pointwise};
ghost use Rattle.query_text.specs.Keywords.{is_keyword, keyword_in, keyword_of, spelling};
ghost use Rattle.proc_parse.specs.Reading.{GoesOn, expect, past};

use proc_parse::phrase::Stop;
use proc_parse::{Lexeme, Token};

/// A word that is no name in a query.
#[derive(Clone, Copy, PartialEq, Eq)]
pub enum Keyword {
    As,
    Join,
    Where,
    Group,
    Order,
    By,
    Select,
    Count,
    Sum,
    Min,
    Max,
    Block,
    Pos,
}

/// All of them.
pub const KEYWORDS: [Keyword; 13] = [
    Keyword::As,
    Keyword::Join,
    Keyword::Where,
    Keyword::Group,
    Keyword::Order,
    Keyword::By,
    Keyword::Select,
    Keyword::Count,
    Keyword::Sum,
    Keyword::Min,
    Keyword::Max,
    Keyword::Block,
    Keyword::Pos,
];

impl Keyword {
    /// The word as a text has it.
    pub fn spelling(self) -> &'static str
        ensures { result.now ≡ spelling self }
    {
        match self {
            Keyword::As => "as",
            Keyword::Join => "join",
            Keyword::Where => "where",
            Keyword::Group => "group",
            Keyword::Order => "order",
            Keyword::By => "by",
            Keyword::Select => "select",
            Keyword::Count => "count",
            Keyword::Sum => "sum",
            Keyword::Min => "min",
            Keyword::Max => "max",
            Keyword::Block => "block",
            Keyword::Pos => "pos",
        }
    }
}

/// Whether some bytes spell a word.
fn is_spelled(bytes: &[u8], word: Keyword) -> bool
    ensures { result ≡ pointwise nat_eq (spelling word) bytes.now }
{
    word.spelling().as_bytes() == bytes
}

/// The word of these that some bytes spell.
fn keyword_in(words: &[Keyword], bytes: &[u8]) -> Option<Keyword>
    ensures { result ≡ keyword_in words.now bytes.now }
{
    for word in words {
        if is_spelled(bytes, *word) {
            return Some(*word);
        }
    }
    None
}

/// The word that a token is.
pub fn keyword_of(lexeme: &Lexeme) -> Option<Keyword>
    ensures { result ≡ keyword_of lexeme.now }
{
    match lexeme {
        Lexeme::Name(name) => keyword_in(&KEYWORDS, name.as_str().as_bytes()),
        _ => None,
    }
}

/// Whether a token is this word.
pub fn is_keyword(lexeme: &Lexeme, word: Keyword) -> bool
    ensures { result ≡ is_keyword word lexeme.now }
{
    match keyword_of(lexeme) {
        Some(own) => own == word,
        None => false,
    }
}

/// The tokens after this word, if it is the first one.
pub fn past_keyword(tokens: &[Token], word: Keyword) -> Option<&[Token]>
    ensures { option_copied result ≡ past (is_keyword word) tokens.now }
{
    match tokens {
        [first, rest @ ..] if is_keyword(&first.lexeme, word) => Some(rest),
        _ => None,
    }
}

/// Reads this word.
pub fn read_keyword(tokens: &[Token], word: Keyword) -> Result<&[Token], Stop<'_>>
    ensures { GoesOn result (expect (is_keyword word) tokens.now) }
{
    match tokens {
        [first, rest @ ..] if is_keyword(&first.lexeme, word) => Ok(rest),
        _ => Err(Stop::At(tokens)),
    }
}
