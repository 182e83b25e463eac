//! Phrases of the grammar, read at the start of some tokens.

ghost use Rattle.std.specs.Prelude.{◌≡◌, List};
ghost use Rattle.std.specs.Option.{option_copied};
ghost use Rattle.proc_parse.specs.Words.{is_word, is_sign};
ghost use Rattle.proc_parse.specs.Reading.{Reader, Gives, GoesOn, Shortens, begins, past, expect};
ghost use Rattle.proc_parse.specs.Lists.{list_of, many_of};
ghost use Rattle.proc_parse.specs.Phrases.{ended, in_parens};

use crate::token::{Lexeme, Sign, Token, Word};
use rel_base::{List, NoMemory};
use std::alloc::Global;

/// Why nothing was read: memory ran out, or the tokens from the first on that has no place there.
#[derive(Clone, Copy)]
pub enum Stop<'a> {
    NoMemory,
    At(&'a [Token]),
}

impl<'a> From<NoMemory> for Stop<'a> {
    ghost use Rattle.proc_parse.specs.declared.phrase.Stop.TheVariants as stop;

    ghost from_gives = { λ _ e. e ≡ stop.NoMemory };

    fn from(_error: NoMemory) -> Stop<'a> {
        Stop::NoMemory
    }
}

/// What was read at the start of some tokens and what follows it, or why nothing was read.
pub type Parsed<'a, T> = Result<(T, &'a [Token]), Stop<'a>>;

/// What a rule of the grammar reads.
pub trait Phrase: Sized + Drop {
    ghost rule: { Reader Self };

    /// Reads a phrase at the start of the tokens, and answers what follows it too.
    fn read<'a>(alloc: Global, tokens: &'a [Token]) -> Parsed<'a, Self>
        ensures { Gives result (rule tokens.now) };

    ghost shortens: { Shortens rule };
}

impl Token {
    /// Whether it is this word.
    pub fn is_word(&self, word: Word) -> bool
        ensures { result ≡ is_word word self.now.lexeme }
    {
        match self.lexeme {
            Lexeme::Word(own) => own == word,
            _ => false,
        }
    }

    /// Whether it is this sign.
    pub fn is_sign(&self, sign: Sign) -> bool
        ensures { result ≡ is_sign sign self.now.lexeme }
    {
        match self.lexeme {
            Lexeme::Sign(own) => own == sign,
            _ => false,
        }
    }
}

/// MayContinue past a word, if it is the first token.
pub fn past_word(tokens: &[Token], word: Word) -> Option<&[Token]>
    ensures { option_copied result ≡ past (is_word word) tokens.now }
{
    match tokens {
        [first, rest @ ..] if first.is_word(word) => Some(rest),
        _ => None,
    }
}

/// Whether a word is the first token.
pub fn begins(tokens: &[Token], word: Word) -> bool
    ensures { result ≡ begins (is_word word) tokens.now }
{
    match tokens {
        [first, ..] => first.is_word(word),
        [] => false,
    }
}

/// MayContinue past a sign, if it is the first token.
pub fn past_sign(tokens: &[Token], sign: Sign) -> Option<&[Token]>
    ensures { option_copied result ≡ past (is_sign sign) tokens.now }
{
    match tokens {
        [first, rest @ ..] if first.is_sign(sign) => Some(rest),
        _ => None,
    }
}

/// Reads a word.
pub fn word(tokens: &[Token], word: Word) -> Result<&[Token], Stop<'_>>
    ensures { GoesOn result (expect (is_word word) tokens.now) }
{
    match tokens {
        [first, rest @ ..] if first.is_word(word) => Ok(rest),
        _ => Err(Stop::At(tokens)),
    }
}

/// Reads a sign.
pub fn sign(tokens: &[Token], sign: Sign) -> Result<&[Token], Stop<'_>>
    ensures { GoesOn result (expect (is_sign sign) tokens.now) }
{
    match tokens {
        [first, rest @ ..] if first.is_sign(sign) => Ok(rest),
        _ => Err(Stop::At(tokens)),
    }
}

/// Drops what was read before a fault. A function that drops it itself has to be proved for each form of it, and this call once.
pub fn letting_go<'a, T: Drop>(_read: T, stop: Stop<'a>) -> Stop<'a>
    ensures { result ≡ stop.entry }
{
    stop
}

/// Reads the sign that ends a phrase, of which all else is read.
pub fn ended<'a, T: Drop>(phrase: T, tokens: &'a [Token], end: Sign) -> Parsed<'a, T>
    ensures { Gives result (ended end phrase tokens.now) }
{
    let rest = sign(tokens, end)?;
    Ok((phrase, rest))
}

/// Reads phrases that are separated by commas, one at least.
pub fn list<'a, T: Phrase>(alloc: Global, tokens: &'a [Token]) -> Parsed<'a, List<T>>
    ensures { Gives result (list_of T.rule tokens.now) }
{
    let mut items = List::new(alloc);
    let mut rest = tokens;
    loop {
        let (item, after) = T::read(alloc, rest)?;
        items.push(item)?;
        match past_sign(after, Sign::Comma) {
            Some(next) => rest = next,
            None => return Ok((items, after)),
        }
    }
}

/// Reads phrases as long as the next token is the word that each begins with.
pub fn many<'a, T: Phrase>(alloc: Global, tokens: &'a [Token], word: Word) -> Parsed<'a, List<T>>
    ensures { Gives result (many_of (is_word word) T.rule tokens.now) }
{
    let mut items = List::new(alloc);
    let mut rest = tokens;
    while begins(rest, word) {
        let (item, after) = T::read(alloc, rest)?;
        items.push(item)?;
        rest = after;
    }
    Ok((items, rest))
}

/// Reads phrases in parentheses that are separated by commas, one at least.
pub fn list_in_parens<'a, T: Phrase>(alloc: Global, tokens: &'a [Token]) -> Parsed<'a, List<T>>
    ensures { Gives result (in_parens (list_of T.rule) tokens.now) }
{
    let rest = sign(tokens, Sign::Open)?;
    let (items, rest) = list(alloc, rest)?;
    ended(items, rest, Sign::Close)
}
