//! Names, kinds and columns.

ghost use Rattle.std.specs.Prelude.{◌≡◌};
ghost use Rattle.proc_parse.specs.Reading.{Gives};
ghost use Rattle.proc_parse.specs.Phrases.{named, named_behind, kind_of_word, kind_of_lexeme, kind_rule, column};
ghost use Rattle.proc_parse.specs.Shorter.{shortens_column, shortens_named};

use crate::phrase::{Parsed, Phrase, Stop, word};
use crate::token::{Lexeme, Token, Word};
use proc_syntax::{ColumnText, Named};
use rel_base::{Kind, Twin};
use std::alloc::Global;

impl Phrase for Named {
    ghost rule = { named };

    fn read<'a>(alloc: Global, tokens: &'a [Token]) -> Parsed<'a, Named> {
        match tokens {
            [
                Token {
                    lexeme: Lexeme::Name(name),
                    line,
                    ..
                },
                rest @ ..,
            ] => {
                let name = name.copy(alloc)?;
                Ok((Named { name, line: *line }, rest))
            }
            _ => Err(Stop::At(tokens)),
        }
    }

    ghost shortens = { shortens_named };
}

/// Reads a word, and a name after it.
pub fn named_behind<'a>(alloc: Global, tokens: &'a [Token], behind: Word) -> Parsed<'a, Named>
    ensures { Gives result (named_behind behind tokens.now) }
{
    let rest = word(tokens, behind)?;
    Named::read(alloc, rest)
}

/// The kind that a word names.
fn kind_of_word(word: Word) -> Option<Kind>
    ensures { result ≡ kind_of_word word }
{
    match word {
        Word::Int => Some(Kind::Int),
        Word::Text => Some(Kind::Text),
        Word::Bool => Some(Kind::Bool),
        Word::Bytes => Some(Kind::Bytes),
        _ => None,
    }
}

/// The kind that a token names.
fn kind_of_lexeme(lexeme: &Lexeme) -> Option<Kind>
    ensures { result ≡ kind_of_lexeme lexeme.now }
{
    match lexeme {
        Lexeme::Word(word) => kind_of_word(*word),
        _ => None,
    }
}

/// Reads `int`, `text`, `bool` or `bytes`.
fn kind(tokens: &[Token]) -> Parsed<'_, Kind>
    ensures { Gives result (kind_rule tokens.now) }
{
    let [first, rest @ ..] = tokens else {
        return Err(Stop::At(tokens));
    };
    match kind_of_lexeme(&first.lexeme) {
        Some(kind) => Ok((kind, rest)),
        None => Err(Stop::At(tokens)),
    }
}

impl Phrase for ColumnText {
    ghost rule = { column };

    fn read<'a>(alloc: Global, tokens: &'a [Token]) -> Parsed<'a, ColumnText> {
        let (name, rest) = Named::read(alloc, tokens)?;
        let (kind, rest) = kind(rest)?;
        Ok((ColumnText { name, kind }, rest))
    }

    ghost shortens = { shortens_column };
}
