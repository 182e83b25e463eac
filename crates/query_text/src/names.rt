//! Names, and sources.

ghost use Rattle.std.specs.Prelude.{◌≡◌, IfOk};
ghost use Rattle.proc_parse.specs.Reading.{Gives};
ghost use Rattle.query_text.specs.Grammar.{name_of, named, place_of, source};
ghost use Rattle.query_text.specs.Shorter.{shortens_named, shortens_source};

use crate::keyword::{Keyword, keyword_of, read_keyword};
use crate::tree::{NameText, SourceText};
use proc_parse::lexer::Position;
use proc_parse::phrase::{Parsed, Phrase, Stop};
use proc_parse::{Lexeme, Token};
use rel_base::{Name, NoMemory, Twin};
use std::alloc::Global;

/// Where a token stands.
pub fn place_of(token: &Token) -> Position
    ensures { result ≡ place_of token.now }
{
    Position {
        line: token.line,
        col: token.col,
    }
}

/// The name that a token is, where no word of queries is spelled so.
fn name_of(alloc: Global, lexeme: &Lexeme) -> Result<Option<Name>, NoMemory>
    ensures { IfOk result (λ name. name ≡ name_of lexeme.now) }
{
    match lexeme {
        Lexeme::Name(name) => match keyword_of(lexeme) {
            Some(_) => Ok(None),
            None => Ok(Some(name.copy(alloc)?)),
        },
        _ => Ok(None),
    }
}

impl Phrase for NameText {
    ghost rule = { named };

    fn read<'a>(alloc: Global, tokens: &'a [Token]) -> Parsed<'a, NameText> {
        let [first, rest @ ..] = tokens else {
            return Err(Stop::At(tokens));
        };
        match name_of(alloc, &first.lexeme)? {
            Some(name) => Ok((
                NameText {
                    name,
                    at: place_of(first),
                },
                rest,
            )),
            None => Err(Stop::At(tokens)),
        }
    }

    ghost shortens = { shortens_named };
}

impl Phrase for SourceText {
    ghost rule = { source };

    fn read<'a>(alloc: Global, tokens: &'a [Token]) -> Parsed<'a, SourceText> {
        let (table, rest) = NameText::read(alloc, tokens)?;
        let rest = read_keyword(rest, Keyword::As)?;
        let (name, rest) = NameText::read(alloc, rest)?;
        Ok((SourceText { table, name }, rest))
    }

    ghost shortens = { shortens_source };
}
