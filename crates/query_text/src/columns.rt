//! Fields of sources.

ghost use Rattle.std.specs.Prelude.{◌≡◌, IfOk};
ghost use Rattle.proc_parse.specs.Reading.{Gives};
ghost use Rattle.query_text.specs.Grammar.{col, field, field_by, field_of};
ghost use Rattle.query_text.specs.Shorter.{shortens_col};

use crate::keyword::{Keyword, keyword_of};
use crate::names::place_of;
use crate::tree::{ColText, FieldText, NameText};
use proc_parse::lexer::Position;
use proc_parse::phrase::{Parsed, Phrase, Stop, sign};
use proc_parse::{Lexeme, Sign, Token};
use rel_base::{Name, NoMemory, Twin};
use std::alloc::Global;

/// The field that a name or a word is.
fn field_by(
    alloc: Global,
    word: Option<Keyword>,
    name: &Name,
    at: Position,
) -> Result<Option<FieldText>, NoMemory>
    ensures { IfOk result (λ field. field ≡ field_by word name.now at) }
{
    match word {
        None => Ok(Some(FieldText::Column(NameText {
            name: name.copy(alloc)?,
            at,
        }))),
        Some(Keyword::Block) => Ok(Some(FieldText::Block)),
        Some(Keyword::Pos) => Ok(Some(FieldText::Pos)),
        Some(_) => Ok(None),
    }
}

/// The field that a token is.
fn field_of(alloc: Global, lexeme: &Lexeme, at: Position) -> Result<Option<FieldText>, NoMemory>
    ensures { IfOk result (λ field. field ≡ field_of lexeme.now at) }
{
    match lexeme {
        Lexeme::Name(name) => field_by(alloc, keyword_of(lexeme), name, at),
        _ => Ok(None),
    }
}

/// Reads what follows the dot.
fn field<'a>(alloc: Global, tokens: &'a [Token]) -> Parsed<'a, FieldText>
    ensures { Gives result (field tokens.now) }
{
    let [first, rest @ ..] = tokens else {
        return Err(Stop::At(tokens));
    };
    match field_of(alloc, &first.lexeme, place_of(first))? {
        Some(field) => Ok((field, rest)),
        None => Err(Stop::At(tokens)),
    }
}

impl Phrase for ColText {
    ghost rule = { col };

    fn read<'a>(alloc: Global, tokens: &'a [Token]) -> Parsed<'a, ColText> {
        let (source, rest) = NameText::read(alloc, tokens)?;
        let rest = sign(rest, Sign::Dot)?;
        let (field, rest) = field(alloc, rest)?;
        Ok((ColText { source, field }, rest))
    }

    ghost shortens = { shortens_col };
}
