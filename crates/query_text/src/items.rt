//! Items, and the numbers by which answer rows are ordered.

ghost use Rattle.std.specs.Prelude.{◌≡◌};
ghost use Rattle.proc_parse.specs.Reading.{Gives};
ghost use Rattle.query_text.specs.Grammar.{aggregate, head_of, head_of_word, item, item_by, number, plain_item};
ghost use Rattle.query_text.specs.Shorter.{shortens_item, shortens_number};

use crate::keyword::{Keyword, keyword_of, read_keyword};
use crate::tree::{ColText, ItemText, NumberText};
use proc_parse::lexer::Position;
use proc_parse::phrase::{Parsed, Phrase, Stop};
use proc_parse::{Lexeme, Token};
use std::alloc::Global;

/// What an item is, by its first token.
#[derive(Clone, Copy)]
pub enum ItemHead {
    Plain,
    Count,
    Sum,
    Min,
    Max,
}

/// What an item is that begins with a word.
fn head_of_word(word: Option<Keyword>) -> ItemHead
    ensures { result ≡ head_of_word word }
{
    match word {
        Some(Keyword::Count) => ItemHead::Count,
        Some(Keyword::Sum) => ItemHead::Sum,
        Some(Keyword::Min) => ItemHead::Min,
        Some(Keyword::Max) => ItemHead::Max,
        _ => ItemHead::Plain,
    }
}

/// What an item is that begins with the first token.
fn head_of(tokens: &[Token]) -> ItemHead
    ensures { result ≡ head_of tokens.now }
{
    match tokens {
        [] => ItemHead::Plain,
        [first, ..] => head_of_word(keyword_of(&first.lexeme)),
    }
}

/// Reads a field as an item.
fn plain_item<'a>(alloc: Global, tokens: &'a [Token]) -> Parsed<'a, ItemText>
    ensures { Gives result (plain_item tokens.now) }
{
    let (col, rest) = ColText::read(alloc, tokens)?;
    Ok((ItemText::Plain(col), rest))
}

/// Reads a word and the field of which it makes an aggregate.
fn aggregate<'a>(alloc: Global, tokens: &'a [Token], word: Keyword) -> Parsed<'a, ColText>
    ensures { Gives result (aggregate word tokens.now) }
{
    let rest = read_keyword(tokens, word)?;
    ColText::read(alloc, rest)
}

/// Reads an item of a form.
fn item_by<'a>(alloc: Global, tokens: &'a [Token], head: ItemHead) -> Parsed<'a, ItemText>
    ensures { Gives result (item_by head tokens.now) }
{
    match head {
        ItemHead::Plain => plain_item(alloc, tokens),
        ItemHead::Count => {
            let rest = read_keyword(tokens, Keyword::Count)?;
            Ok((ItemText::Count, rest))
        }
        ItemHead::Sum => {
            let (col, rest) = aggregate(alloc, tokens, Keyword::Sum)?;
            Ok((ItemText::Sum(col), rest))
        }
        ItemHead::Min => {
            let (col, rest) = aggregate(alloc, tokens, Keyword::Min)?;
            Ok((ItemText::Min(col), rest))
        }
        ItemHead::Max => {
            let (col, rest) = aggregate(alloc, tokens, Keyword::Max)?;
            Ok((ItemText::Max(col), rest))
        }
    }
}

impl Phrase for ItemText {
    ghost rule = { item };

    fn read<'a>(alloc: Global, tokens: &'a [Token]) -> Parsed<'a, ItemText> {
        item_by(alloc, tokens, head_of(tokens))
    }

    ghost shortens = { shortens_item };
}

impl Phrase for NumberText {
    ghost rule = { number };

    fn read<'a>(_alloc: Global, tokens: &'a [Token]) -> Parsed<'a, NumberText> {
        match tokens {
            [
                Token {
                    lexeme: Lexeme::Int(number),
                    line,
                    col,
                    ..
                },
                rest @ ..,
            ] => Ok((
                NumberText {
                    number: *number,
                    at: Position {
                        line: *line,
                        col: *col,
                    },
                },
                rest,
            )),
            _ => Err(Stop::At(tokens)),
        }
    }

    ghost shortens = { shortens_number };
}
