//! Lists that have a greatest length.

ghost use Rattle.std.specs.Prelude.{◌≡◌, []};
ghost use Rattle.std.specs.Option.{option_copied};
ghost use Rattle.proc_parse.specs.Reading.{Gives, past};
ghost use Rattle.query_text.specs.Lists.{list_upto, separates};

use crate::keyword::{Keyword, is_keyword};
use proc_parse::phrase::{Parsed, Phrase, Stop};
use proc_parse::{Lexeme, Sign, Token, Word};
use rel_base::List;
use std::alloc::Global;

/// What stands between the elements of a list.
#[derive(Clone, Copy)]
pub enum Separator {
    Comma,
    And,
    Join,
}

/// Whether a token stands between the elements of a list.
fn separates(separator: Separator, token: &Token) -> bool
    ensures { result ≡ separates separator token.now.lexeme }
{
    match separator {
        Separator::Comma => token.is_sign(Sign::Comma),
        Separator::And => token.is_word(Word::And),
        Separator::Join => is_keyword(&token.lexeme, Keyword::Join),
    }
}

/// The tokens after a separator, if it is the first one.
fn past(separator: Separator, tokens: &[Token]) -> Option<&[Token]>
    ensures { option_copied result ≡ past (separates separator) tokens.now }
{
    match tokens {
        [first, rest @ ..] if separates(separator, first) => Some(rest),
        _ => None,
    }
}

/// Reads at least one phrase, and at most so many, with separators between them. The phrase that would be one too many has no place,
/// and the separator before it has one.
pub fn list_upto<'a, T: Phrase>(
    alloc: Global,
    tokens: &'a [Token],
    separator: Separator,
    most: u32,
) -> Parsed<'a, List<T>>
    ensures { Gives result (list_upto separator T.rule most tokens.now) }
{
    let mut items = List::new(alloc);
    let mut rest = tokens;
    let mut more = most;
    while more > 0 {
        let (item, after) = T::read(alloc, rest)?;
        items.push(item)?;
        match past(separator, after) {
            Some(next) => rest = next,
            None => return Ok((items, after)),
        }
        more -= 1;
    }
    Err(Stop::At(rest))
}
