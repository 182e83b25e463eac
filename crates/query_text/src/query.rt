//! The parts of a query, and whole queries.

ghost use Rattle.std.specs.Prelude.{◌≡◌, []};
ghost use Rattle.proc_parse.specs.Grammar.{is_end};
ghost use Rattle.proc_parse.specs.Reading.{Gives, GoesOn, expect};
ghost use Rattle.query_text.specs.Grammar.{by_list, columns, conditions, items, query, select_list, select_upto, selected_of};

use crate::keyword::{Keyword, past_keyword, read_keyword};
use crate::lists::{Separator, list_upto};
use crate::tree::{ColText, ComparisonText, NumberText, SelectText, SelectedText, SourceText};
use proc_parse::phrase::{Parsed, Phrase, Stop, ended, letting_go, word};
use proc_parse::{Lexeme, Sign, Token, Word};
use rel_base::List;
use std::alloc::Global;

/// The greatest number of sources.
const MOST_SOURCES: u32 = 4;

/// The greatest length of each other list.
const MOST: u32 = 16;

/// Reads the comparisons of a query, if it has any.
fn conditions<'a>(alloc: Global, tokens: &'a [Token]) -> Parsed<'a, List<ComparisonText>>
    ensures { Gives result (conditions 16 tokens.now) }
{
    match past_keyword(tokens, Keyword::Where) {
        Some(rest) => list_upto(alloc, rest, Separator::And, MOST),
        None => Ok((List::new(alloc), tokens)),
    }
}

/// Reads a word, `by` and a list, if the word is the first token.
fn by_list<'a, T: Phrase>(alloc: Global, tokens: &'a [Token], word: Keyword) -> Parsed<'a, List<T>>
    ensures { Gives result (by_list 16 word T.rule tokens.now) }
{
    match past_keyword(tokens, word) {
        Some(rest) => {
            let rest = read_keyword(rest, Keyword::By)?;
            list_upto(alloc, rest, Separator::Comma, MOST)
        }
        None => Ok((List::new(alloc), tokens)),
    }
}

/// Reads `select` and a list.
fn select_list<'a, T: Phrase>(alloc: Global, tokens: &'a [Token]) -> Parsed<'a, List<T>>
    ensures { Gives result (select_list 16 T.rule tokens.now) }
{
    let rest = read_keyword(tokens, Keyword::Select)?;
    list_upto(alloc, rest, Separator::Comma, MOST)
}

/// Reads what a query of one source selects.
fn items<'a>(alloc: Global, tokens: &'a [Token]) -> Parsed<'a, SelectedText>
    ensures { Gives result (items 16 tokens.now) }
{
    let (groups, rest) = by_list(alloc, tokens, Keyword::Group)?;
    let (items, rest) = match select_list(alloc, rest) {
        Ok(read) => read,
        Err(stop) => return Err(letting_go(groups, stop)),
    };
    Ok((SelectedText::Items { groups, items }, rest))
}

/// Reads what a query of several sources selects.
fn columns<'a>(alloc: Global, tokens: &'a [Token]) -> Parsed<'a, SelectedText>
    ensures { Gives result (columns 16 tokens.now) }
{
    let (columns, rest) = select_list(alloc, tokens)?;
    Ok((SelectedText::Columns(columns), rest))
}

/// Reads what a query of these sources selects.
fn selected_of<'a>(
    alloc: Global,
    tokens: &'a [Token],
    sources: &List<SourceText>,
) -> Parsed<'a, SelectedText>
    ensures { Gives result (selected_of 16 sources.now tokens.now) }
{
    if sources.len() == 1 {
        items(alloc, tokens)
    } else {
        columns(alloc, tokens)
    }
}

/// Reads a query.
fn select<'a>(alloc: Global, tokens: &'a [Token]) -> Parsed<'a, SelectText>
    ensures { Gives result (select_upto 4 16 tokens.now) }
{
    let rest = word(tokens, Word::From)?;
    let (sources, rest) = list_upto(alloc, rest, Separator::Join, MOST_SOURCES)?;
    let (comparisons, rest) = match conditions(alloc, rest) {
        Ok(read) => read,
        Err(stop) => return Err(letting_go(sources, stop)),
    };
    let (selected, rest) = match selected_of(alloc, rest, &sources) {
        Ok(read) => read,
        Err(stop) => return Err(letting_go((sources, comparisons), stop)),
    };
    let (order, rest) = match by_list(alloc, rest, Keyword::Order) {
        Ok(read) => read,
        Err(stop) => return Err(letting_go((sources, comparisons, selected), stop)),
    };
    let select = SelectText {
        sources,
        comparisons,
        selected,
        order,
    };
    ended(select, rest, Sign::Semicolon)
}

/// Reads the end of the text.
fn end(tokens: &[Token]) -> Result<&[Token], Stop<'_>>
    ensures { GoesOn result (expect is_end tokens.now) }
{
    match tokens {
        [
            Token {
                lexeme: Lexeme::End,
                ..
            },
            rest @ ..,
        ] => Ok(rest),
        _ => Err(Stop::At(tokens)),
    }
}

/// Reads a query that is the whole text.
pub fn query<'a>(alloc: Global, tokens: &'a [Token]) -> Parsed<'a, SelectText>
    ensures { Gives result (query tokens.now) }
{
    let (select, rest) = select(alloc, tokens)?;
    match end(rest) {
        Ok(rest) => Ok((select, rest)),
        Err(stop) => Err(letting_go(select, stop)),
    }
}
