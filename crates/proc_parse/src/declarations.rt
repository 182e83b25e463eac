//! Declarations of tables and procedures, and whole applications.

ghost use Rattle.std.specs.Prelude.{◌≡◌, []};
ghost use Rattle.proc_parse.specs.Words.{is_word};
ghost use Rattle.proc_parse.specs.Reading.{Gives, GoesOn, behind, done, expect};
ghost use Rattle.proc_parse.specs.Phrases.{names};
ghost use Rattle.proc_parse.specs.Grammar.{table_end, table, more_parameters, parameters, procedure, is_end, declares_exact, application};
ghost use Rattle.proc_parse.specs.Shorter.{shortens_procedure, shortens_table};

use crate::names::named_behind;
use crate::phrase::{
    Parsed, Phrase, Stop, ended, letting_go, list, list_in_parens, many, past_sign, past_word,
    sign, word,
};
use crate::statements::{DEEPEST_BLOCK, block};
use crate::token::{Lexeme, Sign, Token, Word};
use proc_syntax::{App, ColumnText, Named, ProcDef, TableText};
use rel_base::List;
use std::alloc::Global;

/// Reads the part of a table's declaration that names its indexed columns, which may be absent.
fn index_part<'a>(alloc: Global, tokens: &'a [Token]) -> Parsed<'a, List<Named>>
    ensures { Gives result (behind (is_word Word.Index) names (done []) tokens.now) }
{
    match past_word(tokens, Word::Index) {
        Some(rest) => list_in_parens(alloc, rest),
        None => Ok((List::new(alloc), tokens)),
    }
}

/// Reads the key of a table and its indexed columns, and the end of its declaration.
fn table_end<'a>(alloc: Global, tokens: &'a [Token]) -> Parsed<'a, (List<Named>, List<Named>)>
    ensures { Gives result (table_end tokens.now) }
{
    let rest = word(tokens, Word::Key)?;
    let (key, rest) = list_in_parens(alloc, rest)?;
    let (index, rest) = index_part(alloc, rest)?;
    ended((key, index), rest, Sign::Semicolon)
}

impl Phrase for TableText {
    ghost rule = { table };

    fn read<'a>(alloc: Global, tokens: &'a [Token]) -> Parsed<'a, TableText> {
        let (name, rest) = named_behind(alloc, tokens, Word::Table)?;
        let (columns, rest) = list_in_parens(alloc, rest)?;
        let ((key, index), rest) = match table_end(alloc, rest) {
            Ok(read) => read,
            Err(stop) => return Err(letting_go((name, columns), stop)),
        };
        let table = TableText {
            name,
            columns,
            key,
            index,
        };
        Ok((table, rest))
    }

    ghost shortens = { shortens_table };
}

/// Reads the parameters of a procedure.
fn parameters<'a>(alloc: Global, tokens: &'a [Token]) -> Parsed<'a, List<ColumnText>>
    ensures { Gives result (parameters tokens.now) }
{
    let rest = sign(tokens, Sign::Open)?;
    match past_sign(rest, Sign::Close) {
        Some(rest) => Ok((List::new(alloc), rest)),
        None => more_parameters(alloc, rest),
    }
}

/// Reads one parameter at least, after the parenthesis.
fn more_parameters<'a>(alloc: Global, tokens: &'a [Token]) -> Parsed<'a, List<ColumnText>>
    ensures { Gives result (more_parameters tokens.now) }
{
    let (params, rest) = list(alloc, tokens)?;
    ended(params, rest, Sign::Close)
}

impl Phrase for ProcDef {
    ghost rule = { procedure };

    fn read<'a>(alloc: Global, tokens: &'a [Token]) -> Parsed<'a, ProcDef> {
        let (name, rest) = named_behind(alloc, tokens, Word::Proc)?;
        let (params, rest) = parameters(alloc, rest)?;
        let (body, rest) = match block(alloc, DEEPEST_BLOCK, rest) {
            Ok(read) => read,
            Err(stop) => return Err(letting_go((name, params), stop)),
        };
        Ok((ProcDef { name, params, body }, rest))
    }

    ghost shortens = { shortens_procedure };
}

/// Reads the end of the text.
fn end(tokens: &[Token]) -> Result<&[Token], Stop<'_>>
    ensures { GoesOn result (expect is_end tokens.now) }
{
    match tokens {
        [
            Token {
                lexeme: Lexeme::End,
                ..
            },
            rest @ ..,
        ] => Ok(rest),
        _ => Err(Stop::At(tokens)),
    }
}

/// Reads `isolation exact;` at the start of an application, which may be absent.
fn declares_exact(tokens: &[Token]) -> Parsed<'_, bool>
    ensures { Gives result (declares_exact tokens.now) }
{
    match past_word(tokens, Word::Isolation) {
        Some(rest) => ended(true, word(rest, Word::Exact)?, Sign::Semicolon),
        None => Ok((false, tokens)),
    }
}

/// Reads a whole application.
pub fn application<'a>(alloc: Global, tokens: &'a [Token]) -> Parsed<'a, App>
    ensures { Gives result (application tokens.now) }
{
    let (exact, rest) = declares_exact(tokens)?;
    let (tables, rest) = many(alloc, rest, Word::Table)?;
    let (procs, rest) = many(alloc, rest, Word::Proc)?;
    match end(rest) {
        Ok(rest) => {
            let app = App {
                exact,
                tables,
                procs,
            };
            Ok((app, rest))
        }
        Err(stop) => Err(letting_go((tables, procs), stop)),
    }
}
