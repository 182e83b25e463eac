//! Statements without blocks.

ghost use Rattle.std.specs.Prelude.{◌≡◌};
ghost use Rattle.proc_parse.specs.Reading.{Gives};
ghost use Rattle.proc_parse.specs.Statements.{keyed, new_value, let_statement, assignment, insert_statement, change, changes, update_statement, delete_statement, text_rule, fail_statement};
ghost use Rattle.proc_parse.specs.Shorter.{shortens_change};

use crate::names::named_behind;
use crate::phrase::{Parsed, Phrase, Stop, ended, list, list_in_parens, sign, word};
use crate::token::{Lexeme, Sign, Token, Word};
use proc_syntax::{Change, Expr, Named, Stmt};
use rel_base::{List, Str, Twin};
use std::alloc::Global;

/// Reads `WORD TABLE key (KEY)`.
pub fn keyed<'a>(
    alloc: Global,
    tokens: &'a [Token],
    behind: Word,
) -> Parsed<'a, (Named, List<Expr>)>
    ensures { Gives result (keyed behind tokens.now) }
{
    let (table, rest) = named_behind(alloc, tokens, behind)?;
    let rest = word(rest, Word::Key)?;
    let (key, rest) = list_in_parens(alloc, rest)?;
    Ok(((table, key), rest))
}

/// Reads `= VALUE`.
fn new_value<'a>(alloc: Global, tokens: &'a [Token]) -> Parsed<'a, Expr>
    ensures { Gives result (new_value tokens.now) }
{
    let rest = sign(tokens, Sign::Equal)?;
    Expr::read(alloc, rest)
}

/// Reads `let NAME = VALUE;`.
pub fn let_statement<'a>(alloc: Global, tokens: &'a [Token]) -> Parsed<'a, Stmt>
    ensures { Gives result (let_statement tokens.now) }
{
    let (name, rest) = named_behind(alloc, tokens, Word::Let)?;
    let (value, rest) = new_value(alloc, rest)?;
    ended(Stmt::Let { name, value }, rest, Sign::Semicolon)
}

/// Reads `NAME = VALUE;`.
pub fn assignment<'a>(alloc: Global, tokens: &'a [Token]) -> Parsed<'a, Stmt>
    ensures { Gives result (assignment tokens.now) }
{
    let (name, rest) = Named::read(alloc, tokens)?;
    let (value, rest) = new_value(alloc, rest)?;
    ended(Stmt::Assign { name, value }, rest, Sign::Semicolon)
}

/// Reads `insert TABLE (VALUES);`.
pub fn insert_statement<'a>(alloc: Global, tokens: &'a [Token]) -> Parsed<'a, Stmt>
    ensures { Gives result (insert_statement tokens.now) }
{
    let (table, rest) = named_behind(alloc, tokens, Word::Insert)?;
    let (values, rest) = list_in_parens(alloc, rest)?;
    ended(Stmt::Insert { table, values }, rest, Sign::Semicolon)
}

impl Phrase for Change {
    ghost rule = { change };

    fn read<'a>(alloc: Global, tokens: &'a [Token]) -> Parsed<'a, Change> {
        let (column, rest) = Named::read(alloc, tokens)?;
        let (value, rest) = new_value(alloc, rest)?;
        Ok((Change { column, value }, rest))
    }

    ghost shortens = { shortens_change };
}

/// Reads `set CHANGES`.
fn changes<'a>(alloc: Global, tokens: &'a [Token]) -> Parsed<'a, List<Change>>
    ensures { Gives result (changes tokens.now) }
{
    let rest = word(tokens, Word::Set)?;
    list(alloc, rest)
}

/// Reads `update TABLE key (KEY) set CHANGES;`.
pub fn update_statement<'a>(alloc: Global, tokens: &'a [Token]) -> Parsed<'a, Stmt>
    ensures { Gives result (update_statement tokens.now) }
{
    let ((table, key), rest) = keyed(alloc, tokens, Word::Update)?;
    let (changes, rest) = changes(alloc, rest)?;
    let update = Stmt::Update {
        table,
        key,
        changes,
    };
    ended(update, rest, Sign::Semicolon)
}

/// Reads `delete TABLE key (KEY);`.
pub fn delete_statement<'a>(alloc: Global, tokens: &'a [Token]) -> Parsed<'a, Stmt>
    ensures { Gives result (delete_statement tokens.now) }
{
    let ((table, key), rest) = keyed(alloc, tokens, Word::Delete)?;
    ended(Stmt::Delete { table, key }, rest, Sign::Semicolon)
}

/// Reads a text.
fn text<'a>(alloc: Global, tokens: &'a [Token]) -> Parsed<'a, Str>
    ensures { Gives result (text_rule tokens.now) }
{
    match tokens {
        [
            Token {
                lexeme: Lexeme::Text(text),
                ..
            },
            rest @ ..,
        ] => Ok((text.copy(alloc)?, rest)),
        _ => Err(Stop::At(tokens)),
    }
}

/// Reads `fail TEXT;`.
pub fn fail_statement<'a>(alloc: Global, tokens: &'a [Token]) -> Parsed<'a, Stmt>
    ensures { Gives result (fail_statement tokens.now) }
{
    let rest = word(tokens, Word::Fail)?;
    let (text, rest) = text(alloc, rest)?;
    ended(Stmt::Fail { text }, rest, Sign::Semicolon)
}
