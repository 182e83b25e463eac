//! Queries from texts.

ghost use Rattle.std.specs.Prelude.{◌≡◌, ◌<◌, ◌^◌, IfOk, length};
ghost use Rattle.proc_parse.specs.Faults.{position_of};
ghost use Rattle.query_plan.specs.Answer.{Answers};
ghost use Rattle.query_plan.specs.Fits.{IsSelectOver};
ghost use Rattle.query_text.specs.Faults.{IfSyntax, RefusedIn, ViableIn};
ghost use Rattle.query_text.specs.Walk.{select_of, syntax};

use crate::query::query;
use crate::walk::walk;
use proc_parse::Token;
use proc_parse::lexer::tokens;
use proc_parse::parser::position_of;
use proc_parse::phrase::Stop;
use query_plan::{AskFault, Select};
use rel_base::{List, TableDef};
use std::alloc::Global;

/// The greatest length of a text in bytes.
const MOST_BYTES: usize = 4096;

/// The fault of a text of which these tokens have no place.
fn syntax(rest: &[Token]) -> AskFault
    ensures { result ≡ syntax (position_of rest.now) }
{
    let at = position_of(rest);
    AskFault::Syntax {
        line: at.line,
        col: at.col,
    }
}

/// The query that a text is over declared tables.
///
/// A text of more than 4,096 bytes is `Syntax` at line 0 and column 0, and any other text that is not in the grammar is `Syntax` at the
/// first token that nothing allows. Then the walk in the order of the text ends at its first fault. `UnknownName` is a table, source or
/// column that is not there; `NameTwice` a source's name that an earlier source has; `WrongKind` a right side of another kind than the
/// left one, a sum of what is no int, a field in a query with groups or aggregates that makes no groups, or a number that names no item.
#[tactic(auto, using(crate::proofs::Unrefused::walk_refuses, crate::proofs::Unrefused::walk_gives))]
pub fn parse_select(alloc: Global, tables: &List<TableDef>, text: &str) -> Result<Select, AskFault>
    requires { length tables.now < 2 ^ 32 }
    // It is what the grammar and the walk make of the text.
    ensures meant { Answers result (select_of tables.now text.now) }
    // What is read may be asked of these tables.
    ensures over { IfOk result (IsSelectOver tables.now) }
    // A token stands at the place of a syntax fault that no continuation of the tokens before it allows.
    ensures refused { IfSyntax result (RefusedIn text.now) }
    // The tokens before it go on to a query, of which lists may have one element more: it is the first that nothing allows.
    ensures viable { IfSyntax result (ViableIn text.now) }
{
    if text.len() > MOST_BYTES {
        return Err(AskFault::Syntax { line: 0, col: 0 });
    }
    let tokens = tokens(alloc, text.as_bytes())?;
    match query(alloc, tokens.as_slice()) {
        Ok((select, _)) => walk(alloc, tables, &select),
        Err(Stop::NoMemory) => Err(AskFault::NoMemory),
        Err(Stop::At(rest)) => Err(syntax(rest)),
    }
}
