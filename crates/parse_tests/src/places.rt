//! The line and the column at which texts are refused.

ghost use Rattle.std.specs.Prelude.{length, ◌<◌, ◌^◌};

use crate::declared::tables_of;
use crate::texts::{APPLICATIONS, QUERIES};
use proc_parse::{ParseFault, parse};
use query_plan::AskFault;
use query_text::parse_select;
use rel_base::{List, NoMemory, TableDef};
use std::alloc::Global;
use std::test::Fail;

/// The declared tables of the queries.
const TABLES: &str =
    "table account (nr int, owner text, balance int) key (nr) index (owner); table firm (name text, town text, open bool) key (name);";

/// The text of a case.
fn text_of(alloc: Global, case: &str) -> Result<String, NoMemory> {
    let mut text = String::new(alloc);
    for letter in case.chars() {
        match letter {
            '@' => {}
            '$' => text.push('\n')?,
            '`' => text.push('\t')?,
            other => text.push(other)?,
        }
    }
    Ok(text)
}

/// The place of a case's mark, or line 0 where there is none.
fn mark_of(case: &str) -> (u32, u32) {
    let mut line: u32 = 1;
    let mut col: u32 = 1;
    for byte in case.as_bytes() {
        match *byte {
            b'@' => return (line, col),
            b'$' => {
                line = line.saturating_add(1);
                col = 1;
            }
            _ => col = col.saturating_add(1),
        }
    }
    (0, 0)
}

/// The place at which an application is refused, or line 0 where it is not.
fn refused_application(alloc: Global, text: &str) -> (u32, u32) {
    if text.len() > 100_000 {
        return (0, 0);
    }
    match parse(alloc, text.as_bytes()) {
        Err(ParseFault::Syntax { line, col }) => (line, col),
        _ => (0, 0),
    }
}

/// The place at which a query is refused, or line 0 where it is not.
fn refused_query(alloc: Global, tables: &List<TableDef>, text: &str) -> (u32, u32)
    requires { length tables.now < 2 ^ 32 }
{
    match parse_select(alloc, tables, text) {
        Err(
            AskFault::Syntax { line, col }
            | AskFault::UnknownName { line, col }
            | AskFault::NameTwice { line, col }
            | AskFault::WrongKind { line, col },
        ) => (line, col),
        _ => (0, 0),
    }
}

/// The first application that is not refused at its mark, if there is one.
fn wrong_application(alloc: Global) -> Result<Option<&'static str>, Fail> {
    for case in APPLICATIONS.lines() {
        let text = text_of(alloc, case)?;
        if refused_application(alloc, text.as_str()) != mark_of(case) {
            return Ok(Some(case));
        }
    }
    Ok(None)
}

/// The first query that is not refused at its mark, if there is one.
fn wrong_query(alloc: Global) -> Result<Option<&'static str>, Fail> {
    let tables = tables_of(alloc, TABLES)?;
    for case in QUERIES.lines() {
        let text = text_of(alloc, case)?;
        if refused_query(alloc, &tables, text.as_str()) != mark_of(case) {
            return Ok(Some(case));
        }
    }
    Ok(None)
}

#[test]
fn faults_are_at_their_marks(rt: HostRuntime) -> Result<(), Fail> {
    let alloc = rt.alloc();
    assert_eq!(rt; wrong_application(alloc)?, None);
    assert_eq!(rt; wrong_query(alloc)?, None);
    Ok(())
}
