//! Declared tables.

ghost use Rattle.std.specs.Prelude.{◌<◌, ◌^◌, IfOk, length};

use proc_check::check;
use proc_parse::parse;
use rel_base::{List, TableDef, Twin};
use std::alloc::Global;
use std::test::Fail;

/// The tables that an application declares.
pub fn tables_of(alloc: Global, text: &str) -> Result<List<TableDef>, Fail>
    ensures { IfOk result (λ tables. length tables < 2 ^ 32) }
{
    if text.len() > 1_000 {
        return Err("a text that is too long".into());
    }
    let checked = check(alloc, parse(alloc, text.as_bytes())?)?;
    Ok(checked.tables().copy(alloc)?)
}
