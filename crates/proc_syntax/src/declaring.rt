//! The tables that an application declares.

ghost use Rattle.std.specs.Prelude.{◌≡◌, ◌<◌, ◌^◌, ◌↔◌, true, IfOk, All, length, map};
ghost use Rattle.std.specs.List.{position_from};
ghost use Rattle.proc_syntax.specs.Declaring.{column_number, known_columns, column_of, declare, tables_of};

use crate::tree::{App, ColumnText, Named, TableText};
use rel_base::{Column, List, Name, NoMemory, TableDef, Twin};
use std::alloc::Global;

/// The number of the first column of a name.
pub fn column_number(columns: &[ColumnText], name: &Name) -> Option<u32>
    requires { length columns.now < 2 ^ 32 }
    ensures { result ≡ column_number columns.now name.now }
{
    for (i, column) in columns.iter().enumerate() {
        if column.name.name.as_str() == name.as_str() {
            return Some(i as u32);
        }
    }
    None
}

/// The numbers of the columns that are named, without the names that are no columns.
fn known_columns(
    alloc: Global,
    columns: &[ColumnText],
    names: &[Named],
) -> Result<List<u32>, NoMemory>
    requires { length columns.now < 2 ^ 32 }
    ensures { IfOk result (λ numbers. numbers ≡ known_columns columns.now names.now) }
{
    let mut numbers = List::new(alloc);
    for named in names {
        match column_number(columns, &named.name) {
            Some(number) => numbers.push(number)?,
            None => {}
        }
    }
    Ok(numbers)
}

fn columns_of(alloc: Global, texts: &[ColumnText]) -> Result<List<Column>, NoMemory>
    ensures { IfOk result (λ columns. columns ≡ map column_of texts.now) }
{
    let mut columns = List::new(alloc);
    for text in texts {
        let column = Column {
            name: text.name.name.copy(alloc)?,
            kind: text.kind,
        };
        columns.push(column)?;
    }
    Ok(columns)
}

/// The declaration of a table's text.
#[tactic(auto, using(crate::specs::Declaring::known_in_range))]
pub fn declare(alloc: Global, text: &TableText) -> Result<TableDef, NoMemory>
    requires { length text.now.columns < 2 ^ 32 }
    ensures { IfOk result (λ def. def ≡ declare text.now) }
{
    let texts = text.columns.as_slice();
    Ok(TableDef {
        name: text.name.name.copy(alloc)?,
        columns: columns_of(alloc, texts)?,
        key: known_columns(alloc, texts, text.key.as_slice())?,
        index: known_columns(alloc, texts, text.index.as_slice())?,
    })
}

/// The declarations of an application's tables, in their order.
pub fn tables_of(alloc: Global, app: &App) -> Result<List<TableDef>, NoMemory>
    requires { All (λ table. length table.columns < 2 ^ 32) app.now.tables }
    ensures { IfOk result (λ tables. tables ≡ tables_of app.now) }
{
    let mut tables = List::new(alloc);
    for text in app.tables.as_slice() {
        let def = declare(alloc, text)?;
        tables.push(def)?;
    }
    Ok(tables)
}

/// Whether each table has fewer than 2^32 columns, so that columns have numbers.
pub fn has_few_columns(app: &App) -> bool
    ensures { (result ≡ true) ↔ All (λ table. length table.columns < 2 ^ 32) app.now.tables }
{
    for text in app.tables.as_slice() {
        if text.columns.len() >= 4_294_967_296 {
            return false;
        }
    }
    true
}
