//! The numbers of tables and columns.

ghost use Rattle.std.specs.Prelude.{◌≡◌, ◌<◌, ◌^◌, IfOk, OnOk, length, map};
ghost use Rattle.std.specs.List.{flat_map};
ghost use Rattle.proc_syntax.specs.Scope.{column_in};
ghost use Rattle.proc_code.specs.Numbers.{with_names, table_number, column_of_table, column_names, column_places};

use crate::numbering::Numbering;
use proc_eval::scope::{column_in, table_named};
use rel_base::{Column, List, Name, NoMemory, TableDef, table_of};
use std::alloc::Global;

/// The number of the table of a name, or that of all tables where none has it.
#[tactic(auto, using(crate::proofs::Numbered::place_found, crate::proofs::Numbered::place_absent))]
pub fn table_number(tables: &List<TableDef>, name: &Name) -> u32
    requires { length tables.now < 2 ^ 32 }
    ensures { result ≡ table_number tables.now name.now }
{
    match table_of(tables, name.as_str()) {
        Some(table) => table,
        None => tables.len() as u32,
    }
}

/// The number of a column in the table of a name.
pub fn column_of_table(tables: &List<TableDef>, table: &Name, column: &Name) -> Option<usize>
    requires { length tables.now < 2 ^ 32 }
    ensures { result ≡ column_of_table tables.now table.now column.now }
{
    let (_, def) = table_named(tables, table)?;
    column_in(def, column)
}

/// Gives numbers to the names of a table's columns.
fn add_columns(alloc: Global, columns: &[Column], names: &mut Numbering) -> Result<(), NoMemory>
    ensures { OnOk result (names.new ≡ with_names names.old (map (λ column. column.name) columns.now)) }
{
    for column in columns {
        names.add(alloc, &column.name)?;
    }
    Ok(())
}

/// The names of the columns of all tables.
#[tactic(auto, using(crate::proofs::Numbered::with_both))]
pub fn column_names(alloc: Global, tables: &[TableDef]) -> Result<Numbering, NoMemory>
    ensures { IfOk result (λ names. names ≡ column_names tables.now) }
{
    let mut names = Numbering::new(alloc);
    for def in tables {
        add_columns(alloc, def.columns.as_slice(), &mut names)?;
    }
    Ok(names)
}

/// The number that the column of a name has in each table.
fn places_of(
    alloc: Global,
    tables: &[TableDef],
    name: &Name,
) -> Result<List<Option<usize>>, NoMemory>
    ensures { IfOk result (λ places. places ≡ map (λ def. column_in def name.now) tables.now) }
{
    let mut places = List::new(alloc);
    for def in tables {
        places.push(column_in(def, name))?;
    }
    Ok(places)
}

/// For each name of a column, the number of the column in each table.
pub fn column_places(
    alloc: Global,
    tables: &[TableDef],
    names: &[Name],
) -> Result<List<List<Option<usize>>>, NoMemory>
    requires { names.now ≡ column_names tables.now }
    ensures { IfOk result (λ columns. columns ≡ column_places tables.now) }
{
    let mut columns = List::new(alloc);
    for name in names {
        let places = places_of(alloc, tables, name)?;
        columns.push(places)?;
    }
    Ok(columns)
}
