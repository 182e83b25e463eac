//! Declarations of tables, and what they say.

ghost use Rattle.std.specs.Prelude.{◌≡◌, ◌<◌, ◌^◌, [], length, take, All, OnOk};
ghost use Rattle.std.specs.List.{position_from};
ghost use Rattle.std.specs.Str.{bytes_eq};
ghost use Rattle.proc_check.specs.Walk.{in_order, fresh, has_name};
ghost use Rattle.proc_check.specs.Tables.{listed, walk_table, column_kind, known_table, columns_of, key_of, is_spanned, known_column};

use crate::fault::{Bad, BadKind};
use crate::named::{check_all_fresh, check_fresh, found, has_name, refuse};
use proc_syntax::{ColumnText, Named, TableText};
use rel_base::{Kind, Name};

/// The number of tables that an application may have.
pub const MOST_TABLES: usize = 64;
/// The number of columns that a table may have.
pub const MOST_COLUMNS: usize = 32;
/// The number of names that `key` or `index` may list.
pub const MOST_LISTED: usize = 8;

/// Checks a name in `key` or `index`, after those before it.
fn check_listed(columns: &[ColumnText], before: &[Named], name: &Named) -> Result<(), Bad>
    ensures { result ≡ listed columns.now before.now name.now }
{
    refuse(before.len() >= MOST_LISTED, name.line, BadKind::Limit)?;
    refuse(
        !has_name(columns, &name.name),
        name.line,
        BadKind::UnknownName,
    )?;
    refuse(has_name(before, &name.name), name.line, BadKind::NameTwice)
}

/// Checks the names in `key` or `index`.
fn check_all_listed(columns: &[ColumnText], names: &[Named]) -> Result<(), Bad>
    ensures { result ≡ in_order (listed columns.now) [] names.now }
{
    for i in 0..names.len() {
        check_listed(columns, &names[..i], &names[i])?;
    }
    Ok(())
}

/// Checks the declaration of a table, after those before it.
fn check_table(before: &[TableText], table: &TableText) -> Result<(), Bad>
    ensures { result ≡ walk_table before.now table.now }
{
    check_fresh(MOST_TABLES, before, table)?;
    check_all_fresh(MOST_COLUMNS, table.columns.as_slice())?;
    check_all_listed(table.columns.as_slice(), table.key.as_slice())?;
    check_all_listed(table.columns.as_slice(), table.index.as_slice())
}

/// Checks the declarations of tables.
fn check_each_table(tables: &[TableText]) -> Result<(), Bad>
    ensures { result ≡ in_order walk_table [] tables.now }
{
    for i in 0..tables.len() {
        check_table(&tables[..i], &tables[i])?;
    }
    Ok(())
}

/// Checks the declarations of tables. Where they have no fault, the columns of each can be numbered.
#[tactic(auto, using(crate::proofs::Limits::tables_within))]
pub fn check_tables(tables: &[TableText]) -> Result<(), Bad>
    ensures walk { result ≡ in_order walk_table [] tables.now }
    ensures within { OnOk result (All (λ table. length table.columns < 2 ^ 32) tables.now) }
{
    check_each_table(tables)?;
    Ok(())
}

/// The kind of the column of a name.
pub fn column_kind(columns: &[ColumnText], name: &Name) -> Option<Kind>
    ensures { result ≡ column_kind columns.now name.now }
{
    for column in columns {
        if column.name.name.as_str() == name.as_str() {
            return Some(column.kind);
        }
    }
    None
}

/// Whether the first of the names is this one.
fn is_listed_first(names: &[Named], name: &Name) -> bool
    ensures { result ≡ has_name (λ other. other) (take 1 names.now) name.now }
{
    match names.first() {
        Some(first) => first.name.as_str() == name.as_str(),
        None => false,
    }
}

/// The number of the first table of a name.
fn table_number(tables: &[TableText], name: &Name) -> Option<usize>
    ensures { result ≡ position_from (λ table. bytes_eq table.name.name name.now) 0 tables.now }
{
    for (i, table) in tables.iter().enumerate() {
        if table.name.name.as_str() == name.as_str() {
            return Some(i);
        }
    }
    None
}

/// The number of the table of a name.
pub fn known_table(tables: &[TableText], name: &Named) -> Result<usize, Bad>
    ensures { result ≡ known_table tables.now name.now }
{
    found(
        table_number(tables, &name.name),
        name.line,
        BadKind::UnknownName,
    )
}

/// The columns of the table of a number.
pub fn columns_of(tables: &[TableText], number: usize) -> &[ColumnText]
    ensures { result.now ≡ columns_of tables.now number }
{
    match tables.get(number) {
        Some(table) => table.columns.as_slice(),
        None => &[],
    }
}

/// The names of its key columns.
pub fn key_of(tables: &[TableText], number: usize) -> &[Named]
    ensures { result.now ≡ key_of tables.now number }
{
    match tables.get(number) {
        Some(table) => table.key.as_slice(),
        None => &[],
    }
}

/// Whether a span may be on the column of a name: it is the first of the key, or indexed.
pub fn is_spanned(tables: &[TableText], number: usize, name: &Name) -> bool
    ensures { result ≡ is_spanned tables.now number name.now }
{
    match tables.get(number) {
        Some(table) => is_listed_first(table.key.as_slice(), name)
            || has_name(table.index.as_slice(), name),
        None => false,
    }
}

/// Checks a column of the table of a number.
pub fn known_column(tables: &[TableText], number: usize, name: &Named) -> Result<Kind, Bad>
    ensures { result ≡ known_column tables.now number name.now }
{
    found(
        column_kind(columns_of(tables, number), &name.name),
        name.line,
        BadKind::UnknownName,
    )
}
