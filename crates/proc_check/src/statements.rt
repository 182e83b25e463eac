//! The check of statements, but for the blocks in them. The names of tables are looked up in the declarations, those of
//! variables in the scope.

ghost use Rattle.std.specs.Prelude.{◌≡◌, [], length, List, Option, Some};
ghost use Rattle.rel_base.specs.declared.value.Kind.{Kind};
ghost use Rattle.proc_syntax.specs.declared.tree.ColumnText.{ColumnText};
ghost use Rattle.proc_check.specs.Walk.{in_order};
ghost use Rattle.proc_check.specs.Tables.{column_kind};
ghost use Rattle.proc_check.specs.Statements.{each_fits, all_fit, keyed, walk_let, walk_assign, walk_get, end_fits, walk_span, walk_for, walk_insert, walk_change, walk_update};

use crate::expressions::{need, type_of};
use crate::fault::{Bad, BadKind};
use crate::named::{HasName, has_name, refuse};
use crate::scope::Scope;
use crate::tables::{column_kind, columns_of, is_spanned, key_of, known_column, known_table};
use proc_syntax::{Change, ColumnText, Expr, Named, Span, TableText};
use rel_base::Kind;

impl HasName for Change {
    ghost named = { λ a. a.column };

    fn named(&self) -> &Named {
        &self.column
    }
}

/// A place for a value among the columns of a table.
pub trait ColumnRef {
    ghost kind_among: { Self → List ColumnText → Option Kind };

    /// The kind of the value that it needs. No value fits a place that names no column.
    fn kind_among(&self, columns: &[ColumnText]) -> Option<Kind>
        ensures { result ≡ kind_among self.now columns.now };
}

impl ColumnRef for ColumnText {
    ghost kind_among = { λ a columns. Some a.kind };

    fn kind_among(&self, _columns: &[ColumnText]) -> Option<Kind> {
        Some(self.kind)
    }
}

impl ColumnRef for Named {
    ghost kind_among = { λ a columns. column_kind columns a.name };

    fn kind_among(&self, columns: &[ColumnText]) -> Option<Kind> {
        column_kind(columns, &self.name)
    }
}

/// Checks values for places, each of which needs a kind.
fn each_fits<T: ColumnRef>(
    tables: &[TableText],
    scope: &Scope,
    columns: &[ColumnText],
    places: &[T],
    values: &[Expr],
) -> Result<(), Bad>
    requires { length values.now ≡ length places.now }
    ensures { result ≡ each_fits (λ place. T.kind_among place columns.now) tables.now scope.now places.now values.now }
{
    for i in 0..values.len() {
        let kind = places[i].kind_among(columns);
        need(kind, type_of(tables, scope, &values[i]))?;
    }
    Ok(())
}

/// Checks values for places: as many, and each of the kind that its place needs.
fn all_fit<T: ColumnRef>(
    tables: &[TableText],
    scope: &Scope,
    name: &Named,
    columns: &[ColumnText],
    places: &[T],
    values: &[Expr],
) -> Result<(), Bad>
    ensures { result ≡ all_fit (λ place. T.kind_among place columns.now) tables.now scope.now name.now places.now values.now }
{
    if values.len() != places.len() {
        return Err(Bad {
            line: name.line,
            kind: BadKind::WrongCount,
        });
    }
    each_fits(tables, scope, columns, places, values)
}

/// Checks a table and the values of a key of it, and answers the number of the table.
pub fn keyed(
    tables: &[TableText],
    scope: &Scope,
    name: &Named,
    values: &[Expr],
) -> Result<usize, Bad>
    ensures { result ≡ keyed tables.now scope.now name.now values.now }
{
    let table = known_table(tables, name)?;
    let columns = columns_of(tables, table);
    all_fit(tables, scope, name, columns, key_of(tables, table), values)?;
    Ok(table)
}

/// Checks `let name = value`, and answers the kind of the value.
pub fn check_let(
    tables: &[TableText],
    scope: &Scope,
    name: &Named,
    value: &Expr,
) -> Result<Kind, Bad>
    ensures { result ≡ walk_let tables.now scope.now name.now value.now }
{
    scope.new_name(name)?;
    type_of(tables, scope, value).kind
}

/// Checks `name = value`.
pub fn check_assign(
    tables: &[TableText],
    scope: &Scope,
    name: &Named,
    value: &Expr,
) -> Result<(), Bad>
    ensures { result ≡ walk_assign tables.now scope.now name.now value.now }
{
    let kind = scope.value_kind(name)?;
    need(Some(kind), type_of(tables, scope, value))
}

/// Checks `get name from table key (key)`, and answers the number of the table.
pub fn check_get(
    tables: &[TableText],
    scope: &Scope,
    name: &Named,
    table: &Named,
    key: &[Expr],
) -> Result<usize, Bad>
    ensures { result ≡ walk_get tables.now scope.now name.now table.now key.now }
{
    scope.new_name(name)?;
    keyed(tables, scope, table, key)
}

/// Checks an end of a span, where it has one there.
fn end_fits(tables: &[TableText], scope: &Scope, kind: Kind, end: &Option<Expr>) -> Result<(), Bad>
    ensures { result ≡ end_fits tables.now scope.now kind end.now }
{
    match end {
        None => Ok(()),
        Some(value) => need(Some(kind), type_of(tables, scope, value)),
    }
}

/// Checks a span of the table of a number.
fn check_span(tables: &[TableText], scope: &Scope, table: usize, span: &Span<'_>) -> Result<(), Bad>
    ensures { result ≡ walk_span tables.now scope.now table span.now.column.now span.now.low.now span.now.high.now }
{
    let column = span.column;
    let kind = known_column(tables, table, column)?;
    refuse(
        !is_spanned(tables, table, &column.name),
        column.line,
        BadKind::NoIndex,
    )?;
    end_fits(tables, scope, kind, span.low)?;
    end_fits(tables, scope, kind, span.high)
}

/// Checks `for name in table span on column from low to high`, and answers the number of the table.
pub fn check_for(
    tables: &[TableText],
    scope: &Scope,
    name: &Named,
    table: &Named,
    span: &Span<'_>,
) -> Result<usize, Bad>
    ensures { result ≡ walk_for tables.now scope.now name.now table.now span.now.column.now span.now.low.now span.now.high.now }
{
    scope.new_name(name)?;
    let number = known_table(tables, table)?;
    check_span(tables, scope, number, span)?;
    Ok(number)
}

/// Checks `insert table (values)`.
pub fn check_insert(
    tables: &[TableText],
    scope: &Scope,
    table: &Named,
    values: &[Expr],
) -> Result<(), Bad>
    ensures { result ≡ walk_insert tables.now scope.now table.now values.now }
{
    let number = known_table(tables, table)?;
    let columns = columns_of(tables, number);
    all_fit(tables, scope, table, columns, columns, values)
}

/// Checks `column = value` in an update, after the changes before it.
fn check_change(
    tables: &[TableText],
    scope: &Scope,
    table: usize,
    before: &[Change],
    change: &Change,
) -> Result<(), Bad>
    ensures { result ≡ walk_change tables.now scope.now table before.now change.now }
{
    let column = &change.column;
    let kind = known_column(tables, table, column)?;
    refuse(
        has_name(key_of(tables, table), &column.name),
        column.line,
        BadKind::KeySet,
    )?;
    refuse(
        has_name(before, &column.name),
        column.line,
        BadKind::NameTwice,
    )?;
    need(Some(kind), type_of(tables, scope, &change.value))
}

/// Checks the changes of an update.
fn check_changes(
    tables: &[TableText],
    scope: &Scope,
    table: usize,
    changes: &[Change],
) -> Result<(), Bad>
    ensures { result ≡ in_order (walk_change tables.now scope.now table) [] changes.now }
{
    for i in 0..changes.len() {
        check_change(tables, scope, table, &changes[..i], &changes[i])?;
    }
    Ok(())
}

/// Checks `update table key (key) set changes`.
pub fn check_update(
    tables: &[TableText],
    scope: &Scope,
    table: &Named,
    key: &[Expr],
    changes: &[Change],
) -> Result<(), Bad>
    ensures { result ≡ walk_update tables.now scope.now table.now key.now changes.now }
{
    let number = keyed(tables, scope, table, key)?;
    check_changes(tables, scope, number, changes)
}
