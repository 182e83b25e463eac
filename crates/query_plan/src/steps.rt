//! How the rows of each source of a query are read.

ghost use Rattle.std.specs.Prelude.{◌≡◌, IfOk, slice_get};
ghost use Rattle.query_plan.specs.Plan.{access_of, are_given, is_bound, is_spanned, plan_of, span_or, step_of, steps_of, way_of};

use crate::access::{Access, Bound, Step, bounds};
use crate::select::{Comparison, Select};
use rel_base::{List, NoMemory, TableDef};
use std::alloc::Global;

/// Whether a comparison bounds a column of a source.
fn is_bound(comparisons: &[Comparison], source: usize, column: u32, bound: Bound) -> bool
    ensures { result ≡ is_bound comparisons.now source bound column }
{
    for comparison in comparisons {
        if bounds(comparison, source, column, bound) {
            return true;
        }
    }
    false
}

/// Whether the comparisons give each value of a key.
fn are_given(comparisons: &[Comparison], source: usize, key: &[u32]) -> bool
    ensures { result ≡ are_given comparisons.now source key.now }
{
    for column in key {
        if !is_bound(comparisons, source, *column, Bound::Exact) {
            return false;
        }
    }
    true
}

/// Whether the comparisons bound a column from below or above.
fn is_spanned(comparisons: &[Comparison], source: usize, column: u32) -> bool
    ensures { result ≡ is_spanned comparisons.now source column }
{
    is_bound(comparisons, source, column, Bound::Low)
        || is_bound(comparisons, source, column, Bound::High)
}

/// The span by the first of some columns that the comparisons bound, or else another access.
fn span_or(comparisons: &[Comparison], source: usize, columns: &[u32], access: Access) -> Access
    ensures { result ≡ span_or comparisons.now source columns.now access }
{
    for column in columns {
        if is_spanned(comparisons, source, *column) {
            return Access::Span { column: *column };
        }
    }
    access
}

/// How the rows of a source are read: by the key where the comparisons give all of it, else by the first key column or else the first
/// indexed column that they bound, else all.
fn way_of(def: &TableDef, source: usize, comparisons: &[Comparison]) -> Access
    ensures { result ≡ way_of def.now source comparisons.now }
{
    let key = def.key.as_slice();
    if are_given(comparisons, source, key) {
        return Access::Point;
    }
    let indexed = span_or(comparisons, source, def.index.as_slice(), Access::Whole);
    match key.first() {
        None => indexed,
        Some(column) => {
            if is_spanned(comparisons, source, *column) {
                Access::Span { column: *column }
            } else {
                indexed
            }
        }
    }
}

/// How the rows of a source are read: all of them, where no table has the number.
fn access_of(tables: &[TableDef], table: u32, source: usize, comparisons: &[Comparison]) -> Access
    ensures { result ≡ access_of (slice_get tables.now table) source comparisons.now }
{
    match tables.get(table as usize) {
        None => Access::Whole,
        Some(def) => way_of(def, source, comparisons),
    }
}

/// A source and how its rows are read.
fn step_of(tables: &[TableDef], comparisons: &[Comparison], source: usize, table: u32) -> Step
    ensures { result ≡ step_of tables.now comparisons.now source table }
{
    Step {
        table,
        access: access_of(tables, table, source, comparisons),
    }
}

/// The sources of a query, and how the rows of each are read.
pub fn steps_of(alloc: Global, tables: &[TableDef], select: &Select) -> Result<List<Step>, NoMemory>
    ensures { IfOk result (λ steps. steps ≡ steps_of tables.now select.now) }
{
    let comparisons = select.comparisons.as_slice();
    let mut steps = List::new(alloc);
    for (source, table) in select.sources.as_slice().iter().enumerate() {
        steps.push(step_of(tables, comparisons, source, *table))?;
    }
    Ok(steps)
}

/// How the rows of each source of a query are read.
///
/// A comparison serves a source where a column of it stands on the left, and on the right a value or a column of an earlier source. The
/// numbers of a row's place are no columns. The access is `Point` exactly where each key column has such a comparison that asks for
/// equality. Else it is `Span` on the first key column, or else on the first indexed column in the order of their declaration, that has
/// one that asks for anything but inequality. Else it is `Whole`.
pub fn plan(
    alloc: Global,
    tables: &List<TableDef>,
    select: &Select,
) -> Result<List<Access>, NoMemory>
    ensures { IfOk result (λ accesses. accesses ≡ plan_of tables.now select.now) }
{
    let steps = steps_of(alloc, tables.as_slice(), select)?;
    let mut accesses = List::new(alloc);
    for step in steps.as_slice() {
        accesses.push(step.access)?;
    }
    Ok(accesses)
}
