//! The tuples of a query: a nested loop, by the accesses of its plan.

ghost use Rattle.std.specs.Prelude.{◌≡◌, ◌<◌, ◌≤◌, ◌^◌, ◌∷◌, ◌++◌, ◌+◌, List, true, false, [], All, IfOk, OnOk, Some, length, map, slice_get};
ghost use Rattle.query_plan.specs.Cells.{IsEarly};
ghost use Rattle.rel_base.specs.declared.access.Seen.{Seen};
ghost use Rattle.query_plan.specs.Tuples.{tuples};
ghost use Rattle.query_plan.specs.Fits.{StepFits};
ghost use Rattle.query_plan.specs.Walk.{CanAsk, Gathers, MayBegin, Walks, going_by, going_on, holds_at_last, passes, plain_row, tables_of};
ghost use Rattle.query_plan.specs.Ready.{is_ready, is_side_ready};
ghost use Rattle.rel_base.specs.Tables.{tables_at};
ghost use Rattle.query_plan.specs.Limits.{most_tuples};

use crate::access::{Step, read_of};
use crate::cell::{at, cell_copy};
use crate::compare::holds;
use crate::fault::WalkFault;
use crate::select::{Col, Comparison, Side};
use rel_base::{List, NoMemory, Row, Seen, TableDef};
use row_sets::Versions;
use std::alloc::Global;

/// The greatest number of tuples.
const MOST: usize = 1_000_000;

/// Whether a side speaks of the first sources alone.
pub fn is_side_ready(side: &Side, count: usize) -> bool
    ensures { result ≡ is_side_ready count side.now }
{
    match side {
        Side::Field(col) => (col.source as usize) < count,
        Side::Given(_) => true,
    }
}

/// Whether a comparison speaks of the first sources alone.
pub fn is_ready(comparison: &Comparison, count: usize) -> bool
    ensures { result ≡ is_ready count comparison.now }
{
    (comparison.left.source as usize) < count && is_side_ready(&comparison.right, count)
}

/// Whether a comparison, where it speaks of the last of the sources of a tuple's beginning and of none after it, holds.
fn passes(comparison: &Comparison, count: usize, prefix: &[Seen]) -> bool
    requires early { All IsEarly prefix.now }
    requires count { count < 2 ^ 63 }
    ensures { result ≡ passes count prefix.now comparison.now }
{
    !is_ready(comparison, count + 1) || (is_ready(comparison, count) || holds(prefix, comparison))
}

/// Whether the comparisons that speak of the last of the sources of a tuple's beginning hold.
fn holds_at_last(comparisons: &[Comparison], count: usize, prefix: &[Seen]) -> bool
    requires early { All IsEarly prefix.now }
    requires count { count < 2 ^ 63 }
    ensures { result ≡ holds_at_last comparisons.now count prefix.now }
{
    for comparison in comparisons {
        if !passes(comparison, count, prefix) {
            return false;
        }
    }
    true
}

/// The row of a tuple: its fields that are asked for.
fn row_of(alloc: Global, columns: &[Col], tuple: &[Seen]) -> Result<Row, NoMemory>
    requires { All IsEarly tuple.now }
    ensures { IfOk result (λ row. row ≡ plain_row columns.now tuple.now) }
{
    let mut values = List::new(alloc);
    for col in columns {
        let value = cell_copy(alloc, at(tuple, *col))?;
        values.push(value)?;
    }
    Row::new(values)
}

/// Keeps the row of a tuple, where there are not too many already.
fn keep(
    alloc: Global,
    columns: &[Col],
    tuple: &[Seen],
    rows: &mut List<Row>,
) -> Result<(), WalkFault>
    requires early { All IsEarly tuple.now }
    requires few { length rows.old ≤ most_tuples }
    ensures { Walks result rows.old rows.new (plain_row columns.now tuple.now ∷ []) }
{
    if rows.len() == MOST {
        return Err(WalkFault::TooMany);
    }
    let row = row_of(alloc, columns, tuple)?;
    rows.push(row)?;
    Ok(())
}

/// A query over the tables at a height.
#[derive(Drop)]
pub struct Asked<'a, V> {
    pub defs: &'a [TableDef],
    pub versions: &'a V,
    pub height: u64,
    pub steps: &'a [Step],
    pub comparisons: &'a [Comparison],
    pub columns: &'a [Col],
}

/// The step of the next source.
pub fn step_at(defs: &[TableDef], steps: &[Step], count: usize) -> Step
    requires fits { All (StepFits defs.now) steps.now }
    requires within { count < length steps.now }
    ensures found { slice_get steps.now count ≡ Some result }
    ensures fits { StepFits defs.now result }
{
    let _defs = defs;
    steps[count]
}

/// The rows of the next source that the read of its step gets.
fn read_next<V: Versions>(
    alloc: Global,
    asked: &Asked<'_, V>,
    prefix: &[Seen],
) -> Result<List<Seen>, NoMemory>
    requires tables { V.tables asked.now.versions.now ≡ asked.now.defs.now }
    requires can { CanAsk asked.now.defs.now (tables_at asked.now.height (V.history asked.now.versions.now)) asked.now.comparisons.now asked.now.steps.now }
    requires prefix { MayBegin asked.now.comparisons.now asked.now.steps.now prefix.now }
    requires more { length prefix.now < length asked.now.steps.now }
    ensures rows { IfOk result (λ rows. going_by (tables_at asked.now.height (V.history asked.now.versions.now)) asked.now.comparisons.now asked.now.columns.now (tables_of asked.now.steps.now) prefix.now rows ≡ going_on (tables_at asked.now.height (V.history asked.now.versions.now)) asked.now.comparisons.now asked.now.columns.now (tables_of asked.now.steps.now) prefix.now) }
    ensures early { IfOk result (All IsEarly) }
{
    let step = step_at(asked.defs, asked.steps, prefix.len());
    let read = read_of(alloc, asked.defs, step, asked.comparisons, prefix)?;
    let rows = asked.versions.visible(asked.height, &read)?;
    Ok(rows)
}

/// Puts a row at the end of a tuple's beginning, and answers whether the comparisons that speak of it and of none after it hold.
fn enter<V: Versions>(
    asked: &Asked<'_, V>,
    prefix: &mut List<Seen>,
    seen: Seen,
) -> Result<bool, NoMemory>
    requires few { length asked.now.steps.now ≤ 4 }
    requires prefix { MayBegin asked.now.comparisons.now asked.now.steps.now prefix.old }
    requires more { length prefix.old < length asked.now.steps.now }
    requires seen { IsEarly seen }
    ensures prefix { OnOk result (prefix.new ≡ prefix.old ++ seen ∷ []) }
    ensures len { OnOk result (length prefix.new ≡ length prefix.old + 1) }
    ensures goes { IfOk result (λ goes. goes ≡ true → MayBegin asked.now.comparisons.now asked.now.steps.now prefix.new) }
    ensures fails { IfOk result (λ goes. goes ≡ false → holds_at_last asked.now.comparisons.now (length prefix.old) (prefix.old ++ seen ∷ []) ≡ false) }
{
    let count = prefix.len();
    prefix.push(seen)?;
    let goes = holds_at_last(asked.comparisons, count, prefix.as_slice());
    Ok(goes)
}

/// Takes the last row of a tuple's beginning off.
fn leave(prefix: &mut List<Seen>)
    ensures { (before : List Seen) (last : Seen) → prefix.old ≡ before ++ last ∷ [] → prefix.new ≡ before }
{
    let _ = prefix.pop();
}

/// Adds the rows of the tuples that begin with some rows.
pub fn walk<V: Versions>(
    alloc: Global,
    asked: &Asked<'_, V>,
    prefix: &mut List<Seen>,
    rows: &mut List<Row>,
) -> Result<(), WalkFault>
    requires tables { V.tables asked.now.versions.now ≡ asked.now.defs.now }
    requires can { CanAsk asked.now.defs.now (tables_at asked.now.height (V.history asked.now.versions.now)) asked.now.comparisons.now asked.now.steps.now }
    requires prefix { MayBegin asked.now.comparisons.now asked.now.steps.now prefix.old }
    requires few { length rows.old ≤ most_tuples }
    ensures rows { Walks result rows.old rows.new (going_on (tables_at asked.now.height (V.history asked.now.versions.now)) asked.now.comparisons.now asked.now.columns.now (tables_of asked.now.steps.now) prefix.old) }
    ensures prefix { OnOk result (prefix.new ≡ prefix.old) }
{
    if prefix.len() == asked.steps.len() {
        return keep(alloc, asked.columns, prefix.as_slice(), rows);
    }
    let seens = read_next(alloc, asked, prefix.as_slice())?;
    for seen in seens.into_vec() {
        if enter(asked, prefix, seen)? {
            walk(alloc, asked, prefix, rows)?;
        }
        leave(prefix);
    }
    Ok(())
}

/// The rows of the tuples of a query.
#[tactic(auto, using(crate::proofs::Going::prefix_none))]
pub fn gather<V: Versions>(alloc: Global, asked: &Asked<'_, V>) -> Result<List<Row>, WalkFault>
    requires tables { V.tables asked.now.versions.now ≡ asked.now.defs.now }
    requires can { CanAsk asked.now.defs.now (tables_at asked.now.height (V.history asked.now.versions.now)) asked.now.comparisons.now asked.now.steps.now }
    ensures { Gathers result (map (plain_row asked.now.columns.now) (tuples (tables_at asked.now.height (V.history asked.now.versions.now)) (tables_of asked.now.steps.now) asked.now.comparisons.now)) }
{
    let mut prefix = List::new(alloc);
    let mut rows = List::new(alloc);
    walk(alloc, asked, &mut prefix, &mut rows)?;
    Ok(rows)
}
