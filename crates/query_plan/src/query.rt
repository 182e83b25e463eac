//! Answers to queries.

ghost use Rattle.std.specs.Prelude.{◌≡◌, ◌<◌, ◌≤◌, ◌^◌, [], All, IfNone, IfOk, IfSome, length, map, true};
ghost use Rattle.std.specs.Map.{values_of};
ghost use Rattle.query_plan.specs.Answer.{Answers, all_of, answer_of, answer_over, is_grouped, ordered, plain_columns, plain_of};
ghost use Rattle.query_plan.specs.Cells.{IsEarly};
ghost use Rattle.query_plan.specs.Fits.{IsSelectOver};
ghost use Rattle.query_plan.specs.Tallies.{passing, value_of};
ghost use Rattle.query_plan.specs.Tuples.{tuples};
ghost use Rattle.query_plan.specs.Walk.{CanAsk, tables_of};
ghost use Rattle.rel_base.specs.Tables.{tables_at};

use crate::access::read_of;
use crate::fault::{AskFault, WalkFault};
use crate::group::{Grouping, group_rows, rows_of};
use crate::order::in_order;
use crate::select::{Col, Item, Select};
use crate::steps::steps_of;
use crate::tally::Tally;
use crate::walk::{Asked, gather, step_at};
use rel_base::{Key, List, NoMemory, Row, Seen, TableDef};
use row_sets::Versions;
use std::alloc::Global;
use std::collections::BTreeMap;

/// The field that an item is, where it is one.
fn plain_of(item: Item) -> Option<Col>
    ensures { result ≡ plain_of item }
{
    match item {
        Item::Plain(col) => Some(col),
        _ => None,
    }
}

/// The fields that items are, where each is one.
fn plain_items(alloc: Global, items: &[Item]) -> Result<Option<List<Col>>, NoMemory>
    ensures { IfOk result (λ columns. columns ≡ all_of plain_of items.now) }
{
    let mut columns = List::new(alloc);
    for item in items {
        match plain_of(*item) {
            None => return Ok(None),
            Some(col) => columns.push(col)?,
        }
    }
    Ok(Some(columns))
}

/// The fields of the items of a query without groups and aggregates.
fn plain_columns(alloc: Global, select: &Select) -> Result<Option<List<Col>>, NoMemory>
    ensures { IfOk result (λ columns. columns ≡ plain_columns select.now) }
{
    if select.groups.is_empty() {
        plain_items(alloc, select.items.as_slice())
    } else {
        Ok(None)
    }
}

/// The fields of items, where there are any.
fn lent(columns: &Option<List<Col>>) -> &[Col]
    ensures { IfSome columns.now (λ columns. result.now ≡ columns) }
{
    match columns {
        None => &[],
        Some(columns) => columns.as_slice(),
    }
}

/// The answer to a query without groups and aggregates, whose items are fields.
fn ask_plain<V: Versions>(
    alloc: Global,
    asked: &Asked<'_, V>,
    select: &Select,
) -> Result<List<Row>, AskFault>
    requires tables { V.tables asked.now.versions.now ≡ asked.now.defs.now }
    requires can { CanAsk asked.now.defs.now (tables_at asked.now.height (V.history asked.now.versions.now)) asked.now.comparisons.now asked.now.steps.now }
    requires sources { tables_of asked.now.steps.now ≡ select.now.sources }
    requires comparisons { asked.now.comparisons.now ≡ select.now.comparisons }
    requires plain { plain_columns select.now ≡ Some asked.now.columns.now }
    ensures { Answers result (answer_over (tables_at asked.now.height (V.history asked.now.versions.now)) select.now) }
{
    match gather(alloc, asked) {
        Err(WalkFault::NoMemory) => Err(AskFault::NoMemory),
        Err(WalkFault::TooMany) => Err(AskFault::TooMany),
        Ok(rows) => {
            let rows = in_order(select.order.as_slice(), rows)?;
            Ok(rows)
        }
    }
}

/// The rows of a query's one source that the read of its step gets.
fn read_only<V: Versions>(alloc: Global, asked: &Asked<'_, V>) -> Result<List<Seen>, NoMemory>
    requires tables { V.tables asked.now.versions.now ≡ asked.now.defs.now }
    requires can { CanAsk asked.now.defs.now (tables_at asked.now.height (V.history asked.now.versions.now)) asked.now.comparisons.now asked.now.steps.now }
    requires one { length asked.now.steps.now ≡ 1 }
    ensures rows { IfOk result (λ rows. passing asked.now.comparisons.now rows ≡ tuples (tables_at asked.now.height (V.history asked.now.versions.now)) (tables_of asked.now.steps.now) asked.now.comparisons.now) }
    ensures early { IfOk result (All IsEarly) }
{
    let step = step_at(asked.defs, asked.steps, 0);
    let read = read_of(alloc, asked.defs, step, asked.comparisons, &[])?;
    let rows = asked.versions.visible(asked.height, &read)?;
    Ok(rows)
}

/// The rows of groups, in the order of a query.
fn ordered(
    alloc: Global,
    groups: BTreeMap<Key, List<Tally>>,
    order: &[u32],
) -> Result<List<Row>, AskFault>
    ensures { Answers result (ordered order.now (all_of (all_of value_of) (values_of groups.entries))) }
{
    match rows_of(alloc, groups)? {
        None => Err(AskFault::Overflow),
        Some(rows) => {
            let rows = in_order(order, rows)?;
            Ok(rows)
        }
    }
}

/// The answer to a query of one source with groups or aggregates.
fn ask_grouped<V: Versions>(
    alloc: Global,
    asked: &Asked<'_, V>,
    select: &Select,
) -> Result<List<Row>, AskFault>
    requires tables { V.tables asked.now.versions.now ≡ asked.now.defs.now }
    requires can { CanAsk asked.now.defs.now (tables_at asked.now.height (V.history asked.now.versions.now)) asked.now.comparisons.now asked.now.steps.now }
    requires one { length asked.now.steps.now ≡ 1 }
    requires sources { tables_of asked.now.steps.now ≡ select.now.sources }
    requires comparisons { asked.now.comparisons.now ≡ select.now.comparisons }
    requires grouped { is_grouped select.now ≡ true }
    ensures { Answers result (answer_over (tables_at asked.now.height (V.history asked.now.versions.now)) select.now) }
{
    let rows = read_only(alloc, asked)?;
    let grouping = Grouping {
        comparisons: asked.comparisons,
        columns: select.groups.as_slice(),
        items: select.items.as_slice(),
    };
    match group_rows(alloc, &grouping, rows) {
        Err(WalkFault::NoMemory) => Err(AskFault::NoMemory),
        Err(WalkFault::TooMany) => Err(AskFault::TooMany),
        Ok(groups) => ordered(alloc, groups, select.order.as_slice()),
    }
}

/// The answer to a query of declared tables as they were after the block of a height, from a store of them whose blocks are sealed up to
/// another: a row for each tuple, or for each group of tuples, in the order that the query asks for.
///
/// It is `TooHigh` exactly where the height is above the last sealed one, and else `TooMany` exactly where there would be more than
/// 1,000,000 tuples, and else `Overflow` exactly where the exact sum of a group is outside the ints. It is never one of the faults of a
/// text. The rows of a source are read as `plan` says, those of the first once, and those of each other once for each choice of rows
/// before it. No choice goes on that a comparison has ruled out. Beside the rows of a read, only the answer's rows or the groups are kept.
pub fn ask<V: Versions>(
    alloc: Global,
    tables: &List<TableDef>,
    select: &Select,
    versions: &V,
    sealed: u64,
    height: u64,
) -> Result<List<Row>, AskFault>
    requires tables { V.tables versions.now ≡ tables.now }
    requires select { IsSelectOver tables.now select.now }
    requires history { All (λ stamped. stamped.0 ≤ sealed) (V.history versions.now) }
    requires sealed { sealed < 2 ^ 63 }
    ensures { Answers result (answer_of (tables_at height (V.history versions.now)) select.now sealed height) }
{
    if height > sealed {
        return Err(AskFault::TooHigh { sealed });
    }
    let steps = steps_of(alloc, tables.as_slice(), select)?;
    let columns = plain_columns(alloc, select)?;
    let asked = Asked {
        defs: tables.as_slice(),
        versions,
        height,
        steps: steps.as_slice(),
        comparisons: select.comparisons.as_slice(),
        columns: lent(&columns),
    };
    if columns.is_some() {
        ask_plain(alloc, &asked, select)
    } else {
        ask_grouped(alloc, &asked, select)
    }
}
