//! Groups of tuples, as the tallies of their items alone.

ghost use Rattle.std.specs.Prelude.{◌≡◌, ◌≤◌, ◌∷◌, [], All, IfOk, OnOk};
ghost use Rattle.std.specs.Map.{values_of};
ghost use Rattle.query_plan.specs.Answer.{all_of};
ghost use Rattle.query_plan.specs.Cells.{IsEarly};
ghost use Rattle.query_plan.specs.Tallies.{AreGrouped, Puts, passing, put_tallies, value_of};
ghost use Rattle.query_plan.specs.Tuples.{holds_all};
ghost use Rattle.query_plan.specs.Walk.{plain_row};
ghost use Rattle.query_plan.specs.Limits.{most_tuples};

use crate::cell::{at, cell_copy};
use crate::compare::holds;
use crate::fault::WalkFault;
use crate::select::{Col, Comparison, Item};
use crate::tally::{Tally, next_all, row_of, start_all};
use rel_base::{Key, List, NoMemory, Row, Seen};
use std::alloc::Global;
use std::collections::BTreeMap;
use std::slice;

/// The key of the group of a tuple.
fn key_of(alloc: Global, columns: &[Col], tuple: &[Seen]) -> Result<Key, NoMemory>
    requires { All IsEarly tuple.now }
    ensures { IfOk result (λ key. key ≡ plain_row columns.now tuple.now) }
{
    let mut key = Key::new();
    for col in columns {
        let value = cell_copy(alloc, at(tuple, *col))?;
        key = key.with(alloc, value)?;
    }
    Ok(key)
}

/// Puts a tuple into its group.
pub fn put(
    alloc: Global,
    groups: &mut BTreeMap<Key, List<Tally>>,
    columns: &[Col],
    items: &[Item],
    tuple: &[Seen],
) -> Result<(), NoMemory>
    requires { All IsEarly tuple.now }
    ensures { OnOk result (groups.new.entries ≡ put_tallies columns.now items.now groups.old.entries tuple.now) }
{
    let key = key_of(alloc, columns, tuple)?;
    if let Some(tallies) = groups.get_mut(&key) {
        return next_all(alloc, tallies, items, tuple);
    }
    let tallies = start_all(alloc, items, tuple)?;
    let _ = groups.insert(key, tallies)?;
    Ok(())
}

/// Whether all comparisons hold of a tuple.
fn holds_all(comparisons: &[Comparison], tuple: &[Seen]) -> bool
    requires { All IsEarly tuple.now }
    ensures { result ≡ holds_all comparisons.now tuple.now }
{
    for comparison in comparisons {
        if !holds(tuple, comparison) {
            return false;
        }
    }
    true
}

/// Counts a tuple and puts it into its group.
fn put_counted(
    alloc: Global,
    groups: &mut BTreeMap<Key, List<Tally>>,
    count: u32,
    columns: &[Col],
    items: &[Item],
    tuple: &[Seen],
) -> Result<u32, WalkFault>
    requires early { All IsEarly tuple.now }
    requires few { count ≤ most_tuples }
    ensures { Puts result columns.now items.now groups.old.entries groups.new.entries count (tuple.now ∷ []) }
{
    if count == 1_000_000 {
        return Err(WalkFault::TooMany);
    }
    put(alloc, groups, columns, items, tuple)?;
    Ok(count + 1)
}

/// Counts a row and puts it into its group, where the comparisons hold.
fn put_row(
    alloc: Global,
    groups: &mut BTreeMap<Key, List<Tally>>,
    count: u32,
    grouping: &Grouping<'_>,
    seen: Seen,
) -> Result<u32, WalkFault>
    requires early { IsEarly seen }
    requires few { count ≤ most_tuples }
    ensures { Puts result grouping.now.columns.now grouping.now.items.now groups.old.entries groups.new.entries count (passing grouping.now.comparisons.now (seen ∷ [])) }
{
    let tuple = slice::from_ref(&seen);
    if holds_all(grouping.comparisons, tuple) {
        put_counted(
            alloc,
            groups,
            count,
            grouping.columns,
            grouping.items,
            tuple,
        )
    } else {
        Ok(count)
    }
}

/// A query of one source: its comparisons, the fields that make a group, and its items.
#[derive(Clone, Copy)]
pub struct Grouping<'a> {
    pub comparisons: &'a [Comparison],
    pub columns: &'a [Col],
    pub items: &'a [Item],
}

/// The groups of the rows of which the comparisons hold, in one pass.
pub fn group_rows(
    alloc: Global,
    grouping: &Grouping<'_>,
    rows: List<Seen>,
) -> Result<BTreeMap<Key, List<Tally>>, WalkFault>
    requires { All IsEarly rows }
    ensures { AreGrouped result grouping.now.columns.now grouping.now.items.now (passing grouping.now.comparisons.now rows) }
{
    let mut groups = BTreeMap::new(alloc);
    let mut count = 0;
    for seen in rows.into_vec() {
        count = put_row(alloc, &mut groups, count, grouping, seen)?;
    }
    Ok(groups)
}

/// The rows of groups, where each tally is a value.
pub fn rows_of(
    alloc: Global,
    groups: BTreeMap<Key, List<Tally>>,
) -> Result<Option<List<Row>>, NoMemory>
    ensures { IfOk result (λ rows. rows ≡ all_of (all_of value_of) (values_of groups.entries)) }
{
    let mut rows = List::new(alloc);
    for tallies in groups.into_values() {
        match row_of(alloc, tallies)? {
            None => return Ok(None),
            Some(row) => rows.push(row)?,
        }
    }
    Ok(Some(rows))
}
