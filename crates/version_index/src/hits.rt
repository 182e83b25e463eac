//! The writes that a read hits.

ghost use Rattle.std.specs.Prelude.{◌≡◌, Contains, Some, true};
ghost use Rattle.rel_base.specs.Access.{ReadFits, read_table};
ghost use Rattle.rel_base.specs.declared.access.Read.TheVariants as read;
ghost use Rattle.row_sets.specs.Watched.{is_watched};
ghost use Rattle.row_sets.specs.Log.{FitsTable, history_of};
ghost use Rattle.version_index.specs.Candidates.{is_forward};
ghost use Rattle.version_index.specs.Chain.{IsFirst};
ghost use Rattle.version_index.specs.Columns.{IsColumn};
ghost use Rattle.version_index.specs.Hits.{IsFirstFrom, Lowers};
ghost use Rattle.version_index.specs.Numbers.{ArePassing, least_with, passes_at};
ghost use Rattle.version_index.specs.View.{IsAsked, IsView, history_in};

use crate::candidates::{end, is_in_order};
use crate::column::ColumnIndex;
use crate::keyed::first_of;
use crate::span::{first_above, one_value};
use crate::view::TableView;
use rel_base::Value;
use row_sets::entry::{LogEntry, entry_at};
use row_sets::hits::{Watch, is_hit};

/// The number of the first write from a number on that a read hits.
pub fn first_hit(entries: &[LogEntry], watch: &Watch<'_>, start: usize) -> Option<usize>
    requires fits { FitsTable watch.now.def.now (read_table watch.now.read.now) (history_of entries.now) }
    requires read_fits { ReadFits watch.now.def.now watch.now.read.now }
    ensures { IsFirstFrom (is_watched watch.now) start (history_of entries.now) result }
{
    for number in start..entries.len() {
        if is_hit(entry_at(entries, number), watch) {
            return Some(number);
        }
    }
    None
}

/// The lesser of a number and one that may be there.
fn least_with(number: usize, other: Option<usize>) -> usize
    ensures { result ≡ least_with number other }
{
    match other {
        Some(other) if other < number => other,
        _ => number,
    }
}

/// The first of noted writes that a read hits, by their rising numbers, or a number that was found, where it is less. It goes back no
/// further than the height.
pub fn first_among(
    view: &TableView<'_>,
    watch: &Watch<'_>,
    numbers: &[usize],
    found: Option<usize>,
) -> Option<usize>
    requires view { IsView view.now }
    requires watch { IsAsked watch.now.def.now watch.now.read.now view.now }
    requires numbers { ArePassing view.now.noted numbers.now }
    ensures { Lowers (passes_at (is_watched watch.now) (history_in view.now)) found result (Contains numbers.now) }
{
    let mut first = found;
    let mut left = numbers;
    while let Some((number, earlier)) = left.split_last() {
        let entry = entry_at(view.entries, *number);
        if entry.block <= watch.after {
            return first;
        }
        first = first_of(is_hit(entry, watch), least_with(*number, first), first);
        left = earlier;
    }
    first
}

/// The number of the first write that a span of one value hits: by the noted writes that touched the value, and the tail.
fn first_touching(
    view: &TableView<'_>,
    watch: &Watch<'_>,
    column: &ColumnIndex,
    value: &Value,
) -> Option<usize>
    requires view { IsView view.now }
    requires column { IsColumn view.now.table (history_in view.now) view.now.noted view.now.index.now.chains column.now }
    requires watch { IsAsked watch.now.def.now watch.now.read.now view.now }
    requires span { watch.now.read.now ≡ read.Span view.now.table column.now.column (Some value.now) (Some value.now) }
    ensures { IsFirst (is_watched watch.now) (history_in view.now) result }
{
    let first = first_hit(view.entries, watch, view.noted);
    first_among(view, watch, column.numbers(value), first)
}

/// The number of the first write that a span hits, whose ends are in order: by the noted writes that touched a value between the ends, and
/// the tail. Where there are more such values than writes above the height, it goes by all these writes.
fn first_between(
    view: &TableView<'_>,
    watch: &Watch<'_>,
    column: &ColumnIndex,
    low: &Option<Value>,
    high: &Option<Value>,
) -> Option<usize>
    requires view { IsView view.now }
    requires column { IsColumn view.now.table (history_in view.now) view.now.noted view.now.index.now.chains column.now }
    requires watch { IsAsked watch.now.def.now watch.now.read.now view.now }
    requires span { watch.now.read.now ≡ read.Span view.now.table column.now.column low.now high.now }
    requires forward { is_forward low.now high.now ≡ true }
    ensures { IsFirst (is_watched watch.now) (history_in view.now) result }
{
    let start = first_above(view.entries, watch.after);
    let mut spare = view.entries.len() - start;
    let mut first = first_hit(view.entries, watch, view.noted);
    for (_, place) in column.touched.places.range((end(low), end(high))) {
        if spare == 0 {
            return first_above_that_hits(view, watch);
        }
        spare -= 1;
        first = first_among(view, watch, column.touched.list(*place), first);
    }
    first
}

/// The number of the first write that a span of a column with an index hits.
pub fn first_by_column(
    view: &TableView<'_>,
    watch: &Watch<'_>,
    column: &ColumnIndex,
    low: &Option<Value>,
    high: &Option<Value>,
) -> Option<usize>
    requires view { IsView view.now }
    requires column { IsColumn view.now.table (history_in view.now) view.now.noted view.now.index.now.chains column.now }
    requires watch { IsAsked watch.now.def.now watch.now.read.now view.now }
    requires span { watch.now.read.now ≡ read.Span view.now.table column.now.column low.now high.now }
    ensures { IsFirst (is_watched watch.now) (history_in view.now) result }
{
    if !is_in_order(low, high) {
        return None;
    }
    match one_value(low, high) {
        Some(value) => first_touching(view, watch, column, value),
        None => first_between(view, watch, column, low, high),
    }
}

/// The number of the first write that a read hits, among all writes above a height.
pub fn first_above_that_hits(view: &TableView<'_>, watch: &Watch<'_>) -> Option<usize>
    requires view { IsView view.now }
    requires watch { IsAsked watch.now.def.now watch.now.read.now view.now }
    ensures { IsFirst (is_watched watch.now) (history_in view.now) result }
{
    let start = first_above(view.entries, watch.after);
    first_hit(view.entries, watch, start)
}
