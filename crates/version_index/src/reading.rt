//! Answers to reads.

ghost use Rattle.std.specs.Prelude.{◌≡◌, IfOk, Some};
ghost use Rattle.std.specs.FinMap.{get};
ghost use Rattle.std.specs.Option.{option_map};
ghost use Rattle.rel_base.specs.Access.{ReadFits, WriteFits};
ghost use Rattle.rel_base.specs.Lent.{lent_rows, rows_of, seen_lent};
ghost use Rattle.rel_base.specs.Tables.{rows, tables_at};
ghost use Rattle.rel_base.specs.declared.access.Read.TheVariants as read;
ghost use Rattle.row_sets.specs.Versions.{hit_of};
ghost use Rattle.row_sets.specs.Watched.{is_watched};
ghost use Rattle.row_sets.specs.Log.{stamped_of};
ghost use Rattle.version_index.specs.Chain.{IsFirst};
ghost use Rattle.version_index.specs.Hits.{TellsFirst};
ghost use Rattle.version_index.specs.View.{IsAsked, IsView, history_in, hit_told};

use crate::guessing::slot_near;
use crate::hits::first_by_column;
use crate::key_spans::first_by_key;
use crate::keyed::{first_late, last_up_to};
use crate::rows::{one_copy, one_row, row_left};
use crate::span::{column_of, rows_of_span, span_lent};
use crate::view::{ReadAtHeight, TableView};
use rel_base::{Key, List, NoMemory, Read, Row, Seen, SeenRef, TableDef, Value};
use row_sets::HitRef;
use row_sets::entry::{LogEntry, entry_at, place_at};
use row_sets::hits::{Watch, covers_part};
use std::alloc::Global;

/// The row of a key after the block of a height, lent by the log.
pub fn row_lent<'a>(view: &TableView<'a>, key: &Key, height: u64) -> Option<SeenRef<'a>>
    requires { IsView view.now }
    ensures { option_map seen_lent result ≡ get (tables_at height (history_in view.now)) (view.now.table, key.now) }
{
    let slot = slot_near(view, key);
    match last_up_to(view, key, slot, height) {
        None => None,
        Some(number) => row_left(entry_at(view.entries, number)),
    }
}

/// The rows that a read gets of the tables after the block of a height.
pub fn rows_at(
    alloc: Global,
    view: &TableView<'_>,
    look: &ReadAtHeight<'_>,
) -> Result<List<Seen>, NoMemory>
    requires view { IsView view.now }
    requires look { IsAsked look.now.def.now look.now.read.now view.now }
    ensures { IfOk result (λ seen. seen ≡ rows look.now.def.now look.now.read.now (tables_at look.now.height (history_in view.now))) }
{
    match look.read {
        // The row at a point's key has that key, so it needs no second look.
        Read::Point { key, .. } => one_copy(alloc, row_lent(view, key, look.height)),
        Read::Span {
            column,
            low,
            high,
            ..
        } => rows_of_span(alloc, view, look, *column, low, high),
    }
}

/// The rows that a read gets of the tables after the block of a height, lent by the log.
pub fn rows_lent<'a>(
    alloc: Global,
    view: &TableView<'a>,
    look: &ReadAtHeight<'_>,
) -> Result<Vec<&'a Row>, NoMemory>
    requires view { IsView view.now }
    requires look { IsAsked look.now.def.now look.now.read.now view.now }
    ensures { IfOk result (λ lent. lent_rows lent.items ≡ rows_of (rows look.now.def.now look.now.read.now (tables_at look.now.height (history_in view.now)))) }
{
    match look.read {
        Read::Point { key, .. } => one_row(alloc, row_lent(view, key, look.height)),
        Read::Span {
            column,
            low,
            high,
            ..
        } => span_lent(alloc, view, look, *column, low, high),
    }
}

/// The number of the first write that a span hits.
fn first_of_span(
    view: &TableView<'_>,
    watch: &Watch<'_>,
    column: u32,
    low: &Option<Value>,
    high: &Option<Value>,
) -> Option<usize>
    requires view { IsView view.now }
    requires watch { IsAsked watch.now.def.now watch.now.read.now view.now }
    requires span { watch.now.read.now ≡ read.Span view.now.table column low.now high.now }
    ensures { IsFirst (is_watched watch.now) (history_in view.now) result }
{
    match column_of(view.index.columns.as_slice(), column) {
        None => first_by_key(view, watch, column, low, high),
        Some(own) => first_by_column(view, watch, own, low, high),
    }
}

/// The number of the least write, by block, position and key, of the blocks above `after` and up to `upto` that a read hits.
fn hit_at(view: &TableView<'_>, watch: &Watch<'_>) -> Option<usize>
    requires view { IsView view.now }
    requires watch { IsAsked watch.now.def.now watch.now.read.now view.now }
    ensures { IsFirst (is_watched watch.now) (history_in view.now) result }
{
    // Most reads name the last height, and then there is nothing to look for.
    if watch.upto <= watch.after {
        return None;
    }
    match watch.read {
        Read::Point { key, .. } => first_late(
            view,
            key,
            slot_near(view, key),
            watch.after,
            watch.upto,
        ),
        Read::Span {
            column,
            low,
            high,
            ..
        } => first_of_span(view, watch, *column, low, high),
    }
}

/// What is reported of a write that a read hits.
fn hit_ref<'a>(def: &TableDef, read: &Read, entry: &'a LogEntry) -> HitRef<'a>
    requires read_fits { ReadFits def.now read.now }
    requires write_fits { WriteFits def.now entry.now.placed.write }
    ensures { hit_of result ≡ hit_told def.now read.now (stamped_of entry.now) }
{
    let stale = covers_part(read, def, &entry.placed.write.before);
    HitRef {
        place: place_at(entry),
        key: &entry.placed.write.key,
        stale,
    }
}

/// The first write of the blocks above `after` and up to `upto` that a read hits, or nothing where it hits none.
pub fn late_at<'a>(view: &TableView<'a>, watch: &Watch<'_>) -> Option<HitRef<'a>>
    requires view { IsView view.now }
    requires watch { IsAsked watch.now.def.now watch.now.read.now view.now }
    ensures { TellsFirst watch.now (history_in view.now) (option_map hit_of result) }
{
    match hit_at(view, watch) {
        None => None,
        Some(number) => Some(hit_ref(watch.def, watch.read, entry_at(view.entries, number))),
    }
}
