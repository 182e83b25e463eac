//! The rows of keys at a height.

ghost use Rattle.std.specs.Prelude.{◌≡◌, ◌<◌, ◌++◌, IfOk, IfSome, OnOk, length, option_to_list};
ghost use Rattle.std.specs.FinMap.{get};
ghost use Rattle.std.specs.Option.{option_copied, option_map};
ghost use Rattle.rel_base.specs.Access.{ReadFits, covers_row};
ghost use Rattle.rel_base.specs.Lent.{lent_rows, rows_of, seen_lent};
ghost use Rattle.rel_base.specs.Row.{value_at};
ghost use Rattle.rel_base.specs.Schema.{RowFits};
ghost use Rattle.rel_base.specs.Tables.{tables_at};
ghost use Rattle.rel_base.specs.Value.{value_eq};
ghost use Rattle.row_sets.specs.Log.{stamped_of};
ghost use Rattle.version_index.specs.Candidates.{IsCandidate};
ghost use Rattle.version_index.specs.Rows.{IsValueOf, covered_row, seen_of};
ghost use Rattle.version_index.specs.View.{IsAsked, IsView, history_in};

use crate::candidates::Candidate;
use crate::keyed::last_up_to;
use crate::view::{ReadAtHeight, TableView};
use rel_base::{List, NoMemory, Read, Row, Seen, SeenRef, Twin, Value};
use row_sets::entry::{LogEntry, entry_at, place_at};
use std::alloc::Global;

/// Whether a row has a value in a column.
fn has_value(row: &[Value], column: u32, value: &Value) -> bool
    requires { column < length row.now }
    ensures { result ≡ value_eq (value_at row.now column) value.now }
{
    row[column as usize] == *value
}

/// Whether a read covers a row. The one value of a span may be given: then the row is covered where it has this value.
fn covers(look: &ReadAtHeight<'_>, value: Option<&Value>, row: &Row) -> bool
    requires read_fits { ReadFits look.now.def.now look.now.read.now }
    requires row_fits { RowFits look.now.def.now row.now }
    requires value { IsValueOf look.now.read.now (option_copied value) }
    ensures { result ≡ covers_row look.now.def.now look.now.read.now row.now }
{
    match (look.read, value) {
        (Read::Span { column, .. }, Some(one)) => has_value(row.as_slice(), *column, one),
        _ => look.read.covers(look.def, row),
    }
}

/// The row that a committed write left, where there is one and a read covers it, lent by its entry. The one value of the read may be
/// given.
#[inline(always)]
fn covered_left<'a>(
    look: &ReadAtHeight<'_>,
    value: Option<&Value>,
    entry: &'a LogEntry,
) -> Option<SeenRef<'a>>
    requires read_fits { ReadFits look.now.def.now look.now.read.now }
    requires row_fits { IfSome entry.now.placed.write.after (λ row. RowFits look.now.def.now row) }
    requires value { IsValueOf look.now.read.now (option_copied value) }
    ensures { option_to_list (option_map seen_lent result) ≡ covered_row look.now.def.now look.now.read.now (seen_of (stamped_of entry.now)) }
{
    match &entry.placed.write.after {
        Some(row) if covers(look, value, row) => Some(SeenRef {
            row,
            place: place_at(entry),
        }),
        _ => None,
    }
}

/// The row of a key after the block of a height, where there is one and a read covers it, lent by the log. The key is given with its
/// slot, and the one value of the read may be given.
#[inline(always)]
pub fn covered_of_key<'a>(
    view: &TableView<'a>,
    look: &ReadAtHeight<'_>,
    value: Option<&Value>,
    candidate: Candidate<'_>,
) -> Option<SeenRef<'a>>
    requires view { IsView view.now }
    requires look { IsAsked look.now.def.now look.now.read.now view.now }
    requires value { IsValueOf look.now.read.now (option_copied value) }
    requires slot { IsCandidate view.now.index.now.chains candidate }
    ensures { option_to_list (option_map seen_lent result) ≡ covered_row look.now.def.now look.now.read.now (get (tables_at look.now.height (history_in view.now)) (view.now.table, candidate.entry.0.now)) }
{
    let (key, slot) = candidate;
    match last_up_to(view, key, slot, look.height) {
        None => None,
        Some(number) => covered_left(look, value, entry_at(view.entries, number)),
    }
}

/// The row that a committed write left, lent by its entry, with its place.
pub fn row_left(entry: &LogEntry) -> Option<SeenRef<'_>>
    ensures { option_map seen_lent result ≡ seen_of (stamped_of entry.now) }
{
    let Some(row) = &entry.placed.write.after else {
        return None;
    };
    Some(SeenRef {
        row,
        place: place_at(entry),
    })
}

/// A copy of a row that may be lent, with its place, as a list of none or one.
pub fn one_copy(alloc: Global, lent: Option<SeenRef<'_>>) -> Result<List<Seen>, NoMemory>
    ensures { IfOk result (λ rows. rows ≡ option_to_list (option_map seen_lent lent.entry)) }
{
    let Some(seen) = lent else {
        return Ok(List::new(alloc));
    };
    let mut rows = Vec::with_capacity(alloc, 1)?;
    let row = seen.row.copy(alloc)?;
    rows.push_reserved(Seen {
        row,
        place: seen.place,
    });
    Ok(List::from_vec(rows))
}

/// Adds a copy of a row that may be lent, with its place, to rows.
pub fn add_copy(
    alloc: Global,
    rows: &mut List<Seen>,
    lent: Option<SeenRef<'_>>,
) -> Result<(), NoMemory>
    ensures { OnOk result (rows.new ≡ rows.old ++ option_to_list (option_map seen_lent lent.entry)) }
{
    if let Some(seen) = lent {
        let row = seen.row.copy(alloc)?;
        rows.push(Seen {
            row,
            place: seen.place,
        })?;
    }
    Ok(())
}

/// Adds a row that may be lent to rows that are lent.
#[inline(always)]
pub fn add_lent<'a>(rows: &mut Vec<&'a Row>, lent: Option<SeenRef<'a>>) -> Result<(), NoMemory>
    ensures { OnOk result (lent_rows rows.new.items ≡ lent_rows rows.old.items ++ rows_of (option_to_list (option_map seen_lent lent.entry))) }
{
    if let Some(seen) = lent {
        rows.push(seen.row)?;
    }
    Ok(())
}

/// A row that may be lent, as a list of none or one.
pub fn one_row<'a>(alloc: Global, lent: Option<SeenRef<'a>>) -> Result<Vec<&'a Row>, NoMemory>
    ensures { IfOk result (λ rows. lent_rows rows.items ≡ rows_of (option_to_list (option_map seen_lent lent.entry))) }
{
    let mut rows = Vec::new(alloc);
    add_lent(&mut rows, lent)?;
    Ok(rows)
}
