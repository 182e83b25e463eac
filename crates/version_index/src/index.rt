//! The index of a table.

ghost use Rattle.std.specs.Prelude.{◌≡◌, ◌+◌, ◌++◌, ◌<◌, All, IfOk, OnErr, OnOk, length, map, slice_get, take};
ghost use Rattle.std.specs.List.{AllZip};
ghost use Rattle.std.specs.Option.{option_copied};
ghost use Rattle.row_sets.specs.Log.{history_of};
ghost use Rattle.version_index.specs.Chains.{AreLasts, lists_of, numbers_at, slot_or};
ghost use Rattle.version_index.specs.Columns.{AreListed, IsNotedIn, IsReady, IsSameColumn};
ghost use Rattle.version_index.specs.Index.{HasColumns, IsEmptyColumn, IsEmptyIndex, IsIndexOf, index_columns, row_after, row_by};

use crate::chains::{Chains, slot_at};
use crate::column::ColumnIndex;
use crate::guessing::spot_of;
use rel_base::{NoMemory, Row, TableDef, Write};
use row_sets::entry::{LogEntry, entry_at};
use std::alloc::Global;

/// The index of a table: the writes on each of its keys, and an index by the values of each column by which spans are read. A span of
/// a key of one column goes by the keys themselves.
#[derive(Drop)]
pub struct TableIndex {
    pub chains: Chains,
    pub columns: Vec<ColumnIndex>,
}

/// Indexes by the values of the columns of a table that are to have one.
fn columns_of(alloc: Global, def: &TableDef) -> Result<Vec<ColumnIndex>, NoMemory>
    ensures columns { IfOk result (λ columns. map (λ c. c.column) columns.items ≡ index_columns def.now) }
    ensures empty { IfOk result (λ columns. All IsEmptyColumn columns.items) }
{
    let mut columns = Vec::new(alloc);
    if def.key.len() != 1 {
        push_columns(alloc, &mut columns, first_of(def.key.as_slice()))?;
    }
    push_columns(alloc, &mut columns, def.index.as_slice())?;
    Ok(columns)
}

/// The first of some numbers, alone.
fn first_of(numbers: &[u32]) -> &[u32]
    ensures { result.now ≡ take 1 numbers.now }
{
    match numbers.split_first() {
        None => numbers,
        Some(_) => &numbers[..1],
    }
}

/// Adds indexes by the values of columns, which have no values yet.
fn push_columns(
    alloc: Global,
    columns: &mut Vec<ColumnIndex>,
    numbers: &[u32],
) -> Result<(), NoMemory>
    requires empty { All IsEmptyColumn columns.old.items }
    ensures columns { OnOk result (map (λ c. c.column) columns.new.items ≡ map (λ c. c.column) columns.old.items ++ numbers.now) }
    ensures empty { OnOk result (All IsEmptyColumn columns.new.items) }
{
    for number in numbers {
        columns.push(ColumnIndex::new(alloc, *number))?;
    }
    Ok(())
}

/// The row that the write of a number left, where there is such a write.
fn row_at(entries: &[LogEntry], number: usize) -> Option<&Row>
    ensures { option_copied result ≡ row_after (slice_get (history_of entries.now) number) }
{
    match entries.get(number) {
        None => None,
        Some(entry) => entry.placed.write.after.as_ref(),
    }
}

/// The row that the last write on the key of a slot that may be there left.
fn found_row<'a>(entries: &'a [LogEntry], chains: &Chains, slot: Option<usize>) -> Option<&'a Row>
    requires { AreLasts chains.now.lasts.items (lists_of chains.now) }
    ensures { option_copied result ≡ row_by (history_of entries.now) (numbers_at (lists_of chains.now) slot) }
{
    match chains.last_at(slot) {
        None => None,
        Some(number) => row_at(entries, number),
    }
}

/// A slot that may be there, and else the next one.
fn own_slot(slot: Option<usize>, next: usize) -> usize
    ensures { result ≡ slot_or next slot }
{
    match slot {
        None => next,
        Some(slot) => slot,
    }
}

/// Takes the memory in all columns that a write on the key of a slot needs, which found a row.
fn hold_all(
    alloc: Global,
    columns: &mut Vec<ColumnIndex>,
    slot: usize,
    found: Option<&Row>,
    write: &Write,
) -> Result<(), NoMemory>
    requires listed { All (λ column. AreListed column.touched) columns.old.items }
    ensures same { AllZip IsSameColumn columns.old.items columns.new.items }
    ensures ready { OnOk result (All (IsReady slot (option_copied found.entry) write.now) columns.new.items) }
{
    for column in columns.iter_mut() {
        column.hold(alloc, slot, found, write)?;
    }
    Ok(())
}

/// Notes the write of a number on the key of a slot in all columns. It found a row. Takes no memory.
fn note_all(
    columns: &mut Vec<ColumnIndex>,
    slot: usize,
    found: Option<&Row>,
    write: &Write,
    number: usize,
)
    requires { All (IsReady slot (option_copied found) write.now) columns.old.items }
    ensures { AllZip (IsNotedIn slot (option_copied found.entry) write.now number) columns.old.items columns.new.items }
{
    for column in columns.iter_mut() {
        column.note(slot, found, write, number);
    }
}

impl TableIndex {
    /// The index of a table without a write.
    pub fn new(alloc: Global, def: &TableDef) -> Result<TableIndex, NoMemory>
        ensures columns { IfOk result (λ index. HasColumns def.now index) }
        ensures empty { IfOk result IsEmptyIndex }
    {
        Ok(TableIndex {
            chains: Chains::new(alloc),
            columns: columns_of(alloc, def)?,
        })
    }

    /// Notes the write of the entry of a number, which is on the table and the next one to note. Where memory is wanting, what the
    /// index tells stays as it was.
    pub fn note(
        &mut self,
        alloc: Global,
        entries: &[LogEntry],
        number: usize,
    ) -> Result<(), NoMemory>
        requires there { number < length entries.now }
        requires old { IsIndexOf entries.now number number self.old }
        ensures new { OnOk result (IsIndexOf entries.now number (number + 1) self.new) }
        ensures same { OnErr result (IsIndexOf entries.now number number self.new) }
        ensures columns { map (λ c. c.column) self.new.columns.items ≡ map (λ c. c.column) self.old.columns.items }
    {
        let write = &entry_at(entries, number).placed.write;
        let spot = spot_of(entries, &self.chains, &write.key);
        let slot = slot_at(spot);
        let found = found_row(entries, &self.chains, slot);
        let own = own_slot(slot, self.chains.count());
        hold_all(alloc, &mut self.columns, own, found, write)?;
        self.chains
            .note(alloc, &write.key, spot, write.after.is_some(), number)?;
        note_all(&mut self.columns, own, found, write, number);
        Ok(())
    }
}
