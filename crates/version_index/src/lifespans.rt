//! All versions of a key, and of a table.

ghost use Rattle.std.specs.Prelude.{◌≡◌, ◌++◌, ◌+◌, ◌<◌, IfOk, OnOk, drop, length, reverse};
ghost use Rattle.std.specs.Option.{option_copied, option_map};
ghost use Rattle.row_sets.specs.Lifespans.{is_of_key, is_of_table, lifespan, lifespans, place_of};
ghost use Rattle.row_sets.specs.Log.{history_of, stamped_of};
ghost use Rattle.version_index.specs.Chains.{slot_of};
ghost use Rattle.version_index.specs.Rows.{AreFirsts, write_of};
ghost use Rattle.version_index.specs.View.{IsView, history_in};

use crate::heads::Heads;
use crate::keyed::{last_before, last_on};
use crate::view::TableView;
use rel_base::{Key, List, NoMemory, Place, Row, Twin};
use row_sets::Lifespan;
use row_sets::entry::{LogEntry, entry_at, place_at};
use std::alloc::Global;

/// Adds the version that a write left, where it left a row.
fn add_version(
    alloc: Global,
    versions: &mut Vec<Lifespan>,
    row: &Option<Row>,
    made: Place,
    ended: Option<Place>,
) -> Result<(), NoMemory>
    ensures { OnOk result (versions.new.items ≡ versions.old.items ++ lifespan row.now made ended) }
{
    match row {
        None => Ok(()),
        Some(row) => {
            let row = row.copy(alloc)?;
            versions.push(Lifespan { row, made, ended })?;
            Ok(())
        }
    }
}

/// All versions of a key, whose slot is given, the last one first.
pub fn chain_back(
    alloc: Global,
    view: &TableView<'_>,
    key: &Key,
    slot: Option<usize>,
) -> Result<Vec<Lifespan>, NoMemory>
    requires view { IsView view.now }
    requires slot { slot ≡ slot_of view.now.index.now.chains key.now }
    ensures { IfOk result (λ versions. reverse versions.items ≡ lifespans (is_of_key view.now.table key.now) (history_in view.now)) }
{
    let mut versions = Vec::new(alloc);
    let mut place = last_on(view, key, slot);
    let mut ended = None;
    while let Some(back) = place {
        let entry = entry_at(view.entries, back.number);
        let made = place_at(entry);
        add_version(alloc, &mut versions, &entry.placed.write.after, made, ended)?;
        ended = Some(made);
        place = last_before(view, key, back.left, back.number);
    }
    Ok(versions)
}

/// The place of the write of an entry that may be there.
fn place_of_entry(entry: Option<&LogEntry>) -> Option<Place>
    ensures { result ≡ option_map (λ found. place_of (stamped_of found)) (option_copied entry.entry) }
{
    match entry {
        None => None,
        Some(entry) => Some(place_at(entry)),
    }
}

/// The place of the write of a number that may be there.
fn place_of_number(entries: &[LogEntry], number: Option<usize>) -> Option<Place>
    ensures { result ≡ option_map place_of (write_of (history_of entries.now) number) }
{
    match number {
        None => None,
        Some(number) => place_of_entry(entries.get(number)),
    }
}

/// Goes back by one write: adds the version that it left, where it is of a table, and notes it as the next one on its key. The
/// map names the first write on each key of the table among those after it.
fn add_before(
    alloc: Global,
    versions: &mut Vec<Lifespan>,
    next: &mut Heads,
    entries: &[LogEntry],
    table: u32,
    number: usize,
) -> Result<(), NoMemory>
    requires below { number < length entries.now }
    requires versions { reverse versions.old.items ≡ lifespans (is_of_table table) (drop (number + 1) (history_of entries.now)) }
    requires firsts { AreFirsts table (number + 1) (history_of entries.now) next.old }
    ensures versions { OnOk result (reverse versions.new.items ≡ lifespans (is_of_table table) (drop number (history_of entries.now))) }
    ensures firsts { OnOk result (AreFirsts table number (history_of entries.now) next.new) }
{
    let entry = entry_at(entries, number);
    if entry.placed.write.table != table {
        return Ok(());
    }
    let ended = place_of_number(entries, next.last(&entry.placed.write.key));
    add_version(
        alloc,
        versions,
        &entry.placed.write.after,
        place_at(entry),
        ended,
    )?;
    next.note(alloc, table, entry, number)
}

/// All versions of a table, the last one first.
pub fn all_back(alloc: Global, entries: &[LogEntry], table: u32) -> Result<Vec<Lifespan>, NoMemory>
    ensures { IfOk result (λ versions. reverse versions.items ≡ lifespans (is_of_table table) (history_of entries.now)) }
{
    let mut versions = Vec::new(alloc);
    let mut next = Heads::new(alloc);
    let mut start = entries.len();
    while start > 0 {
        add_before(alloc, &mut versions, &mut next, entries, table, start - 1)?;
        start -= 1;
    }
    Ok(versions)
}

/// Versions with the first one first, of those that have the last one first.
pub fn oldest_first(mut versions: Vec<Lifespan>) -> List<Lifespan>
    ensures { result ≡ reverse versions.items }
{
    versions.reverse();
    List::from_vec(versions)
}
