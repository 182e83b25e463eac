//! All versions of a key, and of a table.

ghost use Rattle.std.specs.Prelude.{◌≡◌, ◌++◌, ◌+◌, ◌<◌, [], IfOk, OnOk, Some, cond, drop, find, length, slice_get};
ghost use Rattle.std.specs.Option.{option_map};
ghost use Rattle.rel_base.specs.Tables.{Stamped, place_of};
ghost use Rattle.row_sets.specs.Lifespans.{ended_by, is_of_key, is_of_table, lifespan, lifespans};
ghost use Rattle.row_sets.specs.Log.{history_of};

use rel_base::{Key, List, NoMemory, Place, Row, Twin};
use row_sets::Lifespan;
use row_sets::entry::{LogEntry, entry_at, is_on_key, place_at};
use std::alloc::Global;

/// The place of the first write on a key from a number on.
fn next_on(log: &[LogEntry], start: usize, table: u32, key: &Key) -> Option<Place>
    ensures { result ≡ option_map place_of (find (is_of_key table key.now) (drop start (history_of log.now))) }
{
    for number in start..log.len() {
        let entry = entry_at(log, number);
        if is_on_key(entry, table, key) {
            return Some(place_at(entry));
        }
    }
    None
}

/// Adds the version that a write left, where it left a row.
fn add_row(
    alloc: Global,
    versions: &mut List<Lifespan>,
    row: &Option<Row>,
    made: Place,
    ended: Option<Place>,
) -> Result<(), NoMemory>
    ensures { OnOk result (versions.new ≡ versions.old ++ lifespan row.now made ended) }
{
    match row {
        None => Ok(()),
        Some(row) => {
            let row = row.copy(alloc)?;
            versions.push(Lifespan { row, made, ended })
        }
    }
}

/// Adds the version that the write of a number left, where it passes and left a row. The first write on its key after it ended it.
fn add_version(
    alloc: Global,
    versions: &mut List<Lifespan>,
    log: &[LogEntry],
    number: usize,
    passes: bool,
) -> Result<(), NoMemory>
    requires { number < length log.now }
    ensures { OnOk result ((stamped : Stamped) → slice_get (history_of log.now) number ≡ Some stamped → versions.new ≡ versions.old ++ cond passes (lifespan stamped.1.write.after (place_of stamped) (ended_by stamped (drop (number + 1) (history_of log.now)))) []) }
{
    if passes {
        let entry = entry_at(log, number);
        let write = &entry.placed.write;
        let ended = next_on(log, number + 1, write.table, &write.key);
        add_row(alloc, versions, &write.after, place_at(entry), ended)
    } else {
        Ok(())
    }
}

/// All versions of the row of a key, in the order in which they were made.
pub fn of_key(
    alloc: Global,
    log: &[LogEntry],
    table: u32,
    key: &Key,
) -> Result<List<Lifespan>, NoMemory>
    ensures { IfOk result (λ versions. versions ≡ lifespans (is_of_key table key.now) (history_of log.now)) }
{
    let mut versions = List::new(alloc);
    for number in 0..log.len() {
        let passes = is_on_key(entry_at(log, number), table, key);
        add_version(alloc, &mut versions, log, number, passes)?;
    }
    Ok(versions)
}

/// All versions of the rows of a table, in the order in which they were made.
pub fn of_table(alloc: Global, log: &[LogEntry], table: u32) -> Result<List<Lifespan>, NoMemory>
    ensures { IfOk result (λ versions. versions ≡ lifespans (is_of_table table) (history_of log.now)) }
{
    let mut versions = List::new(alloc);
    for number in 0..log.len() {
        let passes = entry_at(log, number).placed.write.table == table;
        add_version(alloc, &mut versions, log, number, passes)?;
    }
    Ok(versions)
}
