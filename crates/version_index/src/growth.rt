//! How the log grows, and how its tail is noted in the indexes of the tables.

ghost use Rattle.std.specs.Prelude.{◌≡◌, ◌<◌, ◌≤◌, ◌+◌, All, OnErr, OnOk, length};
ghost use Rattle.row_sets.specs.Log.{history_of, room_of};
ghost use Rattle.version_index.specs.Index.{AreNoted, columns_in};

use crate::ahead::{TOGETHER, count_writes};
use crate::index::TableIndex;
use rel_base::NoMemory;
use row_sets::entry::{LogEntry, entry_at};
use std::alloc::Global;

/// Notes the write of the entry of a number, the next one to note. Where memory is wanting, what the indexes tell stays as it was.
fn note_one(
    alloc: Global,
    indexes: &mut Vec<TableIndex>,
    entries: &[LogEntry],
    number: usize,
) -> Result<(), NoMemory>
    requires there { number < length entries.now }
    requires tables { All (λ entry. entry.placed.write.table < length indexes.old.items) entries.now }
    requires old { AreNoted indexes.old.items (history_of entries.now) number }
    ensures new { OnOk result (AreNoted indexes.new.items (history_of entries.now) (number + 1)) }
    ensures same { OnErr result (AreNoted indexes.new.items (history_of entries.now) number) }
    ensures columns { columns_in indexes.new.items ≡ columns_in indexes.old.items }
{
    let table = entry_at(entries, number).placed.write.table;
    indexes[table as usize].note(alloc, entries, number)
}

/// Where so many writes were noted that others are to be looked at, looks at the memory that noting the next ones needs. Nothing is
/// changed and nothing is promised. A write waits for the guess at its slot, the last write there and the row that it left, one
/// after the other, and so would each after it: in a look at sixteen of them the waits overlap.
///
/// It is told whether looks pay, and answers the same: they do until one finds no row, as where all writes insert.
fn look_ahead(indexes: &[TableIndex], entries: &[LogEntry], number: usize, pays: bool) -> bool {
    if !pays || number % TOGETHER != 0 {
        return pays;
    }
    count_writes(entries, indexes, number) > 0
}

/// Notes the writes of the tail, one after the other. Where memory is wanting, those before are noted already, and counted.
pub fn note_tail(
    alloc: Global,
    indexes: &mut Vec<TableIndex>,
    entries: &[LogEntry],
    noted: &mut usize,
) -> Result<(), NoMemory>
    requires within { noted.old ≤ length entries.now }
    requires tables { All (λ entry. entry.placed.write.table < length indexes.old.items) entries.now }
    requires old { AreNoted indexes.old.items (history_of entries.now) noted.old }
    ensures within { noted.new ≤ length entries.now }
    ensures grows { noted.old ≤ noted.new }
    ensures new { AreNoted indexes.new.items (history_of entries.now) noted.new }
    ensures columns { columns_in indexes.new.items ≡ columns_in indexes.old.items }
    ensures whole { OnOk result (noted.new ≡ length entries.now) }
{
    let mut pays = true;
    while *noted < entries.len() {
        pays = look_ahead(indexes.as_slice(), entries, *noted, pays);
        note_one(alloc, indexes, entries, *noted)?;
        *noted += 1;
    }
    Ok(())
}

/// Takes room in the log for so many writes. The log grows by a fourth, so that little of it stands empty.
pub fn hold_log(log: &mut Vec<LogEntry>, writes: usize) -> Result<(), NoMemory>
    ensures items { log.new.items ≡ log.old.items }
    ensures room { OnOk result (writes ≤ room_of log.new) }
    ensures kept { OnErr result (room_of log.new ≡ room_of log.old) }
{
    if log.capacity() - log.len() < writes {
        log.reserve_exact(writes.max(log.len() / 4))?;
    }
    Ok(())
}
