//! The log of a store: entries that are numbered from 0, in the order in which they were applied.

ghost use Rattle.std.specs.Prelude.{◌≡◌, ◌<◌, ◌≤◌, ◌+◌, ◌++◌, ◌∷◌, [], Some, length, slice_get};
ghost use Rattle.std.specs.Option.{option_map};
ghost use Rattle.std.specs.Vec.{vec_len, vec_capacity};
ghost use Rattle.row_sets.specs.Lifespans.{is_of_key};
ghost use Rattle.row_sets.specs.Log.{entry_of, history_of, room_of, stamped_of};
ghost use Rattle.row_sets.specs.Versions.{stamped_at, write_of};
ghost use Rattle.rel_base.specs.Tables.{place_of};

use crate::versions::WriteRef;
use rel_base::{Key, List, Place, Placed, Write};

/// A committed write: the number of its block, and the write with its position.
#[derive(Drop)]
pub struct LogEntry {
    pub block: u64,
    pub placed: Placed,
}

/// The entry of a number.
pub fn entry_at(entries: &[LogEntry], number: usize) -> &LogEntry
    requires { number < length entries.now }
    ensures { slice_get entries.now number ≡ Some result.now }
{
    &entries[number]
}

/// The write of a number, or nothing where there are not so many.
pub fn write_at(entries: &[LogEntry], number: usize) -> Option<WriteRef<'_>>
    ensures { option_map write_of result ≡ slice_get (history_of entries.now) number }
{
    match entries.get(number) {
        None => None,
        Some(entry) => Some(WriteRef {
            block: entry.block,
            placed: &entry.placed,
        }),
    }
}

/// The place of the write of an entry.
pub fn place_at(entry: &LogEntry) -> Place
    ensures { result ≡ place_of (stamped_of entry.now) }
{
    Place {
        block: entry.block,
        pos: entry.placed.pos,
    }
}

/// Whether the write of an entry is on a key of a table.
pub fn is_on_key(entry: &LogEntry, table: u32, key: &Key) -> bool
    ensures { result ≡ is_of_key table key.now (stamped_of entry.now) }
{
    let by_key = key.cmp(&entry.placed.write.key);
    table.cmp(&entry.placed.write.table).then(by_key).is_eq()
}

/// Appends a write to a log that has room for it.
fn push_one(log: &mut Vec<LogEntry>, place: Place, write: Write)
    requires { vec_len log.old < vec_capacity log.old }
    ensures log { log.new.items ≡ log.old.items ++ entry_of place write ∷ [] }
    ensures len { vec_len log.new ≡ vec_len log.old + 1 }
    ensures room { vec_capacity log.new ≡ vec_capacity log.old }
{
    let placed = Placed {
        pos: place.pos,
        write,
    };
    log.push_reserved(LogEntry {
        block: place.block,
        placed,
    });
}

/// Appends the writes of a transaction at its place to a log that has room for them.
pub fn push_all(log: &mut Vec<LogEntry>, place: Place, writes: List<Write>)
    requires room { length writes ≤ room_of log.old }
    ensures history { history_of log.new.items ≡ history_of log.old.items ++ stamped_at place writes }
    ensures room { room_of log.new + length writes ≡ room_of log.old }
{
    for write in writes.into_vec() {
        push_one(log, place, write);
    }
}
