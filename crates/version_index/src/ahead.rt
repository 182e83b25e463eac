//! A look at the memory that reads of some keys need, or that noting some writes needs. Nothing is changed and nothing is promised of
//! it: the waits for memory overlap in it, which would follow one another otherwise.
//!
//! That of reads goes from the slots of all keys to their last writes, and from these to the rows.

use crate::chains::Chains;
use crate::index::TableIndex;
use crate::key_hash::hash_of;
use rel_base::{Key, NoMemory, Row, Value, Write};
use row_sets::entry::LogEntry;
use std::alloc::Global;

/// How many writes are looked at together, before they are noted.
pub const TOGETHER: usize = 16;

/// The guesses at the slots of some keys.
fn guessed_slots(alloc: Global, chains: &Chains, keys: &[Key]) -> Result<Vec<usize>, NoMemory> {
    let mut slots = Vec::with_capacity(alloc, keys.len())?;
    for key in keys {
        if let Some(slot) = chains.guesses.get(hash_of(key)) {
            slots.push(slot)?;
        }
    }
    Ok(slots)
}

/// The numbers of the last writes at some slots.
fn last_numbers(alloc: Global, chains: &Chains, slots: &[usize]) -> Result<Vec<usize>, NoMemory> {
    let mut numbers = Vec::with_capacity(alloc, slots.len())?;
    for slot in slots {
        if let Some(number) = chains.last(*slot) {
            numbers.push(number)?;
        }
    }
    Ok(numbers)
}

/// The row that the write of a number left, where there is one.
fn row_left(entries: &[LogEntry], number: usize) -> Option<&Row> {
    match entries.get(number) {
        None => None,
        Some(entry) => match &entry.placed.write.after {
            None => None,
            Some(row) => Some(row),
        },
    }
}

/// The rows that the writes of some numbers left.
fn rows_left<'a>(
    alloc: Global,
    entries: &'a [LogEntry],
    numbers: &[usize],
) -> Result<Vec<&'a Row>, NoMemory> {
    let mut rows = Vec::with_capacity(alloc, numbers.len())?;
    for number in numbers {
        if let Some(row) = row_left(entries, *number) {
            rows.push(row)?;
        }
    }
    Ok(rows)
}

/// 1 where a value is there, and not the truth value false.
fn one_if_holds(value: Option<&Value>) -> usize {
    match value {
        None | Some(Value::Bool(false)) => 0,
        Some(_) => 1,
    }
}

/// How many of the first and the last value of a row are not false.
fn ends_of(row: &Row) -> usize {
    let values = row.as_slice();
    one_if_holds(values.first()).wrapping_add(one_if_holds(values.last()))
}

/// How many of the first and last values of some rows are not false.
fn count_ends(rows: &[&Row]) -> usize {
    let mut count: usize = 0;
    for row in rows {
        count = count.wrapping_add(ends_of(row));
    }
    count
}

/// The rows that the last writes left at the slots that are guessed of some keys.
fn guessed_rows<'a>(
    alloc: Global,
    entries: &'a [LogEntry],
    chains: &Chains,
    keys: &[Key],
) -> Result<Vec<&'a Row>, NoMemory> {
    let slots = guessed_slots(alloc, chains, keys)?;
    let numbers = last_numbers(alloc, chains, slots.as_slice())?;
    rows_left(alloc, entries, numbers.as_slice())
}

/// About twice as many as some keys have rows: it counts the ends of the rows, so that it looks at their memory. Where memory runs out,
/// it looks at nothing.
pub fn count_rows(alloc: Global, entries: &[LogEntry], chains: &Chains, keys: &[Key]) -> usize {
    match guessed_rows(alloc, entries, chains, keys) {
        Ok(rows) => count_ends(rows.as_slice()),
        Err(NoMemory) => 0,
    }
}

/// The number of the last write at the slot that is guessed of a key.
fn guessed_number(chains: &Chains, key: &Key) -> Option<usize> {
    match chains.guesses.get(hash_of(key)) {
        None => None,
        Some(slot) => chains.last(slot),
    }
}

/// The row that the last write at the slot that is guessed of a key left.
fn guessed_row<'a>(entries: &'a [LogEntry], index: &TableIndex, key: &Key) -> Option<&'a Row> {
    match guessed_number(&index.chains, key) {
        None => None,
        Some(number) => row_left(entries, number),
    }
}

/// How many of the first and the last value of the row that a write finds, by a guess, are not false.
fn ends_of_write(entries: &[LogEntry], indexes: &[TableIndex], write: &Write) -> usize {
    let Some(index) = indexes.get(write.table as usize) else {
        return 0;
    };
    match guessed_row(entries, index, &write.key) {
        None => 0,
        Some(row) => ends_of(row),
    }
}

/// At most twice as many as the next `TOGETHER` writes of a log, from a number on: it counts the ends of the rows that they find, so
/// that it looks at the memory that noting them needs.
pub fn count_writes(entries: &[LogEntry], indexes: &[TableIndex], number: usize) -> usize {
    let mut count: usize = 0;
    for at in number..number.saturating_add(TOGETHER) {
        let Some(entry) = entries.get(at) else {
            return count;
        };
        count = count.wrapping_add(ends_of_write(entries, indexes, &entry.placed.write));
    }
    count
}
