//! The marks of transactions, set in rows of words.

ghost use Rattle.std.specs.Prelude.{ℕ, ◌≡◌, ◌<◌, ◌≤◌, ◌+◌, ◌*◌, ◌/◌, OnOk, length, true, vec_len};
ghost use Rattle.conflict_rules.specs.Marking.{has_read_at, has_value_at, has_value_in, has_write_at, is_cell_place, is_marked, is_place_of, is_value_marked, is_value_place};
ghost use Rattle.proc_syntax.specs.Limits.{most_transactions};

use crate::places::{ROW, UNMARKED, cell_place, read_place, table_place, write_place};
use rel_base::{Made, NoMemory, Row, Write};
use rw_graph::word::with_one;

/// Takes room for the marks of a transaction, which is none where it stands after 1,024 others. No mark changes, with out of memory
/// or without.
pub fn grow(words: &mut Vec<u64>, number: usize) -> Result<(), NoMemory>
    ensures same { (place other : ℕ) → is_marked words.new.items place other ≡ is_marked words.old.items place other }
    ensures room { OnOk result (number < most_transactions → 1345 * (number / 64 + 1) ≤ vec_len words.new) }
{
    if number >= 1024 {
        return Ok(());
    }
    let len = ROW * (number / 64 + 1);
    if words.len() < len {
        words.resize(len, 0)?;
    }
    Ok(())
}

// Marks a place for a transaction.
fn mark(words: &mut [u64], place: u32, number: usize)
    requires place { place < 1345 }
    requires room { 1345 * (number / 64 + 1) ≤ length words.old }
    ensures kept { (other at : ℕ) → is_marked words.old other at ≡ true → is_marked words.new other at ≡ true }
    ensures own { is_marked words.new place number ≡ true }
    ensures len { length words.new ≡ length words.old }
{
    let index = ROW * (number / 64) + place as usize;
    words[index] = with_one(words[index], (number % 64) as u32);
}

// Marks the places of a write for a transaction.
fn mark_write(words: &mut [u64], write: &Write, number: usize)
    requires room { 1345 * (number / 64 + 1) ≤ length words.old }
    ensures kept { (other at : ℕ) → is_marked words.old other at ≡ true → is_marked words.new other at ≡ true }
    ensures own { (place : ℕ) → is_place_of write.now place ≡ true → is_marked words.new place number ≡ true }
    ensures len { length words.new ≡ length words.old }
{
    mark(words, write_place(write), number);
    mark(words, table_place(write.table), number);
}

// Marks the places of some writes for a transaction.
fn mark_writes(words: &mut [u64], writes: &[Write], number: usize)
    requires room { 1345 * (number / 64 + 1) ≤ length words.old }
    ensures kept { (other at : ℕ) → is_marked words.old other at ≡ true → is_marked words.new other at ≡ true }
    ensures own { (place : ℕ) → has_write_at writes.now place ≡ true → is_marked words.new place number ≡ true }
    ensures len { length words.new ≡ length words.old }
{
    for write in writes {
        mark_write(words, write, number);
    }
}

// Marks the value of a column of a row that may be there for a transaction.
fn mark_cell(words: &mut [u64], table: u32, column: u32, row: &Option<Row>, number: usize)
    requires room { 1345 * (number / 64 + 1) ≤ length words.old }
    ensures kept { (other at : ℕ) → is_marked words.old other at ≡ true → is_marked words.new other at ≡ true }
    ensures own { (place : ℕ) → is_cell_place table column row.now place ≡ true → is_marked words.new place number ≡ true }
    ensures len { length words.new ≡ length words.old }
{
    if let Some(row) = row {
        mark(words, cell_place(table, row.as_slice(), column), number);
    }
}

// Marks the values of a column before and after a write for a transaction.
fn mark_cells(words: &mut [u64], column: u32, write: &Write, number: usize)
    requires room { 1345 * (number / 64 + 1) ≤ length words.old }
    ensures kept { (other at : ℕ) → is_marked words.old other at ≡ true → is_marked words.new other at ≡ true }
    ensures own { (place : ℕ) → is_value_place column write.now place ≡ true → is_marked words.new place number ≡ true }
    ensures len { length words.new ≡ length words.old }
{
    mark_cell(words, write.table, column, &write.before, number);
    mark_cell(words, write.table, column, &write.after, number);
}

// Marks the values of a column before and after some writes for a transaction.
fn mark_values(words: &mut [u64], column: u32, writes: &[Write], number: usize)
    requires room { 1345 * (number / 64 + 1) ≤ length words.old }
    ensures kept { (other at : ℕ) → is_marked words.old other at ≡ true → is_marked words.new other at ≡ true }
    ensures own { (place : ℕ) → has_value_at column writes.now place ≡ true → is_marked words.new place number ≡ true }
    ensures len { length words.new ≡ length words.old }
{
    for write in writes {
        mark_cells(words, column, write, number);
    }
}

// Marks the values of the marked column for a transaction, or that none are marked.
fn mark_column(words: &mut [u64], marked: Option<u32>, writes: &[Write], number: usize)
    requires room { 1345 * (number / 64 + 1) ≤ length words.old }
    ensures kept { (other at : ℕ) → is_marked words.old other at ≡ true → is_marked words.new other at ≡ true }
    ensures own { (place : ℕ) → has_value_in marked writes.now place ≡ true → is_value_marked words.new place number ≡ true }
    ensures len { length words.new ≡ length words.old }
{
    match marked {
        None => mark(words, UNMARKED, number),
        Some(column) => mark_values(words, column, writes, number),
    }
}

// Marks the places of some writes and their values for a transaction.
fn mark_all(words: &mut [u64], marked: Option<u32>, writes: &[Write], number: usize)
    requires room { 1345 * (number / 64 + 1) ≤ length words.old }
    ensures kept { (other at : ℕ) → is_marked words.old other at ≡ true → is_marked words.new other at ≡ true }
    ensures own { (place : ℕ) → has_write_at writes.now place ≡ true → is_marked words.new place number ≡ true }
    ensures values { (place : ℕ) → has_value_in marked writes.now place ≡ true → is_value_marked words.new place number ≡ true }
{
    mark_writes(words, writes, number);
    mark_column(words, marked, writes, number);
}

// Marks the places of some reads for a transaction.
fn mark_reads(words: &mut [u64], marked: Option<u32>, reads: &[Made], number: usize)
    requires room { 1345 * (number / 64 + 1) ≤ length words.old }
    ensures kept { (other at : ℕ) → is_marked words.old other at ≡ true → is_marked words.new other at ≡ true }
    ensures own { (place : ℕ) → has_read_at marked reads.now place ≡ true → is_marked words.new place number ≡ true }
    ensures len { length words.new ≡ length words.old }
{
    for made in reads {
        mark(words, read_place(marked, &made.read), number);
    }
}

/// Marks the places of some writes for a transaction, for which there is room, and their values in the marked column. Takes no memory.
pub fn note_writes(words: &mut Vec<u64>, marked: Option<u32>, writes: &[Write], number: usize)
    requires room { 1345 * (number / 64 + 1) ≤ vec_len words.old }
    ensures kept { (other at : ℕ) → is_marked words.old.items other at ≡ true → is_marked words.new.items other at ≡ true }
    ensures own { (place : ℕ) → has_write_at writes.now place ≡ true → is_marked words.new.items place number ≡ true }
    ensures values { (place : ℕ) → has_value_in marked writes.now place ≡ true → is_value_marked words.new.items place number ≡ true }
{
    mark_all(words.as_mut_slice(), marked, writes, number);
}

/// Marks the places of some reads for a transaction, for which there is room. Takes no memory.
pub fn note_reads(words: &mut Vec<u64>, marked: Option<u32>, reads: &[Made], number: usize)
    requires room { 1345 * (number / 64 + 1) ≤ vec_len words.old }
    ensures kept { (other at : ℕ) → is_marked words.old.items other at ≡ true → is_marked words.new.items other at ≡ true }
    ensures own { (place : ℕ) → has_read_at marked reads.now place ≡ true → is_marked words.new.items place number ≡ true }
{
    mark_reads(words.as_mut_slice(), marked, reads, number);
}
