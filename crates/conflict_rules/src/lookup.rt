//! The transactions that are marked at the places of reads or writes: those that these may touch.

ghost use Rattle.std.specs.Prelude.{ℕ, ◌≡◌, ◌<◌, ◌≤◌, ◌+◌, ◌*◌, ◌/◌, ◌||◌, slice_index};
ghost use Rattle.std.specs.List.{list_any};
ghost use Rattle.rw_graph.specs.Held.{holds};
ghost use Rattle.conflict_rules.specs.Marking.{is_cell_found, is_marked, is_read_found, is_touched, is_value_found, is_value_marked, is_write_found, write_place};
ghost use Rattle.proc_syntax.specs.Limits.{most_transactions};

use crate::places::{
    ROW, UNMARKED, cell_place, named_place, table_place, whole_place, write_place,
};
use rel_base::{Made, Read, Row, Write};
use rw_graph::Bits;

// The word at an index; past the end there is no mark.
fn word_at(words: &[u64], index: usize) -> u64
    ensures { result ≡ slice_index words.now index }
{
    match words.get(index) {
        None => 0,
        Some(word) => *word,
    }
}

// How many groups of 64 transactions have marks.
fn groups(len: usize) -> usize
    ensures within { result ≤ 16 }
    ensures all { (number : ℕ) → number < most_transactions → 64 * result ≤ number → len ≤ 1345 * (number / 64) }
{
    let full = len / ROW;
    if full < 16 { full + 1 } else { 16 }
}

// Puts in the transactions that are marked at a place. Transaction number n, from 0, is put in as position n + 1.
fn add_marked(found: &mut Bits, words: &[u64], place: u32)
    requires { place < 1345 }
    ensures { (number : ℕ) → number < most_transactions → holds found.new (number + 1) ≡ (is_marked words.now place number || holds found.old (number + 1)) }
{
    for index in 0..groups(words.len()) {
        found.add_word(index, word_at(words, ROW * index + place as usize));
    }
}

/// Those that are marked at the key of a write.
pub fn marked_at_keys(words: &[u64], writes: &[Write]) -> Bits
    ensures { (number : ℕ) → number < most_transactions → holds result (number + 1) ≡ list_any (λ write. is_marked words.now (write_place write) number) writes.now }
{
    let mut found = Bits::new();
    for write in writes {
        add_marked(&mut found, words, write_place(write));
    }
    found
}

// Puts in the transactions that are marked at a value, and those whose values are not marked.
fn add_named(found: &mut Bits, words: &[u64], place: u32)
    requires { place < 1345 }
    ensures { (number : ℕ) → number < most_transactions → holds found.new (number + 1) ≡ (is_value_marked words.now place number || holds found.old (number + 1)) }
{
    add_marked(found, words, UNMARKED);
    add_marked(found, words, place);
}

// Puts in the transactions that are marked at a read.
fn add_read(found: &mut Bits, words: &[u64], marked: Option<u32>, read: &Read)
    ensures { (number : ℕ) → number < most_transactions → holds found.new (number + 1) ≡ (is_read_found marked words.now read.now number || holds found.old (number + 1)) }
{
    match named_place(marked, read) {
        None => add_marked(found, words, whole_place(read)),
        Some(place) => add_named(found, words, place),
    }
}

/// Those that are marked at a read.
pub fn marked_at_reads(words: &[u64], marked: Option<u32>, reads: &[Made]) -> Bits
    ensures { (number : ℕ) → number < most_transactions → holds result (number + 1) ≡ list_any (λ made. is_read_found marked words.now made.read number) reads.now }
{
    let mut found = Bits::new();
    for made in reads {
        add_read(&mut found, words, marked, &made.read);
    }
    found
}

// Puts in the transactions that are marked at the value of a column of a row that may be there.
fn add_cell(found: &mut Bits, words: &[u64], table: u32, column: u32, row: &Option<Row>)
    ensures { (number : ℕ) → number < most_transactions → holds found.new (number + 1) ≡ (is_cell_found words.now table column row.now number || holds found.old (number + 1)) }
{
    if let Some(row) = row {
        add_marked(found, words, cell_place(table, row.as_slice(), column));
    }
}

// Puts in the transactions that are marked at the value of a column before or after a write.
fn add_cells(found: &mut Bits, words: &[u64], column: u32, write: &Write)
    ensures { (number : ℕ) → number < most_transactions → holds found.new (number + 1)
        ≡ ((is_cell_found words.now write.now.table column write.now.before number || is_cell_found words.now write.now.table column write.now.after number) || holds found.old (number + 1)) }
{
    add_cell(found, words, write.table, column, &write.after);
    add_cell(found, words, write.table, column, &write.before);
}

// Puts in the transactions that are marked at the values of the marked column of a write.
fn add_values(found: &mut Bits, words: &[u64], marked: Option<u32>, write: &Write)
    ensures { (number : ℕ) → number < most_transactions → holds found.new (number + 1) ≡ (is_value_found marked words.now write.now number || holds found.old (number + 1)) }
{
    match marked {
        None => {}
        Some(column) => add_cells(found, words, column, write),
    }
}

// Puts in the transactions that are marked at the table or at the key of a write.
fn add_touched(found: &mut Bits, words: &[u64], write: &Write)
    ensures { (number : ℕ) → number < most_transactions → holds found.new (number + 1) ≡ (is_touched words.now write.now number || holds found.old (number + 1)) }
{
    add_marked(found, words, write_place(write));
    add_marked(found, words, table_place(write.table));
}

// Puts in the transactions that are marked at a write.
fn add_write(found: &mut Bits, words: &[u64], marked: Option<u32>, write: &Write)
    ensures { (number : ℕ) → number < most_transactions → holds found.new (number + 1) ≡ (is_write_found marked words.now write.now number || holds found.old (number + 1)) }
{
    add_touched(found, words, write);
    add_values(found, words, marked, write);
}

/// Those that are marked at a write.
pub fn marked_at_writes(words: &[u64], marked: Option<u32>, writes: &[Write]) -> Bits
    ensures { (number : ℕ) → number < most_transactions → holds result (number + 1) ≡ list_any (λ write. is_write_found marked words.now write number) writes.now }
{
    let mut found = Bits::new();
    for write in writes {
        add_write(&mut found, words, marked, write);
    }
    found
}
