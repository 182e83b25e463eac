//! The directory.

ghost use Rattle.std.specs.Prelude.{ℕ, ◌≡◌, ◌<◌, ◌++◌, ◌∷◌, [], All, IfSome, List, OnOk, Some, length};
ghost use Rattle.std.specs.Option.{option_map};
ghost use Rattle.conflict_rules.specs.Marking.{HasRoomFor, IsDirectoryOf};
ghost use Rattle.node_model.specs.Decide.{clash};
ghost use Rattle.node_model.specs.Edges.{comes_from, leads_to};
ghost use Rattle.node_model.specs.declared.result.Committed.{Committed as Done};
ghost use Rattle.rw_graph.specs.Fitting.{IsMember, ReadsFit, WritesFit};
ghost use Rattle.rw_graph.specs.Held.{holds};
ghost use Rattle.proc_syntax.specs.Limits.{most_transactions};

use crate::clash::ClashRef;
use crate::lookup::{marked_at_keys, marked_at_reads, marked_at_writes};
use crate::marking::{grow, note_reads, note_writes};
use crate::places::{ROW, first_column};
use crate::walk::{clash_among, into_among, out_among};
use node_model::Committed;
use rel_base::{List, Made, NoMemory, TableDef, Write};
use rw_graph::{Bits, Edges, room_for};
use std::alloc::Global;

/// What the committed transactions of one block read and wrote, as marks. Each group of 64 transactions has a row of words, in which a
/// word stands for the keys of one hash or for a table, and each bit of it for a transaction.
///
/// It names at least those that a transaction touches: the few others that share a hash are told apart by their own reads and writes.
#[derive(Drop)]
pub struct Directory {
    writers: Vec<u64>,
    readers: Vec<u64>,
    /// The column whose values are marked too: that of the first span of one value. A block without such spans has none, and pays
    /// for none.
    marked: Option<u32>,
}

// The marked column with the reads of one more transaction: it stays as it is once there is one.
fn column_with(marked: Option<u32>, reads: &[Made]) -> Option<u32>
    ensures { IfSome marked (λ column. result ≡ Some column) }
{
    match marked {
        None => first_column(reads),
        Some(column) => Some(column),
    }
}

// How many words the marks of so many transactions take, of which those after 1,024 others have none.
fn words_for(count: usize) -> usize {
    if count < 1024 {
        ROW * ((count + 63) / 64)
    } else {
        ROW * 16
    }
}

impl Directory {
    /// The directory of no transaction.
    pub fn new(alloc: Global) -> Directory
        ensures { IsDirectoryOf [] result }
    {
        Directory {
            writers: Vec::new(alloc),
            readers: Vec::new(alloc),
            marked: None,
        }
    }

    /// The directory of no transaction, with room for so many where there is memory for it.
    pub fn with_room(alloc: Global, count: usize) -> Directory
        ensures { IsDirectoryOf [] result }
    {
        let words = words_for(count);
        Directory {
            writers: room_for(alloc, words),
            readers: room_for(alloc, words),
            marked: None,
        }
    }

    /// Takes room for the transaction of a number, from 0. The directory says what it said, whether memory runs out or not.
    pub fn reserve(&mut self, number: usize) -> Result<(), NoMemory>
        ensures same { (committed : List Done) → IsDirectoryOf committed self.old → IsDirectoryOf committed self.new }
        ensures room { OnOk result (HasRoomFor number self.new) }
    {
        grow(&mut self.writers, number)?;
        grow(&mut self.readers, number)
    }

    /// Adds the reads and the net writes of the transaction of a number, from 0, for which there is room. Takes no memory.
    pub fn add(&mut self, number: usize, reads: &List<Made>, writes: &List<Write>)
        requires few { number < most_transactions }
        requires room { HasRoomFor number self.old }
        ensures { (committed : List Done) (pos : ℕ) → length committed ≡ number → IsDirectoryOf committed self.old
            → IsDirectoryOf (committed ++ record { pos = pos; reads = reads.now; writes = writes.now } ∷ []) self.new }
    {
        self.marked = column_with(self.marked, reads.as_slice());
        note_writes(&mut self.writers, self.marked, writes.as_slice(), number);
        note_reads(&mut self.readers, self.marked, reads.as_slice(), number);
    }

    /// The write conflict of writes with the committed transactions: `None` exactly where none of these wrote a table and key of the
    /// writes. Takes no memory.
    pub fn conflict(&self, committed: &[Committed], writes: &[Write]) -> Option<ClashRef>
        requires directory { IsDirectoryOf committed.now self.now }
        ensures { option_map (λ found. (found.with, found.index)) result ≡ clash committed.now writes.now }
    {
        let found = marked_at_keys(self.writers.as_slice(), writes);
        clash_among(committed, &found, writes)
    }

    // The positions to which a transaction with some reads has an edge.
    fn edges_out(&self, tables: &[TableDef], committed: &[Committed], reads: &[Made]) -> Bits
        requires directory { IsDirectoryOf committed.now self.now }
        requires committed { All (IsMember tables.now) committed.now }
        requires reads { ReadsFit tables.now reads.now }
        ensures { (pos : ℕ) → holds result pos ≡ leads_to tables.now committed.now reads.now pos }
    {
        let found = marked_at_reads(self.writers.as_slice(), self.marked, reads);
        out_among(tables, committed, &found, reads)
    }

    // The positions that have an edge to a transaction with some writes.
    fn edges_into(&self, tables: &[TableDef], committed: &[Committed], writes: &[Write]) -> Bits
        requires directory { IsDirectoryOf committed.now self.now }
        requires committed { All (IsMember tables.now) committed.now }
        requires writes { WritesFit tables.now writes.now }
        ensures { (pos : ℕ) → holds result pos ≡ comes_from tables.now committed.now writes.now pos }
    {
        let found = marked_at_writes(self.readers.as_slice(), self.marked, writes);
        into_among(tables, committed, &found, writes)
    }

    /// The edges between a transaction, of which the reads and the net writes are passed, and the committed ones. All of these fit the
    /// tables. Takes no memory.
    pub fn edges(
        &self,
        tables: &[TableDef],
        committed: &[Committed],
        reads: &[Made],
        writes: &[Write],
    ) -> Edges
        requires directory { IsDirectoryOf committed.now self.now }
        requires committed { All (IsMember tables.now) committed.now }
        requires reads { ReadsFit tables.now reads.now }
        requires writes { WritesFit tables.now writes.now }
        ensures out { (pos : ℕ) → holds result.out pos ≡ leads_to tables.now committed.now reads.now pos }
        ensures into { (pos : ℕ) → holds result.into pos ≡ comes_from tables.now committed.now writes.now pos }
    {
        Edges {
            out: self.edges_out(tables, committed, reads),
            into: self.edges_into(tables, committed, writes),
        }
    }
}
