//! The edges between a transaction and those that committed before it in its block.

ghost use Rattle.std.specs.Prelude.{ℕ, ◌≡◌, ◌≤◌, ◌&&◌, ◌||◌, All};
ghost use Rattle.std.specs.Bool.{nat_eq};
ghost use Rattle.std.specs.List.{list_any};
ghost use Rattle.node_model.specs.Edges.{comes_from, leads_to, touches};
ghost use Rattle.rel_base.specs.Among.{ReadFitsIn, WriteFitsIn};
ghost use Rattle.rel_base.specs.Late.{hits_in};
ghost use Rattle.rw_graph.specs.Held.{holds};
ghost use Rattle.rw_graph.specs.Fitting.{IsMember, ReadsFit, WritesFit};

use crate::edges::{Edges, no_edges};
use node_model::Committed;
use rel_base::{List, Made, Read, TableDef, Write};

// Whether a read hits a write, by the rows of the write.
fn hits_rows(tables: &[TableDef], read: &Read, write: &Write) -> bool
    requires read { ReadFitsIn tables.now read.now }
    requires write { WriteFitsIn tables.now write.now }
    ensures { result ≡ hits_in tables.now read.now write.now }
{
    match tables.get(read.table() as usize) {
        None => false,
        Some(def) => read.hits(def, write),
    }
}

// Whether a read hits a write. A point hits the writes of its key, which stands in the write beside the rows.
fn hits(tables: &[TableDef], read: &Read, write: &Write) -> bool
    requires read { ReadFitsIn tables.now read.now }
    requires write { WriteFitsIn tables.now write.now }
    ensures { result ≡ hits_in tables.now read.now write.now }
{
    match read {
        Read::Point { table, key } => *table == write.table && write.key == *key,
        Read::Span { .. } => hits_rows(tables, read, write),
    }
}

// Whether a read hits some write.
fn hits_some(tables: &[TableDef], read: &Read, writes: &[Write]) -> bool
    requires read { ReadFitsIn tables.now read.now }
    requires writes { WritesFit tables.now writes.now }
    ensures { result ≡ list_any (hits_in tables.now read.now) writes.now }
{
    for write in writes {
        if hits(tables, read, write) {
            return true;
        }
    }
    false
}

/// Whether some read hits some write. Takes no memory.
pub fn touches(tables: &[TableDef], reads: &[Made], writes: &[Write]) -> bool
    requires reads { ReadsFit tables.now reads.now }
    requires writes { WritesFit tables.now writes.now }
    ensures { result ≡ touches tables.now reads.now writes.now }
{
    for made in reads {
        if hits_some(tables, &made.read, writes) {
            return true;
        }
    }
    false
}

// Notes the edges between a transaction and one that committed before it.
fn note(edges: &mut Edges, tables: &[TableDef], done: &Committed, reads: &[Made], writes: &[Write])
    requires done { IsMember tables.now done.now }
    requires reads { ReadsFit tables.now reads.now }
    requires writes { WritesFit tables.now writes.now }
    ensures out { (pos : ℕ) → holds edges.new.out pos ≡ ((touches tables.now reads.now done.now.writes && nat_eq pos done.now.pos) || holds edges.old.out pos) }
    ensures into { (pos : ℕ) → holds edges.new.into pos ≡ ((touches tables.now done.now.reads writes.now && nat_eq pos done.now.pos) || holds edges.old.into pos) }
{
    let reads_it = touches(tables, reads, done.writes.as_slice());
    edges.out.add_if(reads_it, done.pos);
    let is_read = touches(tables, done.reads.as_slice(), writes);
    edges.into.add_if(is_read, done.pos);
}

/// The edges between a transaction, of which the reads and the net writes are passed, and the transactions that committed before
/// it in its block. All of these fit the tables, and their positions are from 1 to 1,024. Takes no memory.
pub fn edges_of(
    tables: &List<TableDef>,
    committed: &List<Committed>,
    reads: &List<Made>,
    writes: &List<Write>,
) -> Edges
    requires committed { All (IsMember tables.now) committed.now }
    requires reads { ReadsFit tables.now reads.now }
    requires writes { WritesFit tables.now writes.now }
    ensures out { (pos : ℕ) → holds result.out pos ≡ leads_to tables.now committed.now reads.now pos }
    ensures into { (pos : ℕ) → holds result.into pos ≡ comes_from tables.now committed.now writes.now pos }
{
    let mut edges = no_edges();
    for done in committed.as_slice() {
        note(
            &mut edges,
            tables.as_slice(),
            done,
            reads.as_slice(),
            writes.as_slice(),
        );
    }
    edges
}
