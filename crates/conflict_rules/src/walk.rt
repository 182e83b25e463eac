//! Walks over the committed transactions that were found, from the first to the last. Those that were not found are passed over.

ghost use Rattle.std.specs.Prelude.{ℕ, ◌≡◌, ◌<◌, ◌≤◌, ◌==◌, All, MatchOption, None, false, length};
ghost use Rattle.std.specs.Option.{option_map};
ghost use Rattle.conflict_rules.specs.Halves.{HalfFits, has_half_edge, meets};
ghost use Rattle.conflict_rules.specs.Marking.{NoneFound, OnlyFound};
ghost use Rattle.node_model.specs.Decide.{clash, first_shared};
ghost use Rattle.node_model.specs.Edges.{comes_from, leads_to, touches};
ghost use Rattle.rw_graph.specs.Fitting.{IsMember, ReadsFit, WritesFit};
ghost use Rattle.rw_graph.specs.Held.{holds};
ghost use Rattle.proc_syntax.specs.Limits.{most_transactions};

use crate::clash::{ClashRef, first_shared};
use node_model::Committed;
use rel_base::{Made, TableDef, Write};
use rw_graph::{Bits, touches};

// The first number from one on, below an end, that was found.
fn next_found(found: &Bits, from: usize, end: usize) -> Option<usize>
    requires { end ≤ most_transactions }
    ensures { MatchOption result (NoneFound found.now from end) (λ number. (from ≤ number) × (number < end) × NoneFound found.now from number) }
{
    if from >= end {
        return None;
    }
    match found.least_from(from as u32 + 1) {
        None => None,
        Some(pos) => {
            let number = pos as usize - 1;
            if number < end { Some(number) } else { None }
        }
    }
}

/// The first write conflict with a transaction that was found, where the others have none.
pub fn clash_among(committed: &[Committed], found: &Bits, writes: &[Write]) -> Option<ClashRef>
    requires few { length committed.now ≤ most_transactions }
    requires only { OnlyFound found.now committed.now (λ done. first_shared done.writes writes.now ≡ None) }
    ensures { option_map (λ clash. (clash.with, clash.index)) result ≡ clash committed.now writes.now }
{
    let mut from = 0;
    while let Some(number) = next_found(found, from, committed.len()) {
        let done = &committed[number];
        if let Some(index) = first_shared(done.writes.as_slice(), writes) {
            return Some(ClashRef {
                with: done.pos,
                index,
            });
        }
        from = number + 1;
    }
    None
}

// The half of a transaction that its edges are looked for by: edges lead from its reads to the writes that they touch, and to its
// writes from the reads that touch them.
#[derive(Clone, Copy)]
enum Half<'a> {
    Reads(&'a [Made]),
    Writes(&'a [Write]),
}

// Whether there is such an edge with a committed transaction.
fn meets(tables: &[TableDef], half: Half<'_>, done: &Committed) -> bool
    requires half { HalfFits tables.now half }
    requires done { IsMember tables.now done.now }
    ensures { result ≡ meets tables.now half.entry done.now }
{
    match half {
        Half::Reads(reads) => touches(tables, reads, done.writes.as_slice()),
        Half::Writes(writes) => touches(tables, done.reads.as_slice(), writes),
    }
}

// The positions of the committed transactions with such an edge, where those that were not found have none.
fn edges_among(tables: &[TableDef], committed: &[Committed], found: &Bits, half: Half<'_>) -> Bits
    requires committed { All (IsMember tables.now) committed.now }
    requires few { length committed.now ≤ most_transactions }
    requires half { HalfFits tables.now half }
    requires only { OnlyFound found.now committed.now (λ done. meets tables.now half done ≡ false) }
    ensures { (pos : ℕ) → holds result pos ≡ has_half_edge tables.now committed.now half.entry pos }
{
    let mut edges = Bits::new();
    let mut from = 0;
    while let Some(number) = next_found(found, from, committed.len()) {
        let done = &committed[number];
        edges.add_if(meets(tables, half, done), done.pos);
        from = number + 1;
    }
    edges
}

/// The positions to which a transaction with some reads has an edge, where it has none to those that were not found.
pub fn out_among(tables: &[TableDef], committed: &[Committed], found: &Bits, reads: &[Made]) -> Bits
    requires committed { All (IsMember tables.now) committed.now }
    requires few { length committed.now ≤ most_transactions }
    requires reads { ReadsFit tables.now reads.now }
    requires only { OnlyFound found.now committed.now (λ done. touches tables.now reads.now done.writes ≡ false) }
    ensures { (pos : ℕ) → holds result pos ≡ leads_to tables.now committed.now reads.now pos }
{
    edges_among(tables, committed, found, Half::Reads(reads))
}

/// The positions that have an edge to a transaction with some writes, where those that were not found have none.
pub fn into_among(
    tables: &[TableDef],
    committed: &[Committed],
    found: &Bits,
    writes: &[Write],
) -> Bits
    requires committed { All (IsMember tables.now) committed.now }
    requires few { length committed.now ≤ most_transactions }
    requires writes { WritesFit tables.now writes.now }
    requires only { OnlyFound found.now committed.now (λ done. touches tables.now done.reads writes.now ≡ false) }
    ensures { (pos : ℕ) → holds result pos ≡ comes_from tables.now committed.now writes.now pos }
{
    edges_among(tables, committed, found, Half::Writes(writes))
}
