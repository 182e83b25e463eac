//! The causes of an abort that a run shows.

ghost use Rattle.std.specs.Prelude.{◌≡◌, ◌<◌, ◌≤◌, ◌^◌, ◌-◌, All, IfOk, IfSome, length, map};
ghost use Rattle.std.specs.Option.{option_map};
ghost use Rattle.block_digest.specs.Codable.{HasFewPath};
ghost use Rattle.conflict_rules.specs.Marking.{IsDirectoryOf};
ghost use Rattle.block_work.specs.Block.{IsConsistent};
ghost use Rattle.block_work.specs.Causes.{AreOwnEdges, IsVerdictOn, RunFits, before_edges, outcome_of, outcome_of_late};
ghost use Rattle.conflict_rules.specs.Late.{overtaken_of};
ghost use Rattle.node_model.specs.Danger.{danger, danger_by};
ghost use Rattle.node_model.specs.declared.outcome.Outcome.TheVariants as outcome;
ghost use Rattle.node_model.specs.Decide.{by_run, clash, conflict_outcome, fault_outcome, late_outcome, or_committed};
ghost use Rattle.proc_check.specs.Sizes.{IsSmall};
ghost use Rattle.rel_base.specs.Among.{ReadFitsIn};
ghost use Rattle.rel_base.specs.Late.{late};
ghost use Rattle.rel_base.specs.Tables.{HistoryFits, writes_between};
ghost use Rattle.rw_graph.specs.Graph.{has_edge, positions_of};
ghost use Rattle.rw_graph.specs.Held.{holds};
ghost use Rattle.rw_graph.specs.Sets.{AreAmong};
ghost use Rattle.proc_syntax.specs.Limits.{most_transactions};

use crate::block::BlockInWork;
use crate::verdict::Verdict;
use conflict_rules::{LateRef, late};
use node_model::{Clash, Danger, Late, Outcome};
use proc_syntax::run::{Ending, Ran};
use rel_base::{List, Made, NoMemory, TableDef, Twin, Write};
use row_sets::Versions;
use rw_graph::{EdgeSet, Edges, cycle, danger};
use std::alloc::Global;

// The outcome of a late read, with a copy of its key.
fn late_outcome(alloc: Global, found: Option<LateRef<'_>>) -> Result<Option<Outcome>, NoMemory>
    ensures { IfOk result (λ outcome. outcome ≡ option_map outcome_of_late (option_map overtaken_of found.entry)) }
{
    match found {
        None => Ok(None),
        Some(found) => {
            let late = Late {
                stale: found.hit.stale,
                read: found.read,
                place: found.hit.place,
                table: found.table,
                key: found.hit.key.copy(alloc)?,
            };
            Ok(Some(Outcome::of_late(alloc, late)?))
        }
    }
}

// Whether a read of a run was overtaken by a write of the blocks above `height` up to `upto`.
#[tactic(auto, using(crate::proofs::Outcomes::late_is))]
fn find_late<V: Versions>(
    alloc: Global,
    versions: &V,
    reads: &List<Made>,
    height: u64,
    upto: u64,
) -> Result<Option<Outcome>, NoMemory>
    requires fits { All (λ made. ReadFitsIn (V.tables versions.now) made.read) reads.now }
    requires few { length reads.now < 2 ^ 32 }
    ensures { IfOk result (λ found. found ≡ late_outcome (V.tables versions.now)
        (late (V.tables versions.now) (map (λ made. made.read) reads.now) (writes_between height upto (V.history versions.now)))) }
{
    late_outcome(alloc, late(versions, reads, height, upto))
}

// Whether a run ended in a fault, or ill typed, as no run of a checked application does.
fn find_fault(alloc: Global, ending: &Ending) -> Result<Option<Outcome>, NoMemory>
    ensures { IfOk result (λ found. found ≡ fault_outcome ending.now) }
{
    match ending {
        Ending::Good => Ok(None),
        Ending::Faulted(fault) => Ok(Some(Outcome::of_fault(alloc, fault.copy(alloc)?)?)),
        Ending::IllTyped => Ok(Some(Outcome::BadArguments)),
    }
}

// Whether a transaction that committed earlier in the block wrote a key of the writes.
fn find_conflict(
    alloc: Global,
    work: &BlockInWork,
    writes: &List<Write>,
) -> Result<Option<Outcome>, NoMemory>
    requires directory { IsDirectoryOf work.now.committed.items work.now.directory }
    ensures { IfOk result (λ found. found ≡ conflict_outcome writes.now (clash work.now.committed.items writes.now)) }
{
    let found = work
        .directory
        .conflict(work.committed.as_slice(), writes.as_slice());
    match found {
        None => Ok(None),
        Some(found) => match writes.get(found.index) {
            None => Ok(None),
            Some(write) => {
                let clash = Clash {
                    with: found.with,
                    table: write.table,
                    key: write.key.copy(alloc)?,
                };
                Ok(Some(Outcome::of_clash(alloc, clash)?))
            }
        },
    }
}

/// The first of the causes that a run shows without its edges.
pub fn find_cause<V: Versions>(
    alloc: Global,
    versions: &V,
    work: &BlockInWork,
    ran: &Ran,
    height: u64,
) -> Result<Option<Outcome>, NoMemory>
    requires number { 0 < work.now.number }
    requires fits { RunFits (V.tables versions.now) ran.now }
    requires directory { IsDirectoryOf work.now.committed.items work.now.directory }
    ensures { IfOk result (λ found. found ≡ before_edges (V.tables versions.now) (writes_between height (work.now.number - 1) (V.history versions.now)) work.now.committed.items ran.now) }
{
    if let Some(outcome) = find_late(alloc, versions, &ran.reads, height, work.number - 1)? {
        return Ok(Some(outcome));
    }
    if let Some(outcome) = find_fault(alloc, &ran.ending)? {
        return Ok(Some(outcome));
    }
    find_conflict(alloc, work, &ran.writes)
}

// The edges of a run to and from the transactions that committed before it in its block.
#[tactic(auto, using(crate::proofs::Consistent::are_members))]
fn own_edges(tables: &List<TableDef>, work: &BlockInWork, ran: &Ran) -> Edges
    requires consistent { IsConsistent tables.now work.now }
    requires few { length work.now.outcomes.items < most_transactions }
    requires fits { RunFits tables.now ran.now }
    ensures { AreOwnEdges tables.now work.now.committed.items ran.now result }
{
    work.directory.edges(
        tables.as_slice(),
        work.committed.as_slice(),
        ran.reads.as_slice(),
        ran.writes.as_slice(),
    )
}

// The danger of a transaction by its edges: with exact isolation a cycle that they would close.
fn find_danger(
    alloc: Global,
    exact: bool,
    set: &EdgeSet,
    edges: &Edges,
) -> Result<Option<Danger>, NoMemory>
    requires few { length (positions_of set.now) < 2 ^ 32 }
    requires out { AreAmong (positions_of set.now) (holds edges.now.out) }
    requires into { AreAmong (positions_of set.now) (holds edges.now.into) }
    ensures found { IfOk result (λ found. found ≡ danger_by (λ pos. pos) (has_edge set.now) (holds edges.now.out) (holds edges.now.into) exact (positions_of set.now)) }
    ensures few { IfOk result (λ found. IfSome found HasFewPath) }
{
    if !exact {
        return Ok(danger(set, edges));
    }
    match cycle(alloc, set, edges)? {
        None => Ok(None),
        Some(path) => Ok(Some(Danger::Cycle { path })),
    }
}

/// What is decided of a transaction by its edges, where nothing else aborts it: it commits unless it stands in a danger, with exact
/// isolation or without. The only refusal is out of memory.
pub fn judge_edges(
    alloc: Global,
    exact: bool,
    tables: &List<TableDef>,
    work: &BlockInWork,
    ran: &Ran,
) -> Result<Verdict, NoMemory>
    requires consistent { IsConsistent tables.now work.now }
    requires few { length work.now.outcomes.items < most_transactions }
    requires fits { RunFits tables.now ran.now }
    ensures outcome { IfOk result (λ verdict. outcome_of verdict
        ≡ or_committed (option_map outcome.Danger (danger exact tables.now work.now.committed.items ran.now.reads ran.now.writes))) }
    ensures verdict { IfOk result (λ verdict. IsVerdictOn tables.now work.now.committed.items ran.now verdict) }
{
    let edges = own_edges(tables, work, ran);
    match find_danger(alloc, exact, &work.edges, &edges)? {
        Some(found) => Ok(Verdict::Aborts(Outcome::of_danger(alloc, found)?)),
        None => Ok(Verdict::Commits(edges)),
    }
}
