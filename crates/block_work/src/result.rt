//! The result of a block that was decided.

ghost use Rattle.std.specs.Prelude.{◌≡◌, ◌≤◌, IfOk, List, length};
ghost use Rattle.block_work.specs.Block.{KeepsEdges, sealed_of};
ghost use Rattle.block_work.specs.Results.{IsWithinLimits, last_digest};
ghost use Rattle.node_model.specs.Fold.{block_result};
ghost use Rattle.rel_base.specs.declared.schema.TableDef.{TableDef};
ghost use Rattle.rw_graph.specs.Graph.{positions_of};
ghost use Rattle.proc_syntax.specs.Limits.{most_transactions};

use crate::block::BlockInWork;
use block_digest::{LentResult, digest_of_lent};
use node_model::{KeptResult, NO_DIGEST, Told};
use rel_base::{List, NoMemory, Twin};
use serial_order::order;
use std::alloc::Global;

/// The digest of the last of the blocks, or the one before the first.
pub fn last_digest(blocks: &List<KeptResult>) -> [u8; 32]
    ensures { result ≡ last_digest blocks.now }
{
    match blocks.last() {
        None => NO_DIGEST,
        Some(block) => *block.digest(),
    }
}

// Copies of outcomes. The block in work keeps its own until nothing can fail any more.
fn copy_outcomes(alloc: Global, outcomes: &[Told]) -> Result<List<Told>, NoMemory>
    ensures { IfOk result (λ copies. copies ≡ outcomes.now) }
{
    let mut copies = List::new(alloc);
    for told in outcomes {
        copies.push(told.copy(alloc)?)?;
    }
    Ok(copies)
}

/// The result of a block, all of whose transactions are decided, where the block before has a digest. Its writes are seen by contracts
/// alone: the store takes the writes themselves.
pub fn result_of(
    alloc: Global,
    previous: &[u8; 32],
    work: &BlockInWork,
) -> Result<KeptResult, NoMemory>
    requires limits { IsWithinLimits work.now.outcomes.items work.now.committed.items }
    requires few { length (positions_of work.now.edges) ≤ most_transactions }
    ensures { IfOk result (λ made. (tables : List TableDef) → KeepsEdges tables work.now.committed.items work.now.edges → made ≡ block_result tables previous.now (sealed_of work.now)) }
{
    let order = order(alloc, &work.edges)?;
    let lent = LentResult {
        number: work.number,
        time: work.time,
        outcomes: work.outcomes.as_slice(),
        order: order.as_slice(),
        committed: work.committed.as_slice(),
    };
    let digest = digest_of_lent(alloc, previous, &lent)?;
    let outcomes = copy_outcomes(alloc, work.outcomes.as_slice())?;
    Ok(KeptResult::new(
        work.number,
        work.time,
        outcomes,
        order,
        &work.committed,
        digest,
    ))
}
