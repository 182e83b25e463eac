//! The blocks of a chain are processed one after another.

ghost use Rattle.std.specs.Prelude.{◌≡◌, ◌+◌, ◌++◌, ◌∷◌, None, OnOk, [], length};
ghost use Rattle.cluster_run.specs.Standing.{AllDecided, Comes, Stands, delivered_by, in_work};
ghost use Rattle.serial_laws.specs.Chained.{AreNumbered};
ghost use Rattle.turn_lock.specs.Passes.{pass_number};

use crate::crew::Crew;
use crate::deciding::decide_all;
use crate::gate::Gate;
use crate::shared_block::SharedBlock;
use node_core::{Delivered, Sealed};
use node_shared::{NodePass, SharedNode};
use rel_base::NoMemory;
use row_sets::Versions;
use std::sync::Wait;

// The next block comes into work.
fn deliver_block<V: Versions, G: Gate, R: Wait>(
    rt: &R,
    node: &SharedNode<V>,
    crew: &Crew<'_, G>,
    pass: &mut NodePass<V>,
    block: &SharedBlock,
) -> Result<Delivered, NoMemory>
    requires stands { Stands node.now.lock pass.old None }
    requires processor { pass_number pass.old ≡ 0 }
    requires rests { in_work pass.old ≡ [] }
    requires next { block.now.number ≡ length (delivered_by pass.old) + 1 }
    ensures comes { Comes pass.old pass.new None }
    ensures delivers { OnOk result (delivered_by pass.new ≡ delivered_by pass.old ++ block.now ∷ []) }
{
    let shared = block.whole();
    crew.come_to_block(rt, shared.number);
    let txs = block.txs()?;
    let delivered = node.deliver_shared(rt, pass, shared, txs.as_slice());
    crew.bell.ring();
    delivered
}

// The block in work, of which nothing is undecided, is sealed.
fn seal_block<V: Versions, G: Gate, R: Wait>(
    rt: &R,
    node: &SharedNode<V>,
    crew: &Crew<'_, G>,
    pass: &mut NodePass<V>,
) -> Result<Sealed, NoMemory>
    requires stands { Stands node.now.lock pass.old None }
    requires processor { pass_number pass.old ≡ 0 }
    requires all { AllDecided pass.old }
    ensures comes { Comes pass.old pass.new None }
    ensures delivers { OnOk result (delivered_by pass.new ≡ delivered_by pass.old) }
    ensures rests { OnOk result (in_work pass.new ≡ []) }
{
    let sealed = node.seal(rt, pass);
    crew.bell.ring();
    sealed
}

/// Delivers the next block, decides its transactions in order, and seals it.
pub fn process_block<V: Versions, G: Gate, R: Wait>(
    rt: &R,
    node: &SharedNode<V>,
    crew: &Crew<'_, G>,
    pass: &mut NodePass<V>,
    block: &SharedBlock,
) -> Result<(), NoMemory>
    requires stands { Stands node.now.lock pass.old None }
    requires processor { pass_number pass.old ≡ 0 }
    requires rests { in_work pass.old ≡ [] }
    requires next { block.now.number ≡ length (delivered_by pass.old) + 1 }
    ensures comes { Comes pass.old pass.new None }
    ensures delivers { OnOk result (delivered_by pass.new ≡ delivered_by pass.old ++ block.now ∷ []) }
    ensures rests { OnOk result (in_work pass.new ≡ []) }
{
    deliver_block(rt, node, crew, pass, block)?;
    decide_all(rt, node, crew, pass)?;
    seal_block(rt, node, crew, pass)?;
    Ok(())
}

/// Processes blocks whose numbers go on from the blocks that were delivered, each to its seal.
pub fn process_all<V: Versions, G: Gate, R: Wait>(
    rt: &R,
    node: &SharedNode<V>,
    crew: &Crew<'_, G>,
    pass: &mut NodePass<V>,
    blocks: &[SharedBlock],
) -> Result<(), NoMemory>
    requires stands { Stands node.now.lock pass.old None }
    requires processor { pass_number pass.old ≡ 0 }
    requires rests { in_work pass.old ≡ [] }
    requires numbered { AreNumbered (length (delivered_by pass.old) + 1) blocks.now }
    ensures comes { Comes pass.old pass.new None }
    ensures delivers { OnOk result (delivered_by pass.new ≡ delivered_by pass.old ++ blocks.now) }
    ensures rests { OnOk result (in_work pass.new ≡ []) }
{
    for block in blocks {
        process_block(rt, node, crew, pass, block)?;
    }
    Ok(())
}
