//! Looks at what held jobs read.

ghost use Rattle.std.specs.Prelude.{Some};
ghost use Rattle.cluster_run.specs.Standing.{Stands};
ghost use Rattle.turn_lock.specs.Passes.{HoldsNoTurn, IsSamePass};

use node_core::{HeldJob, Looked};
use node_shared::{NodePass, SharedNode};
use rel_base::NoMemory;
use row_sets::Versions;
use std::sync::Wait;

/// Runs a held job to the next read that it wants: the rows of that read in the tables after the block of a height.
pub fn look_ahead<V: Versions, R: Wait>(
    rt: &R,
    node: &SharedNode<V>,
    pass: &mut NodePass<V>,
    height: u64,
    work: &mut HeldJob,
) -> Result<Option<Looked>, NoMemory>
    requires stands { Stands node.now.lock pass.old (Some work.old) }
    ensures same { IsSamePass pass.old pass.new }
    ensures no_turn { HoldsNoTurn pass.new }
{
    work.advance()?;
    match work.wanted() {
        None => Ok(None),
        Some(read) => {
            let looked = node.look(rt, pass, height, read)?;
            Ok(Some(looked))
        }
    }
}
