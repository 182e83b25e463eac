//! What a node tells of its state.

ghost use Rattle.std.specs.Prelude.{◌≡◌, IfOk};
ghost use Rattle.std.specs.Option.{option_copied};
ghost use Rattle.proc_syntax.specs.Declaring.{tables_of};
ghost use Rattle.rel_base.specs.Among.{ReadFitsIn};

use crate::answers::Looked;
use crate::node::NodeCore;
use node_model::NodeResult;
use rel_base::{List, NoMemory, Read};
use row_sets::Versions;

impl<V: Versions> NodeCore<V> {
    ghost use Rattle.node_core.specs.Core.{results_in, world_of};
    ghost use Rattle.node_core.specs.Looking.{closed, looks, sealed_blocks};
    ghost use Rattle.node_model.specs.Journals.{IsLegal};
    ghost use Rattle.schedule_laws.specs.Scheduled.{IsOfFold};
    ghost use Rattle.serial_laws.specs.InOrder.{EachInOrder};

    /// The rows of a read in the tables after the block of a height, where that block is sealed.
    pub fn look(&self, height: u64, read: &Read) -> Result<Looked, NoMemory>
        requires fits { ReadFitsIn (tables_of self.now.app) read.now }
        ensures { IfOk result (λ looked. looked ≡ looks self.now height read.now) }
    {
        let sealed = self.chain.height();
        if height > sealed {
            return Ok(Looked::TooHigh { sealed });
        }
        let rows = self.chain.versions.visible(height, read)?;
        Ok(Looked::Rows(rows))
    }

    /// The results of the sealed blocks, the tables after the last of them, and the journal. Whatever the schedule was, the sealed blocks
    /// are the fold of the first that were delivered, and each tells an order in which its committed transactions run again one by one.
    pub fn close(self) -> Result<NodeResult, NoMemory>
        ensures closed { IfOk result (λ made. made ≡ closed self) }
        ensures legal { IsLegal self.app self.journal }
        ensures fold { IsOfFold self.app self.journal (world_of self) }
        ensures replays { EachInOrder self.app (sealed_blocks self) (results_in self) }
    {
        let journal = List::from_vec(self.journal);
        let (result, _) = self.chain.close(journal)?;
        Ok(result)
    }
}
