//! Arrivals.

ghost use Rattle.std.specs.Prelude.{◌≡◌, IfOk};

use crate::answers::Arrived;
use crate::known::arrival;
use crate::node::NodeCore;
use crate::room::make_room;
use node_model::{Entry, Event};
use proc_syntax::Tx;
use rel_base::{NoMemory, Twin};
use row_sets::Versions;
use std::alloc::Global;
use std::sync::Arc;

/// A copy of a transaction, in memory of its own.
pub fn share_tx(alloc: Global, tx: &Tx) -> Result<Arc<Tx>, NoMemory>
    ensures { IfOk result (λ shared. shared.value ≡ tx.now) }
{
    let shared = Arc::new(alloc, tx.copy(alloc)?)?;
    Ok(shared)
}

impl<V: Versions> NodeCore<V> {
    ghost use Rattle.std.specs.Prelude.{OnErr};
    ghost use Rattle.node_core.specs.Answers.{arrived_as};
    ghost use Rattle.node_core.specs.Core.{Arrives};

    /// A transaction comes before its block. Where its call can begin, and it is not known, it waits as a new job.
    pub fn arrive(&mut self, actor: u32, tx: &Tx) -> Result<Arrived, NoMemory>
        ensures step { IfOk result (λ got. Arrives self.old actor tx.now (arrived_as got) self.new) }
        ensures err { OnErr result (self.new ≡ self.old) }
    {
        let shared = share_tx(self.alloc, tx)?;
        self.arrive_shared(actor, &shared)
    }

    /// The same of a transaction in memory of its own, which the node shares where it waits as a new job. No copy is made.
    pub fn arrive_shared(&mut self, actor: u32, tx: &Arc<Tx>) -> Result<Arrived, NoMemory>
        ensures step { IfOk result (λ got. Arrives self.old actor tx.now.value (arrived_as got) self.new) }
        ensures err { OnErr result (self.new ≡ self.old) }
    {
        let height = self.chain.height();
        match arrival(
            &self.chain.app,
            &self.jobs,
            &self.ids,
            height,
            &self.work,
            tx,
        ) {
            Arrived::Queued => {
                make_room(&mut self.journal, 1, self.jobs.held())?;
                let shared = tx.clone()?;
                let noted = tx.clone()?;
                let job = self.jobs.len() + 1;
                self.jobs.add(shared)?;
                self.journal.push_reserved(Entry {
                    actor,
                    event: Event::Arrive { job, tx: noted },
                });
                Ok(Arrived::Queued)
            }
            other => Ok(other),
        }
    }
}
