//! Claims.

ghost use Rattle.std.specs.Prelude.{◌≡◌, IfOk, IsSome, Some};
ghost use Rattle.std.specs.Option.{option_copied, option_map};
ghost use Rattle.node_core.specs.Choosing.{due_in, waiting_in};
ghost use Rattle.node_core.specs.Kept.{shown_work};
ghost use Rattle.node_core.specs.Rows.{row_at};
ghost use Rattle.node_model.specs.World.{due};

use crate::delivered_block::DeliveredBlock;
use crate::held_job::HeldJob;
use crate::jobs::Jobs;
use crate::node::NodeCore;
use crate::room::make_room;
use block_work::{IdIndex, early_cause};
use node_model::{Entry, Event, Pick};
use proc_check::Checked;
use proc_run::Machine;
use proc_syntax::Tx;
use rel_base::NoMemory;
use row_sets::Versions;
use std::sync::Arc;

/// The first undecided transaction of a block in work.
pub fn due_tx(working: &DeliveredBlock) -> Option<&Tx>
    ensures { option_copied result ≡ due (shown_work working.now) }
{
    working.block.get().txs.get(working.done.outcomes.len())
}

// The number of a transaction's job, where that waits.
fn find_waiting(jobs: &Jobs, tx: &Tx) -> Option<u64>
    ensures { result ≡ waiting_in tx.now jobs.now }
{
    match jobs.find(tx) {
        None => None,
        Some(number) => {
            if jobs.waits(number) {
                Some(number)
            } else {
                None
            }
        }
    }
}

// The number of the job of the first undecided transaction of a block in work, where that has no cause that is known without a run and
// its job waits.
fn find_due(app: &Checked, ids: &IdIndex, work: &Option<DeliveredBlock>, jobs: &Jobs) -> Option<u64>
    ensures { result ≡ due_in app.now.app ids.now work.now jobs.now }
{
    match work {
        None => None,
        Some(working) => match due_tx(working) {
            None => None,
            Some(tx) => {
                let known = ids.find(&tx.id).is_some();
                if early_cause(app, known, working.done.number, tx).is_some() {
                    return None;
                }
                find_waiting(jobs, tx)
            }
        },
    }
}

// The transaction of a job, shared.
fn share_tx(jobs: &Jobs, number: u64) -> Result<Arc<Tx>, NoMemory>
    requires { IsSome (row_at jobs.now number) }
    ensures { IfOk result (λ tx. option_map (λ row. row.tx.value) (row_at jobs.now number) ≡ Some tx.value) }
{
    match jobs.get(number) {
        None => unreachable!(),
        Some(row) => {
            let tx = row.tx.clone()?;
            Ok(tx)
        }
    }
}

impl<V: Versions> NodeCore<V> {
    ghost use Rattle.std.specs.Prelude.{IfSome, OnErr};
    ghost use Rattle.node_core.specs.Answers.{claimed_as};
    ghost use Rattle.node_core.specs.Core.{IsHeld, MayAsk, Steps, world_of};
    ghost use Rattle.node_core.specs.Hands.{IsClaimed};
    ghost use Rattle.node_model.specs.Steps.{ToClaim, chosen};

    // The number of the job that is chosen. The node stays as it is, and only what is known of its jobs grows.
    fn choose(&mut self, pick: Pick) -> Option<u64>
        ensures chosen { result ≡ chosen self.old.app (world_of self.old) pick }
        ensures same { self.new ≡ self.old }
    {
        match pick {
            Pick::Nth(n) => self.jobs.find_nth(self.chain.height(), n),
            Pick::Due => find_due(&self.chain.app, &self.ids, &self.work, &self.jobs),
        }
    }

    /// An actor that holds no job takes one. A claim also takes the room for its release.
    pub fn claim(&mut self, actor: u32, pick: Pick) -> Result<Option<HeldJob>, NoMemory>
        requires free { MayAsk self.old actor (ToClaim pick) }
        ensures step { IfOk result (λ got. Steps self.old actor (ToClaim pick) (claimed_as got) self.new) }
        ensures held { IfOk result (λ got. IfSome got (IsHeld self.new)) }
        ensures fresh { IfOk result (λ got. IfSome got (IsClaimed actor)) }
        ensures err { OnErr result (self.new ≡ self.old) }
    {
        match self.choose(pick) {
            None => Ok(None),
            Some(job) => {
                make_room(&mut self.journal, 2, self.jobs.held())?;
                let tx = share_tx(&self.jobs, job)?;
                let time = self.chain.time_of(tx.height);
                let machine = Machine::start(self.alloc, &self.chain.app, &tx, time)?;
                let work = HeldJob::new(self.alloc, job, actor, tx, machine)?;
                self.jobs.hold(job, actor);
                self.journal.push_reserved(Entry {
                    actor,
                    event: Event::Claim { job },
                });
                Ok(Some(work))
            }
        }
    }
}
