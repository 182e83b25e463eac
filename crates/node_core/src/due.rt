//! How the first undecided transaction of the block in work stands.

ghost use Rattle.std.specs.Prelude.{◌≡◌};
ghost use Rattle.node_core.specs.Due.{AbortsSo, by_job, due_by};

use crate::claiming::due_tx;
use crate::delivered_block::DeliveredBlock;
use crate::jobs::{Jobs, Stage};
use block_work::{IdIndex, early_cause};
use node_model::Outcome;
use proc_check::Checked;
use proc_syntax::Tx;

/// How the first undecided transaction of the block in work stands.
#[derive(Drop)]
pub enum Due {
    /// There is none: all are decided.
    Nothing,
    /// It is aborted for a cause that is known without a run.
    Early(Outcome),
    /// Its job is not done; the actor that holds that job, if any.
    Waits(Option<u32>),
    /// Its job, of this number, is done.
    Done(u64),
}

// By the job of a transaction.
fn by_job(jobs: &Jobs, tx: &Tx) -> Due
    ensures due { result ≡ by_job tx.now jobs.now }
    ensures aborts { AbortsSo result }
{
    match jobs.find(tx) {
        None => Due::Waits(None),
        Some(number) => match jobs.get(number) {
            None => Due::Waits(None),
            Some(row) => match &row.stage {
                Stage::Held(actor) => Due::Waits(Some(*actor)),
                Stage::Done(_) => Due::Done(number),
                Stage::Waiting | Stage::Taken | Stage::Dropped => Due::Waits(None),
            },
        },
    }
}

/// How the first undecided transaction of a block in work stands.
pub fn due_by(app: &Checked, ids: &IdIndex, working: &DeliveredBlock, jobs: &Jobs) -> Due
    ensures due { result ≡ due_by app.now.app ids.now working.now jobs.now }
    ensures aborts { AbortsSo result }
{
    match due_tx(working) {
        None => Due::Nothing,
        Some(tx) => {
            let known = ids.find(&tx.id).is_some();
            match early_cause(app, known, working.done.number, tx) {
                Some(cause) => Due::Early(cause),
                None => by_job(jobs, tx),
            }
        }
    }
}
