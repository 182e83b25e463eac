//! The steps of a schedule.

use node_model::Pick;
use rel_base::List;

/// What happens next in a node. The actors that claim jobs have the numbers from 1 to 16; what comes from outside is delivered,
/// decided and sealed by the processor.
#[derive(Clone, Copy, PartialEq, Eq)]
pub enum Step {
    /// The arrival of this number, from 1, comes.
    Arrive(u64),
    /// The actor claims a job.
    Claim { actor: u32, pick: Pick },
    /// The run of the actor's job makes its next read.
    Read(u32),
    /// The run of the actor's job is at its end.
    Finish(u32),
    /// The actor gives its job up.
    Release(u32),
    /// The next block of the chain comes.
    Deliver,
    /// The first undecided transaction of the block in work is decided.
    Commit,
    /// The block in work is sealed.
    Seal,
}

/// Steps in the order in which they are made.
#[derive(Drop)]
pub struct Schedule {
    pub steps: List<Step>,
}
