//! The node as a value: jobs that run before their block is known, and blocks whose transactions are decided in order. Each call that
//! changes a `NodeCore` is the step of the transition system in the state that its journal comes to (`step`), and one that ran out of
//! memory leaves it as before (`err`). The journal is always one that steps can make, and the reads of a claimed job, a `HeldJob`, are
//! those of its run. After a seal, as at the close, the results have for each block an order in which its committed transactions run again
//! one by one (`replays`).
//!
//! Only tested: that calls succeed with memory enough.
#![tactic(auto)]

pub mod answers;
pub mod arriving;
pub mod bounds;
pub mod claiming;
pub mod committing;
pub mod delivered_block;
pub mod delivering;
pub mod dropping;
pub mod due;
pub mod held_job;
pub mod held_job_steps;
pub mod index;
pub mod job_in_hand;
pub mod job_rows;
pub mod jobs;
pub mod kept_record;
pub mod known;
pub mod looking;
pub mod lookup;
pub mod node;
pub mod outcome;
pub mod room;
pub mod sealing;

pub use answers::{Arrived, Decided, Delivered, Finished, Got, Looked, Next, Sealed};
pub use arriving::share_tx;
pub use delivering::{share_block, share_txs};
pub use held_job::HeldJob;
pub use node::NodeCore;
