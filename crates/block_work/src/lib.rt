//! What both kinds of node stand on: the chain of decided blocks, the ids that stand in it, and the block in work, whose transactions are
//! judged by their runs. `early_cause` gives the outcome that is known without a run, and `Chain::judge` that of a finished run, each as
//! the definition has it. Once `reserve` of `BlockInWork` took the room, `abort` and `commit` can not fail. `Chain::seal` adds the result
//! of the block, with its order and digest, to the chain and its writes to the store, or all is as before and the block comes back.
//!
//! Only tested: that calls succeed with memory enough.
#![tactic(auto)]

pub mod block;
pub mod causes;
pub mod chain;
pub mod early;
pub mod id_marks;
pub mod ids;
pub mod laws;
pub mod listing;
pub mod marked_ids;
pub mod result;
pub mod verdict;

pub use block::BlockInWork;
pub use chain::Chain;
pub use early::early_cause;
pub use ids::IdIndex;
pub use marked_ids::MarkedIds;
pub use verdict::Verdict;
