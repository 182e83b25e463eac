//! What the chain of blocks means: the outcome of each transaction, and the fold of the blocks to their results. Definitions: that fold,
//! the node as a transition system, edges, dangers and the serial order, the code and the digest of a block's result. The code has the
//! types of outcomes, results and journals, and the words and bytes of kinds of outcomes. What a node keeps of a block (`KeptResult`) is
//! its result, whose writes contracts alone see.
#![tactic(auto)]

pub mod danger;
pub mod journal;
pub mod kind;
pub mod outcome;
pub mod result;
pub mod version;

pub use danger::Danger;
pub use journal::{Entry, Event, Pick};
pub use kind::{OutcomeKind, fault_mark};
pub use outcome::{Clash, Late, Outcome};
pub use result::{BlockResult, Committed, KeptResult, NO_DIGEST, NodeResult, TableRows, Told};
pub use version::Version;
