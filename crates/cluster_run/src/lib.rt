//! Nodes that run: the processor that folds blocks, executors that run jobs beside it, what arrives, and several nodes over the same
//! blocks. `run_cluster` gives as many nodes as there are lists of what arrives, whatever their threads do and however many can be started.
//! The results of each are the fold of the blocks, and its journal is a legal one that delivers exactly these and comes to the results
//! (`IsNodeOf`). What arrived by the k-th journal is of the k-th list, in its order (`AreFedBy`).
//!
//! Only tested: that a thread runs, and that what arrives is run before its block (`tests/check_journals.py`); that who sleeps is woken
//! (`tests/check_wakes.py`).
#![tactic(auto)]

pub mod bell;
pub mod cluster;
pub mod crew;
pub mod deciding;
pub mod executing;
pub mod forking;
pub mod gate;
pub mod node;
pub mod processing;
pub mod running_jobs;
pub mod shared_block;
pub mod threads;

pub use cluster::run_cluster;
pub use crew::Crew;
pub use gate::{Gate, NoGate, Point};
pub use node::run_node;
pub use shared_block::{SharedBlock, share_blocks};
