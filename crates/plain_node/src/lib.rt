//! A node on one thread: the fold of a chain of blocks. `PlainNode::process` takes a node that holds the fold of some blocks to one that
//! holds that of these and the next, with order and digest. After a call that ran out of memory it is as it was. The results have for each
//! block an order in which its committed transactions run again one by one (`replays`), and `close` gives the fold's blocks and tables, and
//! the store with the history that it had.
#![tactic(auto)]

pub mod ahead;
pub mod decide;
pub mod moment;
pub mod node;
pub mod process;

pub use node::PlainNode;
