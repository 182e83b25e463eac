//! The journal of a node: the changes of its state, in order, and who made each.

use proc_syntax::{Block, Tx};
use std::sync::Arc;

/// A change of a node's state. An entry of the journal shares its transaction or block with the node, and copies none.
#[derive(Drop)]
pub enum Event {
    /// A transaction came before its block, and got the job of that number.
    Arrive { job: u64, tx: Arc<Tx> },
    /// A job that waited is held by the actor, with nothing read yet.
    Claim { job: u64 },
    /// The run of a held job made its next read.
    Read { job: u64 },
    /// The run of a held job is at its end, and the job is done, or dropped where its id is settled.
    Finish { job: u64 },
    /// A held job is given up: it waits again with nothing read, or is dropped where its id is settled.
    Release { job: u64 },
    /// The next block of the chain came, and is the block in work.
    Deliver { block: Arc<Block> },
    /// The transaction at a position of the block in work was decided.
    Commit { pos: u32 },
    /// The block in work, all of which was decided, joined the sealed ones.
    Seal { number: u64 },
}

/// A change and the number of the actor that made it. Actor 0 is the processor, which alone delivers, commits and seals.
#[derive(Drop)]
pub struct Entry {
    pub actor: u32,
    pub event: Event,
}

/// Which job an actor asks for.
#[derive(Clone, Copy, PartialEq, Eq)]
pub enum Pick {
    /// Of the jobs that wait and whose height is sealed, in order of number, the one at this place modulo their count, from 0.
    Nth(u64),
    /// The job of the first undecided position of the block in work, where that transaction is valid and its job waits.
    Due,
}
