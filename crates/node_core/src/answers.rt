//! What a node answers.

use rel_base::{List, Place, Seen};

/// The answer to an arrival.
#[derive(Clone, Copy, PartialEq, Eq)]
pub enum Arrived {
    /// The transaction waits as a new job.
    Queued,
    /// It has a job, or its id stands in a sealed block or in the block in work.
    Known,
    /// Its call can not begin.
    Invalid,
}

/// How far a held job is.
#[derive(Clone, Copy, PartialEq, Eq)]
pub enum Next {
    /// It wants a read.
    Wants,
    /// Its run has ended or was cut.
    Ready,
    /// Its last read was answered with `Gone`.
    Gone,
}

/// The answer to a read.
#[derive(Clone, Copy, PartialEq, Eq)]
pub enum Got {
    /// The job has its rows.
    Rows,
    /// A write that was committed since the height of the transaction hits the read. The run is cut.
    Doomed { place: Place },
    /// The id of the transaction is settled, in the block of that number.
    Gone { number: u64 },
}

/// The answer to the end of a run.
#[derive(Clone, Copy, PartialEq, Eq)]
pub enum Finished {
    /// The job is done.
    Kept,
    /// The id of its transaction is settled, in the block of that number, and the job is dropped.
    Gone { number: u64 },
}

/// The answer to a delivery.
#[derive(Clone, Copy, PartialEq, Eq)]
pub enum Delivered {
    /// The block is in work.
    Taken,
    /// The block of that number is in work.
    InWork { number: u64 },
    /// The block has another number than the next.
    NotNext { expected: u64 },
}

/// The answer to a commit.
#[derive(Clone, Copy, PartialEq, Eq)]
pub enum Decided {
    /// The transaction at this position is decided.
    Outcome { pos: u32 },
    /// The transaction at this position waits for its job, which this actor holds, or which no actor holds.
    NotReady { pos: u32, holder: Option<u32> },
    /// All transactions of the block of this number are decided.
    AllDecided { number: u64 },
    /// No block is in work, after so many that are sealed.
    NoBlock { sealed: u64 },
}

/// The answer to a seal.
#[derive(Clone, Copy, PartialEq, Eq)]
pub enum Sealed {
    /// The block of this number is sealed, with this digest.
    Digest { number: u64, digest: [u8; 32] },
    /// The transaction at this position is the first that is not decided.
    NotAll { pos: u32 },
    /// No block is in work, after so many that are sealed.
    NoBlock { sealed: u64 },
}

/// The answer to a read of the tables after the block of a height.
#[derive(Drop)]
pub enum Looked {
    /// Its rows.
    Rows(List<Seen>),
    /// So many blocks are sealed, and not as many as that.
    TooHigh { sealed: u64 },
}
