//! The dangers for which a transaction is refused.

use rel_base::{List, NoMemory, Twin};
use std::alloc::Global;

/// Edges among transactions of one block for which a transaction is refused. The letters stand for positions in the block, and T
/// for the transaction that is refused.
#[derive(Drop)]
pub enum Danger {
    /// X has an edge to T, and T to Z, where Z does not stand after X. The two may be one transaction.
    One { z: u32, x: u32 },
    /// T has an edge to Y, and Y to Z, where Z stands before Y.
    Two { y: u32, z: u32 },
    /// With exact isolation: T has an edge to the first of the path, each to the next, and the last to T. It is a cycle that T would
    /// close, of the fewest transactions, and of such the one with the least positions.
    Cycle { path: List<u32> },
}

impl Twin for Danger {
    fn copy(&self, alloc: Global) -> Result<Self, NoMemory> {
        match self {
            Danger::One { z, x } => Ok(Danger::One { z: *z, x: *x }),
            Danger::Two { y, z } => Ok(Danger::Two { y: *y, z: *z }),
            Danger::Cycle { path } => Ok(Danger::Cycle {
                path: path.copy(alloc)?,
            }),
        }
    }
}
