//! What a proof is.

use rel_base::List;

/// A proof that a write stands among the writes of a block.
#[derive(Drop)]
pub struct Proof {
    /// The number of the writes.
    pub count: u32,
    /// The index of the write, from 1.
    pub index: u32,
    /// The sibling hashes beside the way from the write's leaf to the root, the one beside the leaf first.
    pub path: List<[u8; 32]>,
}
