// Full blocks, and an open one.
use proc_syntax::{Block, Tx};
use rel_base::List;

/// Blocks that are full, and the transactions of the next one so far.
#[derive(Drop)]
pub struct Filling {
    pub(crate) full: Vec<Block>,
    pub(crate) next: List<Tx>,
}
