//! Positions that are not placed yet.

/// A position that is not placed yet, and how many edges come to it from such positions.
#[derive(Clone, Copy)]
pub struct Left {
    pub pos: u32,
    pub predecessors: usize,
}
