//! Late reads: rows that were overtaken since the snapshot.

use row_sets::HitRef;

/// The first read of a run that was overtaken, and the least write that hits it.
#[derive(Clone, Copy)]
pub struct LateRef<'a> {
    /// The number of the read in its run, from 1.
    pub read: u32,
    /// The table of the read and of the write.
    pub table: u32,
    pub hit: HitRef<'a>,
}
