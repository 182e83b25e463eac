//! The writes of a block, as a store of committed versions has them.

ghost use Rattle.std.specs.Prelude.{◌≡◌, IfOk, drop};
ghost use Rattle.row_sets.specs.BlockWrites.{writes_from};

use crate::versions::Versions;
use rel_base::{List, NoMemory, Placed, Twin};
use std::alloc::Global;

/// The writes of a block that stand in a store from a number on, up to the first of another block, with their positions. Takes
/// memory for them alone.
pub fn block_from<V: Versions>(
    alloc: Global,
    versions: &V,
    from: usize,
    number: u64,
) -> Result<List<Placed>, NoMemory>
    ensures { IfOk result (λ writes. writes ≡ writes_from number (drop from (V.history versions.now))) }
{
    let mut writes = List::new(alloc);
    for at in from..versions.count() {
        let Some(write) = versions.write_at(at) else {
            return Ok(writes);
        };
        if write.block != number {
            return Ok(writes);
        }
        writes.push(write.placed.copy(alloc)?)?;
    }
    Ok(writes)
}
