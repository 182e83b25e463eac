//! Write conflicts within a block.

ghost use Rattle.std.specs.Prelude.{◌≡◌, ◌&&◌, ◌==◌};
ghost use Rattle.std.specs.List.{list_any, position_from};
ghost use Rattle.std.specs.Option.{option_map};
ghost use Rattle.std.specs.Ordering.{eq_by_cmp};
ghost use Rattle.rel_base.specs.Tables.{ref_cmp, write_ref};
ghost use Rattle.node_model.specs.Decide.{clash, first_shared, is_shared};

use node_model::Committed;
use rel_base::{List, Write};

/// A write conflict: the position of the transaction that wrote the key first, and the place, from 0, of the write among
/// those that were asked about.
#[derive(Clone, Copy, PartialEq, Eq)]
pub struct ClashRef {
    pub with: u32,
    pub index: usize,
}

// Whether two writes are of one table and key.
fn is_same(write: &Write, other: &Write) -> bool
    ensures { result ≡ eq_by_cmp ref_cmp (write_ref write.now) (write_ref other.now) }
{
    write
        .table
        .cmp(&other.table)
        .then(write.key.cmp(&other.key))
        .is_eq()
}

fn is_shared(others: &[Write], write: &Write) -> bool
    ensures { result ≡ is_shared others.now write.now }
{
    for other in others {
        if is_same(write, other) {
            return true;
        }
    }
    false
}

/// The place, from 0, of the first of some writes that is of a table and key of others. Takes no memory.
pub fn first_shared(others: &[Write], writes: &[Write]) -> Option<usize>
    ensures { result ≡ first_shared others.now writes.now }
{
    for (index, write) in writes.iter().enumerate() {
        if is_shared(others, write) {
            return Some(index);
        }
    }
    None
}

/// The write conflict of writes with the transactions that committed earlier in their block: `None` exactly where none of
/// these wrote a table and key of the writes. Takes no memory.
pub fn first_conflict(committed: &[Committed], writes: &[Write]) -> Option<ClashRef>
    ensures { option_map (λ found. (found.with, found.index)) result ≡ clash committed.now writes.now }
{
    for done in committed {
        if let Some(index) = first_shared(done.writes.as_slice(), writes) {
            return Some(ClashRef {
                with: done.pos,
                index,
            });
        }
    }
    None
}

/// The same of lists.
pub fn write_conflict(committed: &List<Committed>, writes: &List<Write>) -> Option<ClashRef>
    ensures { option_map (λ found. (found.with, found.index)) result ≡ clash committed.now writes.now }
{
    first_conflict(committed.as_slice(), writes.as_slice())
}
