//! What the node finds of ids and transactions.

ghost use Rattle.std.specs.Prelude.{◌≡◌, ◌||◌, cond, length};
ghost use Rattle.std.specs.Option.{is_some};
ghost use Rattle.block_work.specs.Ids.{place_of_id};
ghost use Rattle.node_core.specs.Kept.{up_to};
ghost use Rattle.node_core.specs.Known.{arrival, is_in_block};
ghost use Rattle.node_core.specs.Rows.{shown_all};

use crate::answers::Arrived;
use crate::delivered_block::DeliveredBlock;
use crate::jobs::Jobs;
use block_work::IdIndex;
use proc_check::Checked;
use proc_syntax::Tx;
use rel_base::Id;

/// The number of the block in which an id first stands, where that is not above a height.
pub fn settled_in(ids: &IdIndex, height: u64, id: &Id) -> Option<u64>
    ensures { result ≡ up_to height (place_of_id ids.now id.now) }
{
    match ids.find(id) {
        None => None,
        Some(place) => {
            if place.block <= height {
                Some(place.block)
            } else {
                None
            }
        }
    }
}

/// Whether an id stands in the block in work.
pub fn is_in_block(work: &Option<DeliveredBlock>, id: &Id) -> bool
    ensures { result ≡ is_in_block id.now work.now }
{
    match work {
        None => false,
        Some(working) => working.block.has_id(id),
    }
}

/// The answer to an arrival, where so many blocks are sealed.
pub fn arrival(
    app: &Checked,
    jobs: &Jobs,
    ids: &IdIndex,
    height: u64,
    work: &Option<DeliveredBlock>,
    tx: &Tx,
) -> Arrived
    ensures { result ≡ arrival app.now.app jobs.now ids.now height work.now tx.now }
{
    if app.call_fault(tx).is_some() {
        return Arrived::Invalid;
    }
    if jobs.find(tx).is_some()
        || (settled_in(ids, height, &tx.id).is_some() || is_in_block(work, &tx.id))
    {
        return Arrived::Known;
    }
    Arrived::Queued
}
