//! The outcome of an id.

ghost use Rattle.std.specs.Prelude.{◌≡◌};
ghost use Rattle.std.specs.Option.{option_copied};
ghost use Rattle.node_core.specs.Finding.{item_at, outcome_by, told_at};

use crate::delivered_block::DeliveredBlock;
use crate::node::NodeCore;
use block_work::IdIndex;
use node_model::{KeptResult, Outcome, Told};
use rel_base::{Id, Place};
use row_sets::Versions;

// The item at a position, counted from 1.
fn item_at<T>(items: &[T], position: u64) -> Option<&T>
    ensures { option_copied result ≡ item_at items.now position }
{
    match position.checked_sub(1) {
        None => None,
        Some(place) => items.get(place as usize),
    }
}

// What is reported at a place of a sealed block, or else of the block in work.
fn told_at<'a>(
    blocks: &'a [KeptResult],
    work: &'a Option<DeliveredBlock>,
    place: Place,
) -> Option<&'a Told>
    ensures { option_copied result ≡ told_at blocks.now work.now place }
{
    match item_at(blocks, place.block) {
        Some(block) => item_at(block.outcomes().as_slice(), place.pos as u64),
        None => match work {
            None => None,
            Some(working) => item_at(working.done.outcomes.as_slice(), place.pos as u64),
        },
    }
}

// The outcome at the place that the index has for an id.
fn find_outcome<'a>(
    ids: &IdIndex,
    blocks: &'a [KeptResult],
    work: &'a Option<DeliveredBlock>,
    id: &Id,
) -> Option<&'a Outcome>
    ensures { option_copied result ≡ outcome_by ids.now blocks.now work.now id.now }
{
    let place = ids.find(id)?;
    let told = told_at(blocks, work, place)?;
    Some(&told.outcome)
}

impl<V: Versions> NodeCore<V> {
    ghost use Rattle.node_core.specs.Core.{world_of};
    ghost use Rattle.node_core.specs.Looking.{first_outcome, told_of};

    /// What became of the first decided transaction with an id, in a sealed block or in the block in work. Takes no memory.
    pub fn outcome(&self, id: &Id) -> Option<&Outcome>
        ensures { option_copied result ≡ first_outcome id.now (told_of (world_of self.now)) }
    {
        find_outcome(&self.ids, self.chain.blocks.as_slice(), &self.work, id)
    }
}
