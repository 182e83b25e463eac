//! The items of a block's code, read one after another.

ghost use Rattle.std.specs.Prelude.{ℕ};
ghost use Rattle.canon_code.specs.Parts.{items_at};
ghost use Rattle.canon_code.specs.Reads.{Reads};
ghost use Rattle.block_digest.specs.Joined.{Reading};

use canon_code::CodeFault;
use rel_base::List;
use std::alloc::Global;

/// An item of a block's code. How many transactions the block has may say how it is read.
pub trait Item: Sized + Drop {
    ghost item_at: { ℕ → Reading Self };

    /// Reads the item whose code stands at the start of the bytes, and answers what follows it too.
    fn read<'a>(alloc: Global, count: usize, bytes: &'a [u8]) -> Result<(Self, &'a [u8]), CodeFault>
        ensures { Reads result (item_at count bytes.now) };
}

/// Reads so many items of a block of so many transactions. The number of items may be any, so each takes its memory as it is read.
#[tactic(auto, using(canon_code::proofs::Loop::items_step, canon_code::proofs::Loop::items_stop, canon_code::proofs::Loop::items_done))]
pub fn read_items<'a, T: Item>(
    alloc: Global,
    count: usize,
    times: u32,
    bytes: &'a [u8],
) -> Result<(List<T>, &'a [u8]), CodeFault>
    ensures { Reads result (items_at (T.item_at count) times bytes.now) }
{
    let mut items = List::new(alloc);
    let mut rest = bytes;
    for _ in 0..times {
        let (item, after) = T::read(alloc, count, rest)?;
        items.push(item)?;
        rest = after;
    }
    Ok((items, rest))
}
