// The clients' transactions in a given order of clients, in blocks.
ghost use Rattle.std.specs.Prelude.{◌≡◌, ℕ, ◌==◌, ◌+◌, ◌<◌, ◌≤◌, [], length, slice_index_or, All, IfOk};
ghost use Rattle.std.specs.List.{count_by, sum_by};
ghost use Rattle.chain_file.specs.Numbered.{HaveNoTimes, NumberedFrom};
ghost use Rattle.order_queue.specs.Blocks.{FilledBy, joined};
ghost use Rattle.order_queue.specs.Merge.{IsMerge};
ghost use Rattle.proc_syntax.specs.Limits.{most_transactions};

use crate::bins::Filling;
use crate::remaining::Remaining;
use proc_syntax::Block;
use rel_base::{List, NoMemory};
use std::alloc::Global;

/// The blocks of the clients' transactions, where `from` says which client is next.
pub fn deal(
    alloc: Global,
    mut remaining: Remaining,
    from: &[u32],
    most: u32,
) -> Result<List<Block>, NoMemory>
    requires most { (1 ≤ most) × (most ≤ most_transactions) }
    requires counts { (k : ℕ) → k < length remaining → count_by (λ client. client == k + 1) from.now ≡ length (slice_index_or remaining k []) }
    requires clients { All (λ client. (1 ≤ client) × (client ≤ length remaining)) from.now }
    ensures merge { IfOk result (λ blocks. IsMerge remaining from.now (joined blocks)) }
    ensures all { IfOk result (λ blocks. length (joined blocks) ≡ sum_by length remaining) }
    ensures numbered { IfOk result (λ blocks. NumberedFrom 1 blocks) }
    ensures times { IfOk result HaveNoTimes }
    ensures filled { IfOk result (λ blocks. FilledBy most blocks) }
{
    let mut filling = Filling::new(alloc);
    for client in from {
        let tx = remaining.next_of(*client);
        filling.add(alloc, tx, most)?;
    }
    let blocks = filling.finish(alloc, most)?;
    Ok(blocks)
}
