//! The ordering service.

ghost use Rattle.std.specs.Prelude.{◌≡◌, ◌≤◌, ◌<◌, ◌+◌, ◌*◌, All, IfOk, length, map};
ghost use Rattle.std.specs.Int.{div_ceil};
ghost use Rattle.std.specs.List.{sum_by};
ghost use Rattle.chain_file.specs.Numbered.{HaveNoTimes, NumberedFrom};
ghost use Rattle.order_queue.specs.Blocks.{FilledBy, joined};
ghost use Rattle.order_queue.specs.Merge.{IsMerge};
ghost use Rattle.order_queue.specs.Orders.{IsSubmission, IsOrdered};
ghost use Rattle.proc_syntax.specs.Limits.{most_blocks, most_clients, most_submitted, most_transactions};

use crate::dealing::deal;
use crate::drafting::draft;
use crate::pace::Pace;
use crate::remaining::Remaining;
use crate::threads::collect;
use proc_syntax::{Block, Tx};
use rel_base::{List, NoMemory};
use std::alloc::Global;
use std::sync::Wait;
use std::thread::Threads;

/// The blocks of an order, and for each transaction over all blocks the number of the client that submitted it, from 1.
#[derive(Drop)]
pub struct Ordered {
    pub blocks: List<Block>,
    pub from: List<u32>,
}

/// How many blocks so many transactions need, `most` in each: the total divided by `most`, rounded up.
pub fn blocks_needed(total: u64, most: u32) -> u64
    requires some { 1 ≤ most }
    ensures number { result ≡ div_ceil total most }
    ensures enough { total ≤ result * most }
    ensures fewest { result * most < total + most }
{
    total.div_ceil(u64::from(most))
}

/// How many transactions the clients have together.
pub fn total_of(clients: &[List<Tx>]) -> u64
    requires clients { length clients.now ≤ most_clients }
    requires few { All (λ txs. length txs ≤ most_submitted) clients.now }
    ensures sum { result ≡ sum_by length clients.now }
{
    let mut total = 0u64;
    for client in clients {
        total += client.len() as u64;
    }
    total
}

// How many transactions each client has.
fn counts_of(alloc: Global, clients: &[List<Tx>]) -> Result<Vec<u32>, NoMemory>
    requires few { All (λ txs. length txs ≤ most_submitted) clients.now }
    ensures counts { IfOk result (λ counts. counts.items ≡ map length clients.now) }
{
    let mut counts = Vec::with_capacity(alloc, clients.len())?;
    for client in clients {
        counts.push(client.len() as u32)?;
    }
    Ok(counts)
}

/// Lets all clients submit their transactions at once, each in a thread of its own, and puts these into blocks of `most`. In which order
/// those of different clients come depends on the threads; those of one client stay in its order. It fails only where memory runs out,
/// and takes all memory but that of the blocks before the first thread starts.
pub fn order_all<R: Threads + Wait + Sync, P: Pace>(
    rt: &R,
    alloc: Global,
    clients: List<List<Tx>>,
    most: u32,
    pace: &P,
) -> Result<Ordered, NoMemory>
    requires clients { (1 ≤ length clients) × (length clients ≤ most_clients) }
    requires few { All (λ txs. length txs ≤ most_submitted) clients }
    requires most { (1 ≤ most) × (most ≤ most_transactions) }
    requires blocks { div_ceil (sum_by length clients) most ≤ most_blocks }
    ensures merge { IfOk result (λ ordered. IsMerge clients ordered.from (joined ordered.blocks)) }
    ensures numbered { IfOk result (λ ordered. NumberedFrom 1 ordered.blocks) }
    ensures times { IfOk result (λ ordered. HaveNoTimes ordered.blocks) }
    ensures filled { IfOk result (λ ordered. FilledBy most ordered.blocks) }
    ensures count { IfOk result (λ ordered. length ordered.blocks ≡ div_ceil (sum_by length clients) most) }
{
    let counts = counts_of(alloc, clients.as_slice())?;
    let remaining = Remaining::new(alloc, clients)?;
    let from = collect(rt, alloc, counts.as_slice(), pace)?;
    let blocks = deal(alloc, remaining, from.as_slice(), most)?;
    Ok(Ordered {
        blocks,
        from: List::from_vec(from),
    })
}

/// The draft file of what the clients submit at once, in blocks of `most`. It fails only where memory runs out.
pub fn ordered_draft<R: Threads + Wait + Sync, P: Pace>(
    rt: &R,
    alloc: Global,
    clients: List<List<Tx>>,
    most: u32,
    pace: &P,
) -> Result<List<u8>, NoMemory>
    requires clients { (1 ≤ length clients) × (length clients ≤ most_clients) }
    requires submissions { All IsSubmission clients }
    requires most { (1 ≤ most) × (most ≤ most_transactions) }
    requires blocks { div_ceil (sum_by length clients) most ≤ most_blocks }
    ensures ordered { IfOk result (λ bytes. IsOrdered clients most bytes) }
{
    let ordered = order_all(rt, alloc, clients, most, pace)?;
    let text = draft(alloc, &ordered.blocks)?;
    Ok(text)
}
