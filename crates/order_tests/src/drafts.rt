//! Drafts of client files.

ghost use Rattle.std.specs.Prelude.{◌≡◌, ◌≤◌, All, IfOk, length};
ghost use Rattle.order_queue.specs.Orders.{IsSubmission};
ghost use Rattle.proc_syntax.specs.Limits.{most_transactions};

use order_queue::{Pace, blocks_needed, ordered_draft, total_of};
use proc_syntax::Tx;
use rel_base::List;
use std::alloc::Global;
use std::sync::Wait;
use std::test::Fail;
use std::thread::Threads;
use tx_text::read_arrivals;

// The transactions of a client file.
#[tactic(auto, using(order_queue::proofs::Submitted::files_are_submissions))]
fn client_of(alloc: Global, file: &[u8]) -> Result<List<Tx>, Fail>
    ensures submission { IfOk result (λ txs. IsSubmission txs) }
{
    let mut pieces = List::new(alloc);
    pieces.push(List::from_vec(Vec::from_slice(alloc, file)?))?;
    match read_arrivals(alloc, pieces.as_slice()) {
        Ok(txs) => Ok(txs),
        Err(_) => Err("a client file with a fault".into()),
    }
}

// Those of all clients.
fn clients_of(alloc: Global, files: &[List<u8>]) -> Result<List<List<Tx>>, Fail>
    ensures count { IfOk result (λ clients. length clients ≡ length files.now) }
    ensures submissions { IfOk result (λ clients. All IsSubmission clients) }
{
    let mut clients = Vec::new(alloc);
    for file in files {
        let client = client_of(alloc, file.as_slice())?;
        clients.push(client)?;
    }
    Ok(List::from_vec(clients))
}

/// The draft of what the clients of these files submit, in blocks of `most`.
#[tactic(auto, using(order_queue::proofs::Merged::few_submitted))]
pub fn draft_of<R: Threads + Wait + Sync, P: Pace>(
    rt: &R,
    alloc: Global,
    files: &List<List<u8>>,
    most: u32,
    pace: &P,
) -> Result<List<u8>, Fail>
    requires most { (1 ≤ most) × (most ≤ most_transactions) }
{
    if files.is_empty() || files.len() > 8 {
        return Err("too few clients or too many".into());
    }
    let clients = clients_of(alloc, files.as_slice())?;
    if blocks_needed(total_of(clients.as_slice()), most) > 1_000_000 {
        return Err("too many blocks".into());
    }
    Ok(ordered_draft(rt, alloc, clients, most, pace)?)
}
