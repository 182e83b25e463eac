//! Orders: what clients submit at once, put into blocks.

ghost use Rattle.std.specs.Prelude.{◌≡◌, ◌≤◌, All, IfOk, IfSome, IsErrOf, Ok, length, true};
ghost use Rattle.bcdb.specs.ArrivalFiles.{all_arrived};
ghost use Rattle.bcdb.specs.Plan.{AllowsPlan, Counted, RoseAt, RoseIn, arrivals_plan};
ghost use Rattle.bcdb.specs.Reply.{is_answer};
ghost use Rattle.bcdb.specs.Traced.{RepliesOrder};
ghost use Rattle.order_queue.specs.Orders.{IsSubmission};
ghost use Rattle.proc_syntax.specs.Limits.{most_clients, most_transactions};

use crate::fault::FilesFault;
use crate::node_arrivals::read_all_arrivals;
use crate::refusal::BadArrivals;
use crate::reply::{Reply, refuse_arrivals, refuse_order};
use crate::status::Status;
use cli_words::Word;
use edge_traits::Shelf;
use order_queue::{NoPace, blocks_needed, ordered_draft, total_of};
use proc_syntax::Tx;
use rel_base::{List, NoMemory};
use std::alloc::Global;
use std::sync::Wait;
use std::thread::Threads;

/// The greatest number of blocks of an order.
pub const MOST_BLOCKS: u64 = 1000000;

// The reply to what the clients submit: their draft, unless it needs too many blocks.
#[tactic(auto, using(order_queue::proofs::Merged::few_submitted, crate::proofs::Drafts::replies_draft, crate::proofs::Drafts::replies_refused))]
fn order_clients<R: Threads + Wait + Sync>(
    rt: &R,
    alloc: Global,
    clients: List<List<Tx>>,
    most: u32,
) -> Result<Reply, NoMemory>
    requires clients { (1 ≤ length clients) × (length clients ≤ most_clients) }
    requires submissions { All IsSubmission clients }
    requires most { (1 ≤ most) × (most ≤ most_transactions) }
    ensures replies { IfOk result (RepliesOrder most (Ok clients)) }
    ensures kind { IfOk result (λ reply. is_answer reply.status ≡ true) }
{
    let needed = blocks_needed(total_of(clients.as_slice()), most);
    if needed > MOST_BLOCKS {
        drop(clients);
        return refuse_order(alloc, needed);
    }
    let bytes = ordered_draft(rt, alloc, clients, most, &NoPace)?;
    Ok(Reply {
        status: Status::Done,
        bytes,
    })
}

// The reply to what the client files came to.
fn answer_clients<R: Threads + Wait + Sync>(
    rt: &R,
    alloc: Global,
    read: Result<List<List<Tx>>, BadArrivals>,
    most: u32,
) -> Result<Reply, NoMemory>
    requires clients { IfOk read (λ clients. (1 ≤ length clients) × (length clients ≤ most_clients)) }
    requires submissions { IfOk read (All IsSubmission) }
    requires most { (1 ≤ most) × (most ≤ most_transactions) }
    ensures replies { IfOk result (RepliesOrder most read) }
    ensures kind { IfOk result (λ reply. is_answer reply.status ≡ true) }
{
    match read {
        Ok(clients) => order_clients(rt, alloc, clients, most),
        Err(bad) => refuse_arrivals(alloc, bad),
    }
}

/// The reply to an order: the draft of what the clients of the files submit. The files are read one after another, and no client begins
/// before each was read and none of them is refused.
#[tactic(auto, using(crate::proofs::Drafts::few_clients, crate::proofs::Drafts::replies_told))]
pub fn answer_order<R: Threads + Wait + Sync, S: Shelf>(
    rt: &R,
    alloc: Global,
    shelf: &mut S,
    clients: &Option<Word>,
    count: u32,
    most: u32,
) -> Result<Reply, FilesFault>
    requires count { (1 ≤ count) × (count ≤ most_clients) }
    requires most { (1 ≤ most) × (most ≤ most_transactions) }
    requires allowed { AllowsPlan (arrivals_plan clients.now 1 count) (S.told shelf.old) (S.may_read shelf.old) }
    ensures told { IfOk result (λ reply. IfSome (S.told shelf.old) (λ files. RepliesOrder most (all_arrived clients.now 1 count files) reply)) }
    ensures turn { IsErrOf result FilesFault.Failed → IfSome (S.told shelf.old) (λ files. RoseIn (arrivals_plan clients.now 1 count) files (S.faults shelf.old) (S.faults shelf.new)) }
    ensures counted { Counted result (RoseAt (arrivals_plan clients.now 1 count) (S.faults shelf.old) (S.faults shelf.new)) (S.faults shelf.old) (S.faults shelf.new) }
    ensures kind { IfOk result (λ reply. is_answer reply.status ≡ true) }
{
    let read = read_all_arrivals(alloc, shelf, clients, count)?;
    let reply = answer_clients(rt, alloc, read, most)?;
    Ok(reply)
}
