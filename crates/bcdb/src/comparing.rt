//! The answer to a comparison of peers.

ghost use Rattle.std.specs.Prelude.{◌≡◌, ◌≤◌, IfOk, IfSome, IsErrOf, true};
ghost use Rattle.bcdb.specs.ComparisonAnswer.{over_comparison};
ghost use Rattle.bcdb.specs.PeerFiles.{all_digests};
ghost use Rattle.bcdb.specs.Plan.{AllowsPlan, Counted, RoseAt, RoseIn, digests_plan};
ghost use Rattle.bcdb.specs.ProgramAnswer.{says};
ghost use Rattle.bcdb.specs.Reply.{Means, is_answer};
ghost use Rattle.checkpoint.specs.Printed.{comparison};
ghost use Rattle.proc_syntax.specs.Limits.{most_peers};

use crate::fault::FilesFault;
use crate::peers::read_peers;
use crate::refusal::BadDigests;
use crate::reply::{Reply, refuse_digests};
use crate::status::Status;
use checkpoint::{compare, print_compared};
use edge_traits::Shelf;
use rel_base::{List, NoMemory};
use std::alloc::Global;

// The reply that says where peers differ.
fn compare_peers(alloc: Global, peers: &List<List<[u8; 32]>>) -> Result<Reply, NoMemory>
    ensures means { IfOk result (λ reply. Means (says Status.Done (comparison peers.now)) reply) }
    ensures kind { IfOk result (λ reply. is_answer reply.status ≡ true) }
{
    let found = compare(alloc, peers)?;
    let bytes = print_compared(alloc, peers, &found)?;
    Ok(Reply {
        status: Status::Done,
        bytes,
    })
}

// The reply to what the digest files came to.
fn answer_peers(
    alloc: Global,
    read: Result<List<List<[u8; 32]>>, BadDigests>,
) -> Result<Reply, NoMemory>
    ensures means { IfOk result (λ reply. Means (over_comparison read) reply) }
    ensures kind { IfOk result (λ reply. is_answer reply.status ≡ true) }
{
    match read {
        Ok(peers) => compare_peers(alloc, &peers),
        Err(bad) => refuse_digests(alloc, bad),
    }
}

/// The reply to a comparison of so many peers, by their digest files.
#[tactic(auto, using(crate::proofs::Digests::compared_told))]
pub fn answer_comparison<S: Shelf>(
    alloc: Global,
    shelf: &mut S,
    files: &str,
    count: u32,
) -> Result<Reply, FilesFault>
    requires few { count ≤ most_peers }
    requires allowed { AllowsPlan (digests_plan files.now 1 count) (S.told shelf.old) (S.may_read shelf.old) }
    ensures told { IfOk result (λ reply. IfSome (S.told shelf.old) (λ all. Means (over_comparison (all_digests files.now 1 count all)) reply)) }
    ensures turn { IsErrOf result FilesFault.Failed → IfSome (S.told shelf.old) (λ all. RoseIn (digests_plan files.now 1 count) all (S.faults shelf.old) (S.faults shelf.new)) }
    ensures counted { Counted result (RoseAt (digests_plan files.now 1 count) (S.faults shelf.old) (S.faults shelf.new)) (S.faults shelf.old) (S.faults shelf.new) }
    ensures kind { IfOk result (λ reply. is_answer reply.status ≡ true) }
{
    let read = read_peers(alloc, shelf, files, count)?;
    let reply = answer_peers(alloc, read)?;
    Ok(reply)
}
