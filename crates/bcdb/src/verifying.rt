//! The answer to whether a proof shows its write by a head.

ghost use Rattle.std.specs.Prelude.{◌≡◌, ◌≤◌, IfOk, IfSome, cond, codes, length, true};
ghost use Rattle.bcdb.specs.Plan.{AllowsPlan, Counted, ProofFile, RoseAt, planned};
ghost use Rattle.bcdb.specs.ProgramAnswer.{says};
ghost use Rattle.bcdb.specs.Reply.{Means, is_answer};
ghost use Rattle.bcdb.specs.VerificationAnswer.{over_shown, over_verification, shown_text};
ghost use Rattle.edge_traits.specs.Causes.{Rose};
ghost use Rattle.merkle_proof.specs.Blocks.{verified_in};

use crate::fault::FilesFault;
use crate::reply::{Reply, refuse_proof};
use crate::status::Status;
use edge_traits::{FetchFault, Shelf, read_whole};
use merkle_proof::{ProofFault, read_proof, verify};
use rel_base::{List, NoMemory};
use std::alloc::Global;

/// The greatest number of bytes of a proof file.
const LONGEST_PROOF: u64 = 262_144;

// The reply that says whether a write is shown.
fn say_shown(alloc: Global, shown: bool) -> Result<Reply, NoMemory>
    ensures means { IfOk result (λ reply. Means (says Status.Done (shown_text shown)) reply) }
    ensures kind { IfOk result (λ reply. is_answer reply.status ≡ true) }
{
    let text = if shown { "yes\n" } else { "no\n" };
    let bytes = List::from_vec(text.as_bytes().to_vec(alloc)?);
    Ok(Reply {
        status: Status::Done,
        bytes,
    })
}

// The reply to the bytes of a proof file, which are not too many.
fn answer_proof(alloc: Global, head: &[u8; 32], bytes: &[u8]) -> Result<Reply, NoMemory>
    ensures means { IfOk result (λ reply. Means (over_shown (verified_in head.now bytes.now)) reply) }
    ensures kind { IfOk result (λ reply. is_answer reply.status ≡ true) }
{
    match read_proof(alloc, bytes) {
        Ok((write, proof)) => {
            let shown = verify(alloc, head, &write, &proof)?;
            say_shown(alloc, shown)
        }
        Err(ProofFault::Bad { line }) => refuse_proof(alloc, line),
        Err(ProofFault::NoMemory) => Err(NoMemory),
    }
}

/// The reply to whether the proof of a file shows its write by a head.
#[tactic(auto, using(crate::proofs::Verifications::long_told, crate::proofs::Verifications::short_told))]
pub fn answer_verification<S: Shelf>(
    alloc: Global,
    shelf: &mut S,
    proof: &str,
    head: &[u8; 32],
) -> Result<Reply, FilesFault>
    requires allowed { AllowsPlan (planned ProofFile proof.now) (S.told shelf.old) (S.may_read shelf.old) }
    ensures told { IfOk result (λ reply. IfSome (S.told shelf.old) (λ files. Means (over_verification head.now (files proof.now)) reply)) }
    ensures counted { Counted result (RoseAt (planned ProofFile proof.now) (S.faults shelf.old) (S.faults shelf.new)) (S.faults shelf.old) (S.faults shelf.new) }
    ensures kind { IfOk result (λ reply. is_answer reply.status ≡ true) }
{
    match read_whole(alloc, shelf, proof, LONGEST_PROOF) {
        Ok(bytes) => Ok(answer_proof(alloc, head, bytes.as_slice())?),
        Err(FetchFault::TooLong) => Ok(refuse_proof(alloc, 0)?),
        Err(FetchFault::Failed) => Err(FilesFault::Failed),
        Err(FetchFault::NoMemory) => Err(FilesFault::NoMemory),
    }
}
