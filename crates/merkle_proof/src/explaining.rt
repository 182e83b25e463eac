//! What a verified proof means: a member, or two inputs with one SHA-256.

ghost use Rattle.canon_code.specs.Writes.{HasWriteCode};
ghost use Rattle.merkle_proof.specs.Head.{IsProof};
ghost use Rattle.merkle_proof.specs.Proofs.{Collides, Explains, IsCodeAt, IsVerified, head_of, leaves_of};
ghost use Rattle.block_digest.specs.Codable.{IsFewWrite};
ghost use Rattle.sha2.specs.Sha256.{sha256};
ghost use Rattle.std.specs.Prelude.{All, IfOk, IsTrue, length, ◌<◌, ◌^◌, ◌≤◌, ◌↔◌};

use crate::collision::{Inputs, fork_apart, heads_apart};
use crate::hashes::{code_of, leaf};
use crate::proof::Proof;
use crate::root::{most_levels, tree_of};
use crate::verifying::claimed_root;
use rel_base::{List, NoMemory, Placed};
use std::alloc::Global;

/// What a proof that is verified against the head of some writes means.
#[derive(Drop)]
pub enum Verdict {
    /// The write stands at the proof's index among the writes, and there are as many as the proof counts.
    Member,
    /// It does not, and these two inputs of SHA-256 differ and have one hash.
    Collision { left: List<u8>, right: List<u8> },
}

/// Whether the write of a code stands at the index of a proof, among as many as it says.
fn is_member(alloc: Global, writes: &[Placed], code: &[u8], proof: &Proof) -> Result<bool, NoMemory>
    requires from_one { 1 ≤ proof.now.index }
    requires within { proof.now.index ≤ proof.now.count }
    requires rows { All IsFewWrite writes.now }
    ensures { IfOk result (λ member. IsTrue member ↔ IsCodeAt (leaves_of writes.now) code.now proof.now) }
{
    if proof.count as usize != writes.len() {
        return Ok(false);
    }
    let own = code_of(alloc, &writes[proof.index as usize - 1])?;
    Ok(own.as_slice() == code)
}

/// Two inputs with one hash, where a proof leads from a code to the head of writes among which it does not stand.
fn collision(
    alloc: Global,
    writes: &[Placed],
    code: &[u8],
    proof: &Proof,
) -> Result<Inputs, NoMemory>
    requires few { length writes.now < 2 ^ 32 }
    requires rows { All IsFewWrite writes.now }
    requires proof { IsProof sha256 (head_of writes.now) code.now proof.now.count proof.now.index proof.now.path }
    requires other { IsCodeAt (leaves_of writes.now) code.now proof.now → ⊥ }
    ensures { IfOk result (λ inputs. Collides inputs.left inputs.right) }
{
    let own = tree_of(alloc, writes)?;
    let claimed = claimed_root(proof, leaf(code));
    let count = writes.len() as u32;
    if proof.count != count || claimed != own {
        return heads_apart(alloc, (proof.count, &claimed), (count, &own));
    }
    let index = proof.index as usize - 1;
    fork_apart(
        alloc,
        most_levels(),
        writes,
        index,
        proof.path.as_slice(),
        code,
    )
}

/// What it means that a proof is verified against the head of some writes: the write is a member, or else two inputs with one SHA-256 are in hand.
/// Nothing is assumed of SHA-256. It fails only where memory runs out.
pub fn explain(
    alloc: Global,
    writes: &List<Placed>,
    write: &Placed,
    proof: &Proof,
) -> Result<Verdict, NoMemory>
    requires few { length writes.now < 2 ^ 32 }
    requires rows { All HasWriteCode writes.now }
    requires row { HasWriteCode write.now }
    requires verified { IsVerified (head_of writes.now) write.now proof.now }
    ensures { IfOk result (λ verdict. Explains writes.now write.now proof.now verdict) }
{
    let code = code_of(alloc, write)?;
    if is_member(alloc, writes.as_slice(), &code, proof)? {
        return Ok(Verdict::Member);
    }
    let Inputs { left, right } = collision(alloc, writes.as_slice(), &code, proof)?;
    Ok(Verdict::Collision { left, right })
}
