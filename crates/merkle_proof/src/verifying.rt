//! Whether a proof leads from a write to a head.

ghost use Rattle.block_digest.specs.Codable.{IsFewWrite};
ghost use Rattle.merkle_proof.specs.Head.{IsPlaced, IsProof};
ghost use Rattle.merkle_proof.specs.Proofs.{IsVerified, is_verified};
ghost use Rattle.merkle_proof.specs.Shape.{levels, shape, turns};
ghost use Rattle.merkle_proof.specs.Tree.{climb};
ghost use Rattle.sha2.specs.Sha256.{sha256};
ghost use Rattle.std.specs.Prelude.{IfOk, IsTrue, reverse, ◌-◌, ◌≡◌, ◌↔◌};

use crate::climb::{climb, way_len};
use crate::hashes::{code_of, head_with, leaf};
use crate::proof::Proof;
use crate::root::most_levels;
use rel_base::{NoMemory, Placed};
use std::alloc::Global;

/// Whether the path of a proof has the length that its count and its index give.
fn is_placed(proof: &Proof) -> bool
    ensures { IsTrue result ↔ IsPlaced proof.now.count proof.now.index proof.now.path }
{
    if proof.index == 0 || proof.index > proof.count {
        return false;
    }
    let count = proof.count as usize;
    let index = proof.index as usize;
    proof.path.len() == way_len(most_levels(), count, index - 1)
}

/// The hash at the root to which the path of a proof leads from a leaf.
pub fn claimed_root(proof: &Proof, leaf: [u8; 32]) -> [u8; 32]
    requires { IsPlaced proof.now.count proof.now.index proof.now.path }
    ensures { result ≡ climb sha256 (turns (shape levels proof.now.count) (proof.now.index - 1)) (reverse proof.now.path) leaf }
{
    let count = proof.count as usize;
    let index = proof.index as usize;
    climb(most_levels(), count, index - 1, proof.path.as_slice(), leaf)
}

/// Whether a proof leads from a code to a head.
fn leads(head: &[u8; 32], code: &[u8], proof: &Proof) -> bool
    ensures { IsTrue result ↔ IsProof sha256 head.now code.now proof.now.count proof.now.index proof.now.path }
{
    if !is_placed(proof) {
        return false;
    }
    let root = claimed_root(proof, leaf(code));
    head_with(proof.count, &root) == *head
}

/// Whether a proof shows, by the head of some writes, that a write stands at its index among them: its path has the length that its count and
/// its index give, and leads from the write to the head. It fails only where memory runs out, which is taken for the code of the write.
pub fn verify(
    alloc: Global,
    head: &[u8; 32],
    write: &Placed,
    proof: &Proof,
) -> Result<bool, NoMemory>
    requires { IsFewWrite write.now }
    ensures shown { IfOk result (λ verified. IsTrue verified ↔ IsVerified head.now write.now proof.now) }
    ensures test { IfOk result (λ verified. verified ≡ is_verified head.now write.now proof.now) }
{
    let code = code_of(alloc, write)?;
    Ok(leads(head, &code, proof))
}
