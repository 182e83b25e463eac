//! The proof of a write.

ghost use Rattle.block_digest.specs.Codable.{IsFewWrite};
ghost use Rattle.merkle_proof.specs.Proofs.{IsVerified, head_of, leaves_of, proof_of};
ghost use Rattle.merkle_proof.specs.Shape.{shape};
ghost use Rattle.merkle_proof.specs.Tree.{path};
ghost use Rattle.sha2.specs.Sha256.{sha256};
ghost use Rattle.std.specs.Prelude.{All, IfOk, OnOk, Some, ℕ, length, reverse, slice_get, ◌++◌, ◌-◌, ◌<◌, ◌^◌, ◌≡◌, ◌≤◌};
ghost use Rattle.rel_base.specs.declared.access.Placed.{Placed};

use crate::proof::Proof;
use crate::root::{half_of, most_levels, root};
use rel_base::{List, NoMemory, Placed};
use std::alloc::Global;

/// Puts the hashes beside the way to an index, from 0, at the end of others, the one beside the leaf first.
fn push_path(
    alloc: Global,
    steps: &mut List<[u8; 32]>,
    writes: &[Placed],
    index: usize,
    level: u32,
) -> Result<(), NoMemory>
    requires level { level ≤ 32 }
    requires within { index < length writes.now }
    requires few { length writes.now ≤ 2 ^ level }
    requires rows { All IsFewWrite writes.now }
    ensures { OnOk result (steps.new ≡ steps.old ++ reverse (path sha256 (shape level (length writes.now)) (leaves_of writes.now) index)) }
{
    if level == 0 {
        return Ok(());
    }
    let half = half_of(level);
    if writes.len() <= half {
        return push_path(alloc, steps, writes, index, level - 1);
    }
    let (front, back) = writes.split_at(half);
    if index < half {
        push_path(alloc, steps, front, index, level - 1)?;
        let beside = root(alloc, back, level - 1)?;
        return steps.push(beside);
    }
    push_path(alloc, steps, back, index - half, level - 1)?;
    let beside = root(alloc, front, level - 1)?;
    steps.push(beside)
}

/// The proof of the write at an index, from 1, of the writes of a block. It is verified against their head. It fails only where memory runs out.
pub fn prove(alloc: Global, writes: &List<Placed>, index: u32) -> Result<Proof, NoMemory>
    requires from_one { 1 ≤ index }
    requires within { index ≤ length writes.now }
    requires few { length writes.now < 2 ^ 32 }
    requires rows { All IsFewWrite writes.now }
    ensures proof { IfOk result (λ proof. proof ≡ proof_of writes.now index) }
    ensures short { IfOk result (λ proof. length proof.path ≤ 32) }
    ensures verified { IfOk result (λ proof. (write : Placed) → slice_get writes.now (index - 1) ≡ Some write → IsVerified (head_of writes.now) write proof) }
{
    let mut path = List::new(alloc);
    push_path(
        alloc,
        &mut path,
        writes.as_slice(),
        index as usize - 1,
        most_levels(),
    )?;
    let count = writes.len() as u32;
    Ok(Proof { count, index, path })
}
