//! The root of a tree over writes, and the head.

ghost use Rattle.block_digest.specs.Codable.{IsFewWrite};
ghost use Rattle.canon_code.specs.Writes.{write_code};
ghost use Rattle.merkle_proof.specs.Head.{tree_of};
ghost use Rattle.merkle_proof.specs.Proofs.{head_of, leaves_of};
ghost use Rattle.merkle_proof.specs.Shape.{levels, shape};
ghost use Rattle.merkle_proof.specs.Tree.{leaf_of, tree};
ghost use Rattle.sha2.specs.Sha256.{sha256};
ghost use Rattle.std.specs.Prelude.{All, IfOk, length, ◌-◌, ◌<◌, ◌^◌, ◌≡◌, ◌≤◌};

use crate::hashes::{code_of, head_with, leaf, node};
use rel_base::{List, NoMemory, Placed};
use std::alloc::Global;

/// The most levels below a root.
pub fn most_levels() -> u32
    ensures same { result ≡ levels }
    ensures few { result ≡ 32 }
{
    32
}

/// Half of the most leaves of a tree with so many levels.
pub fn half_of(level: u32) -> usize
    requires some { 1 ≤ level }
    requires few { level ≤ 32 }
    ensures { result ≡ 2 ^ (level - 1) }
{
    1_usize << (level - 1)
}

/// The hash of the leaf of a write.
pub fn leaf_of(alloc: Global, write: &Placed) -> Result<[u8; 32], NoMemory>
    requires { IsFewWrite write.now }
    ensures { IfOk result (λ hash. hash ≡ leaf_of sha256 (write_code write.now)) }
{
    let code = code_of(alloc, write)?;
    Ok(leaf(&code))
}

/// The hash at the root over some writes, at most 2^level. The writes are gone over once, from first to last, and the hashes that are
/// kept meanwhile are those of at most one subtree a level.
pub fn root(alloc: Global, writes: &[Placed], level: u32) -> Result<[u8; 32], NoMemory>
    requires level { level ≤ 32 }
    requires some { 1 ≤ length writes.now }
    requires few { length writes.now ≤ 2 ^ level }
    requires rows { All IsFewWrite writes.now }
    ensures { IfOk result (λ hash. hash ≡ tree sha256 (shape level (length writes.now)) (leaves_of writes.now)) }
{
    if level == 0 {
        return leaf_of(alloc, &writes[0]);
    }
    let half = half_of(level);
    if writes.len() <= half {
        return root(alloc, writes, level - 1);
    }
    let (front, back) = writes.split_at(half);
    let left = root(alloc, front, level - 1)?;
    let right = root(alloc, back, level - 1)?;
    Ok(node(&left, &right))
}

/// The hash at the root over writes; over none, 32 zero bytes.
pub fn tree_of(alloc: Global, writes: &[Placed]) -> Result<[u8; 32], NoMemory>
    requires few { length writes.now < 2 ^ 32 }
    requires rows { All IsFewWrite writes.now }
    ensures { IfOk result (λ hash. hash ≡ tree_of sha256 (leaves_of writes.now)) }
{
    if writes.is_empty() {
        return Ok([0; 32]);
    }
    root(alloc, writes, most_levels())
}

/// The head of writes: 32 bytes that bind their number, their order and what each of them is, as far as SHA-256 binds what it hashes. It fails
/// only where memory runs out, which is taken for the code of one write at a time.
pub fn head_of(alloc: Global, writes: &List<Placed>) -> Result<[u8; 32], NoMemory>
    requires few { length writes.now < 2 ^ 32 }
    requires rows { All IsFewWrite writes.now }
    ensures { IfOk result (λ head. head ≡ head_of writes.now) }
{
    let root = tree_of(alloc, writes.as_slice())?;
    Ok(head_with(writes.len() as u32, &root))
}
