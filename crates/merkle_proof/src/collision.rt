//! Where two ways to one hash part: the inputs that differ.

ghost use Rattle.block_digest.specs.Codable.{IsFewWrite};
ghost use Rattle.canon_code.specs.Writes.{write_code};
ghost use Rattle.merkle_proof.specs.Head.{head_at, head_input};
ghost use Rattle.merkle_proof.specs.Proofs.{Collides, leaves_of};
ghost use Rattle.merkle_proof.specs.Shape.{shape, turns};
ghost use Rattle.merkle_proof.specs.Tree.{climb, leaf_input, leaf_of, node_input, node_of, tree};
ghost use Rattle.sha2.specs.Sha256.{sha256};
ghost use Rattle.std.specs.Prelude.{All, IfOk, IsTrue, get_or, length, reverse, ◌<◌, ◌^◌, ◌≡◌, ◌≢◌, ◌≤◌, ◌↔◌, ◌⊎◌, []};

use crate::climb::{climb, split_last};
use crate::hashes::{code_of, leaf};
use crate::root::{half_of, root};
use rel_base::{List, NoMemory, Placed};
use std::alloc::Global;

/// Two inputs of SHA-256.
#[derive(Drop)]
pub struct Inputs {
    pub left: List<u8>,
    pub right: List<u8>,
}

/// The input of a head.
fn head_input(alloc: Global, count: u32, root: &[u8; 32]) -> Result<List<u8>, NoMemory>
    ensures { IfOk result (λ input. input ≡ head_input count root.now) }
{
    let mut input = Vec::from_slice(alloc, &[2])?;
    input.extend_from_slice(count.to_be_bytes().as_slice())?;
    input.extend_from_slice(root.as_slice())?;
    Ok(List::from_vec(input))
}

/// The input of a node.
fn node_input(alloc: Global, left: &[u8; 32], right: &[u8; 32]) -> Result<List<u8>, NoMemory>
    ensures { IfOk result (λ input. input ≡ node_input left.now right.now) }
{
    let mut input = Vec::from_slice(alloc, &[1])?;
    input.extend_from_slice(left.as_slice())?;
    input.extend_from_slice(right.as_slice())?;
    Ok(List::from_vec(input))
}

/// The input of a leaf.
fn leaf_input(alloc: Global, code: &[u8]) -> Result<List<u8>, NoMemory>
    ensures { IfOk result (λ input. input ≡ leaf_input code.now) }
{
    let mut input = Vec::from_slice(alloc, &[0])?;
    input.extend_from_slice(code)?;
    Ok(List::from_vec(input))
}

/// The inputs of two heads.
pub fn heads_apart(
    alloc: Global,
    claimed: (u32, &[u8; 32]),
    own: (u32, &[u8; 32]),
) -> Result<Inputs, NoMemory>
    requires apart { (claimed.0 ≢ own.0) ⊎ (claimed.1.now ≢ own.1.now) }
    requires same { head_at sha256 claimed.0 claimed.1.now ≡ head_at sha256 own.0 own.1.now }
    ensures { IfOk result (λ inputs. Collides inputs.left inputs.right) }
{
    let left = head_input(alloc, claimed.0, claimed.1)?;
    let right = head_input(alloc, own.0, own.1)?;
    Ok(Inputs { left, right })
}

/// Whether two pairs of hashes are equal.
fn are_equal(
    claimed_left: &[u8; 32],
    claimed_right: &[u8; 32],
    left: &[u8; 32],
    right: &[u8; 32],
) -> bool
    ensures { IsTrue result ↔ (claimed_left.now ≡ left.now) × (claimed_right.now ≡ right.now) }
{
    claimed_left == left && claimed_right == right
}

/// The inputs of two nodes.
fn nodes_apart(
    alloc: Global,
    claimed_left: &[u8; 32],
    claimed_right: &[u8; 32],
    left: &[u8; 32],
    right: &[u8; 32],
) -> Result<Inputs, NoMemory>
    requires apart { (claimed_left.now ≡ left.now) × (claimed_right.now ≡ right.now) → ⊥ }
    requires same { node_of sha256 claimed_left.now claimed_right.now ≡ node_of sha256 left.now right.now }
    ensures { IfOk result (λ inputs. Collides inputs.left inputs.right) }
{
    let claimed = node_input(alloc, claimed_left, claimed_right)?;
    let own = node_input(alloc, left, right)?;
    Ok(Inputs {
        left: claimed,
        right: own,
    })
}

/// The inputs of two leaves.
fn leaves_apart(alloc: Global, code: &[u8], own: &Placed) -> Result<Inputs, NoMemory>
    requires row { IsFewWrite own.now }
    requires apart { code.now ≢ write_code own.now }
    requires same { leaf_of sha256 code.now ≡ leaf_of sha256 (write_code own.now) }
    ensures { IfOk result (λ inputs. Collides inputs.left inputs.right) }
{
    let own = code_of(alloc, own)?;
    let left = leaf_input(alloc, code)?;
    let right = leaf_input(alloc, &own)?;
    Ok(Inputs { left, right })
}

/// The inputs that differ where a path leads from a code to the root of a tree in which another code stands there: the highest ones.
pub fn fork_apart(
    alloc: Global,
    level: u32,
    writes: &[Placed],
    index: usize,
    path: &[[u8; 32]],
    code: &[u8],
) -> Result<Inputs, NoMemory>
    requires level { level ≤ 32 }
    requires within { index < length writes.now }
    requires few { length writes.now ≤ 2 ^ level }
    requires rows { All IsFewWrite writes.now }
    requires long { length path.now ≡ length (turns (shape level (length writes.now)) index) }
    requires leads { climb sha256 (turns (shape level (length writes.now)) index) (reverse path.now) (leaf_of sha256 code.now) ≡ tree sha256 (shape level (length writes.now)) (leaves_of writes.now) }
    requires other { code.now ≢ get_or (leaves_of writes.now) index [] }
    ensures { IfOk result (λ inputs. Collides inputs.left inputs.right) }
{
    if level == 0 {
        return leaves_apart(alloc, code, &writes[0]);
    }
    let half = half_of(level);
    if writes.len() <= half {
        return fork_apart(alloc, level - 1, writes, index, path, code);
    }
    let (front, back) = writes.split_at(half);
    let left = root(alloc, front, level - 1)?;
    let right = root(alloc, back, level - 1)?;
    let (rest, last) = split_last(path);
    if index < half {
        let below = climb(level - 1, half, index, rest, leaf(code));
        if are_equal(&below, last, &left, &right) {
            return fork_apart(alloc, level - 1, front, index, rest, code);
        }
        return nodes_apart(alloc, &below, last, &left, &right);
    }
    let below = climb(level - 1, back.len(), index - half, rest, leaf(code));
    if are_equal(last, &below, &left, &right) {
        return fork_apart(alloc, level - 1, back, index - half, rest, code);
    }
    nodes_apart(alloc, last, &below, &left, &right)
}
