//! The hashes of leaves, nodes and heads. What is hashed begins with a byte that tells the three apart.

ghost use Rattle.canon_code.specs.Writes.{write_code};
ghost use Rattle.block_digest.specs.Codable.{IsFewWrite};
ghost use Rattle.merkle_proof.specs.Head.{head_at, head_input};
ghost use Rattle.merkle_proof.specs.Tree.{leaf_input, leaf_of, node_input, node_of};
ghost use Rattle.sha2.specs.Sha256.{sha256};
ghost use Rattle.std.specs.Prelude.{◌≡◌, IfOk};

use canon_code::put_write;
use rel_base::{NoMemory, Placed};
use sha2::{Digest, Sha256};
use std::alloc::Global;

/// The code of a write.
pub fn code_of(alloc: Global, write: &Placed) -> Result<Vec<u8>, NoMemory>
    requires { IsFewWrite write.now }
    ensures { IfOk result (λ code. code.items ≡ write_code write.now) }
{
    let mut code = Vec::new(alloc);
    put_write(&mut code, write)?;
    Ok(code)
}

/// The hash of a leaf.
pub fn leaf(code: &[u8]) -> [u8; 32]
    ensures { result ≡ leaf_of sha256 code.now }
{
    let mut hasher = Sha256::new();
    hasher.update([0_u8].as_slice());
    hasher.update(code);
    hasher.finalize()
}

/// The hash of a node.
pub fn node(left: &[u8; 32], right: &[u8; 32]) -> [u8; 32]
    ensures { result ≡ node_of sha256 left.now right.now }
{
    let mut hasher = Sha256::new();
    hasher.update([1_u8].as_slice());
    hasher.update(left.as_slice());
    hasher.update(right.as_slice());
    hasher.finalize()
}

/// The head of a count and a root.
pub fn head_with(count: u32, root: &[u8; 32]) -> [u8; 32]
    ensures { result ≡ head_at sha256 count root.now }
{
    let mut hasher = Sha256::new();
    hasher.update([2_u8].as_slice());
    hasher.update(count.to_be_bytes().as_slice());
    hasher.update(root.as_slice());
    hasher.finalize()
}
