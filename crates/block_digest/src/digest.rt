//! The digest of a block's result.

ghost use Rattle.std.specs.Prelude.{◌≡◌, ◌++◌, IfOk};
ghost use Rattle.node_model.specs.BlockCode.{digest_of};
ghost use Rattle.sha2.specs.Sha256.{sha256};
ghost use Rattle.block_digest.specs.Codable.{IsCodable};
ghost use Rattle.block_digest.specs.Lent.{result_lent};

use crate::lent::{LentResult, encode_lent};
use crate::write_block::encode;
use node_model::BlockResult;
use rel_base::NoMemory;
use sha_lanes::Hasher;
use std::alloc::Global;

/// The SHA-256 of a digest and the bytes after it.
fn digest_behind(previous: &[u8; 32], code: &[u8]) -> [u8; 32]
    ensures { result ≡ sha256 (previous.now ++ code.now) }
{
    let mut hasher = Hasher::new();
    hasher.update(previous);
    hasher.update(code);
    hasher.finalize()
}

/// The digest of a block's result, where the block before has a digest: before the first block, `NO_DIGEST` of `node_model`. The
/// digest that the result holds has no part in it, its time has. There are fewer than 2^32 outcomes, positions and writes, and at
/// most 32 values in each key and row. The only refusal is out of memory, which is taken for the code of the result.
pub fn digest_of(
    alloc: Global,
    previous: &[u8; 32],
    block: &BlockResult,
) -> Result<[u8; 32], NoMemory>
    requires { IsCodable block.now }
    ensures { IfOk result (λ digest. digest ≡ digest_of previous.now block.now) }
{
    let code = encode(alloc, block)?;
    Ok(digest_behind(previous, code.as_slice()))
}

/// The digest of a block's result whose parts are lent: that of the result which holds all its writes, where the block before has a
/// digest. There are fewer than 2^32 outcomes, positions and writes, and at most 32 values in each key and row. The only refusal is
/// out of memory, which is taken for the code of the result: no write is copied.
pub fn digest_of_lent(
    alloc: Global,
    previous: &[u8; 32],
    block: &LentResult<'_>,
) -> Result<[u8; 32], NoMemory>
    requires { IsCodable (result_lent block.now) }
    ensures { IfOk result (λ digest. digest ≡ digest_of previous.now (result_lent block.now)) }
{
    let code = encode_lent(alloc, block)?;
    Ok(digest_behind(previous, code.as_slice()))
}
