//! The block that the lines of a file spell.

ghost use Rattle.std.specs.Prelude.{◌≡◌, ◌≤◌};
ghost use Rattle.chain_file.specs.Blocks.{block_of};
ghost use Rattle.chain_file.specs.Steps.{most_time};

use proc_syntax::{Block, Tx};
use rel_base::List;

/// The greatest time that a block may have.
pub const MOST_TIME: u64 = i64::MAX as u64;

/// A block of this number and time, where it has at most 1,024 transactions.
#[tactic(auto, using(crate::proofs::Blocks::no_block))]
pub fn block_of(number: u64, time: u64, txs: List<Tx>) -> Option<Block>
    requires { time ≤ most_time }
    ensures { result ≡ block_of number time txs }
{
    match Block::new(number, time as i64, txs) {
        Ok(block) => Some(block),
        Err(_) => None,
    }
}
