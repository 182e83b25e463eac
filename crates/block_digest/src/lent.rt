//! The code and the digest of a block's result whose parts are lent, and whose writes stand with their transactions.

ghost use Rattle.std.specs.Prelude.{◌≡◌, ◌<◌, ◌^◌, ◌++◌, All, length, map, IfOk, OnOk};
ghost use Rattle.std.specs.List.{flat_map};
ghost use Rattle.canon_code.specs.Codes.{counted};
ghost use Rattle.canon_code.specs.Writes.{write_code};
ghost use Rattle.node_model.specs.BlockCode.{block_code, small_code};
ghost use Rattle.node_model.specs.History.{placed_of};
ghost use Rattle.block_digest.specs.Codable.{IsFewWrite, IsCodable};
ghost use Rattle.block_digest.specs.Lent.{placed_at, result_lent};

use crate::positions::push_order;
use crate::write_block::{push_head, push_outcomes};
use canon_code::{put_u32, put_write_at};
use node_model::{Committed, Told};
use rel_base::{List, NoMemory, Write};
use std::alloc::Global;

/// A block's result whose parts are lent, and whose writes stand with their transactions. It has no digest yet.
#[derive(Clone, Copy)]
pub struct LentResult<'a> {
    /// The number of the block.
    pub number: u64,
    /// In whole seconds, as the block says.
    pub time: i64,
    /// An outcome for each transaction in order.
    pub outcomes: &'a [Told],
    /// The positions of the committed transactions, from 1, in their serial order.
    pub order: &'a [u32],
    /// The committed transactions by position, each with its net writes by table and key.
    pub committed: &'a [Committed],
}

/// How many writes committed transactions made, which are fewer than 2^32.
pub fn count_writes(committed: &[Committed]) -> usize
    requires { length (placed_of committed.now) < 2 ^ 32 }
    ensures { result ≡ length (placed_of committed.now) }
{
    let mut count = 0;
    for done in committed {
        count += done.writes.len();
    }
    count
}

/// Writes the writes of the transaction at a position at the end.
fn push_each(out: &mut Vec<u8>, pos: u32, writes: &[Write]) -> Result<(), NoMemory>
    requires { All (λ write. IsFewWrite (placed_at pos write)) writes.now }
    ensures { OnOk result (out.new.items ≡ out.old.items ++ flat_map write_code (map (placed_at pos) writes.now)) }
{
    for write in writes {
        put_write_at(out, pos, write)?;
    }
    Ok(())
}

/// Writes the writes of committed transactions at the end.
fn push_all(out: &mut Vec<u8>, committed: &[Committed]) -> Result<(), NoMemory>
    requires { All IsFewWrite (placed_of committed.now) }
    ensures { OnOk result (out.new.items ≡ out.old.items ++ flat_map write_code (placed_of committed.now)) }
{
    for done in committed {
        push_each(out, done.pos, done.writes.as_slice())?;
    }
    Ok(())
}

/// Writes the writes of committed transactions at the end, after their count.
fn push_writes(out: &mut Vec<u8>, committed: &[Committed]) -> Result<(), NoMemory>
    requires few { length (placed_of committed.now) < 2 ^ 32 }
    requires rows { All IsFewWrite (placed_of committed.now) }
    ensures { OnOk result (out.new.items ≡ out.old.items ++ counted small_code write_code (placed_of committed.now)) }
{
    put_u32(out, count_writes(committed) as u32)?;
    push_all(out, committed)
}

/// Writes the code of a lent result at the end, or a part of it where memory runs out.
fn push_lent(out: &mut Vec<u8>, block: &LentResult<'_>) -> Result<(), NoMemory>
    requires { IsCodable (result_lent block.now) }
    ensures { OnOk result (out.new.items ≡ out.old.items ++ block_code (result_lent block.now)) }
{
    push_head(out, block.number, block.time)?;
    push_outcomes(out, block.outcomes)?;
    push_order(out, block.order)?;
    push_writes(out, block.committed)
}

/// The code of a block's result whose parts are lent: that of the result which holds all its writes. There are fewer than 2^32
/// outcomes, positions and writes, and at most 32 values in each key and row. The only refusal is out of memory, which is taken for
/// the code alone.
pub fn encode_lent(alloc: Global, block: &LentResult<'_>) -> Result<List<u8>, NoMemory>
    requires { IsCodable (result_lent block.now) }
    ensures { IfOk result (λ bytes. bytes ≡ block_code (result_lent block.now)) }
{
    let mut out = Vec::new(alloc);
    push_lent(&mut out, block)?;
    Ok(List::from_vec(out))
}
