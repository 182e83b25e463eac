//! The blocks of a load.

ghost use Rattle.std.specs.Prelude.{IfOk, OnOk, length, pos, ◌+◌, ◌<◌, ◌^◌, ◌≡◌, ◌≤◌};
ghost use Rattle.load_gen.specs.Blocks.{first_block, first_of, later_block, load_blocks, txs_from};
ghost use Rattle.load_gen.specs.Transactions.{load_tx, opening_tx};
ghost use Rattle.proc_syntax.specs.Limits.{most_transactions};

use crate::txs::{Drawn, opening_tx};
use proc_syntax::{Block, Tx};
use rel_base::{List, NoMemory};
use std::alloc::Global;

/// The number of the last block.
pub const LAST_BLOCK: u64 = 41;

/// How many transactions open accounts, all in block 1.
const OPENINGS: u32 = 64;

/// How many drawn transactions stand in each block from the second on.
const DRAWN_IN_BLOCK: u64 = 50;

/// How many transactions are drawn.
pub const DRAWN: u64 = (LAST_BLOCK - 1) * DRAWN_IN_BLOCK;

/// A block of a number, of time 0.
fn block_of(number: u64, txs: List<Tx>) -> Block
    requires { length txs ≤ most_transactions }
    ensures number { result.number ≡ number }
    ensures time { result.time ≡ pos 0 }
    ensures txs { result.txs ≡ txs }
{
    match Block::new(number, 0, txs) {
        Ok(block) => block,
        Err(_) => unreachable!(),
    }
}

/// The transactions that open accounts.
fn openings(alloc: Global) -> Result<List<Tx>, NoMemory>
    ensures { IfOk result (λ made. made ≡ txs_from opening_tx 1 64) }
{
    let mut txs = List::new(alloc);
    for number in 1..=OPENINGS {
        txs.push(opening_tx(alloc, number)?)?;
    }
    Ok(txs)
}

/// Block 1.
fn first_block(alloc: Global) -> Result<Block, NoMemory>
    ensures { IfOk result (λ made. made ≡ first_block) }
{
    let txs = openings(alloc)?;
    Ok(block_of(1, txs))
}

/// So many of the drawn transactions that come next.
fn next_txs(alloc: Global, drawn: &mut Drawn, count: u64) -> Result<List<Tx>, NoMemory>
    requires { drawn.old.next + count < 2 ^ 32 }
    ensures txs { IfOk result (λ made. made ≡ txs_from (load_tx drawn.old.load) drawn.old.next count) }
    ensures moved { OnOk result (drawn.new.next ≡ drawn.old.next + count) }
    ensures load { drawn.new.load ≡ drawn.old.load }
{
    let mut txs = List::new(alloc);
    for _ in 0..count {
        txs.push(drawn.next_tx(alloc)?)?;
    }
    Ok(txs)
}

/// The block of a number from 2 on, of the drawn transactions that come next.
fn next_block(alloc: Global, drawn: &mut Drawn, number: u64) -> Result<Block, NoMemory>
    requires place { drawn.old.next ≡ first_of number }
    requires small { number < 2 ^ 16 }
    ensures block { IfOk result (λ made. made ≡ later_block drawn.old.load number) }
    ensures moved { OnOk result (drawn.new.next ≡ drawn.old.next + 50) }
    ensures load { drawn.new.load ≡ drawn.old.load }
{
    let txs = next_txs(alloc, drawn, DRAWN_IN_BLOCK)?;
    Ok(block_of(number, txs))
}

/// The blocks of the load of a number.
pub fn load_blocks(alloc: Global, number: u64) -> Result<List<Block>, NoMemory>
    ensures { IfOk result (λ made. made ≡ load_blocks number) }
{
    let mut blocks = List::new(alloc);
    blocks.push(first_block(alloc)?)?;
    let mut drawn = Drawn::new(number);
    for block in 2..=LAST_BLOCK {
        blocks.push(next_block(alloc, &mut drawn, block)?)?;
    }
    Ok(blocks)
}
