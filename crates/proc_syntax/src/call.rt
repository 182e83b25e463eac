//! Transactions and blocks.

ghost use Rattle.std.specs.Prelude.{◌≡◌, ◌<◌, ◌≤◌, IfOk, IfErr, IsErr, ◌↔◌, length, pos};
ghost use Rattle.std.specs.Prelude.{true, int_le};
ghost use Rattle.proc_syntax.specs.Limits.{most_transactions};

use rel_base::{Id, List, Name, NoMemory, Row, Twin};
use std::alloc::Global;

/// The number of transactions that a block may hold.
pub const MOST_TRANSACTIONS: usize = 1024;

/// A transaction: a call of a procedure on the tables as they are after the block of a height.
#[derive(Drop)]
pub struct Tx {
    pub id: Id,
    /// The block after which the call reads the tables; 0 is before the first.
    pub height: u64,
    pub procedure: Name,
    /// Its arguments, in order. As the values of a row, they stand once in memory, also where the transaction is copied.
    pub args: Row,
}

/// Why a transaction's call can not begin.
#[derive(Clone, Copy, Debug, PartialEq, Eq)]
pub enum CallFault {
    /// No procedure has the name.
    UnknownProcedure,
    /// The arguments differ from the parameters in number or in kinds.
    BadArguments,
}

impl Twin for Tx {
    fn copy(&self, alloc: Global) -> Result<Self, NoMemory> {
        Ok(Tx {
            id: self.id.copy(alloc)?,
            height: self.height,
            procedure: self.procedure.copy(alloc)?,
            args: self.args.copy(alloc)?,
        })
    }
}

/// A block of the chain: its number from 1, its time in whole seconds, and at most 1,024 transactions.
#[derive(Drop)]
pub struct Block {
    pub number: u64,
    pub time: i64,
    pub txs: List<Tx>,
    ghost few: { length txs ≤ most_transactions },
    ghost not_negative: { int_le (pos 0) time ≡ true },
}

impl Block {
    /// A block, or the transactions back, exactly where there are more than 1,024 of them.
    pub fn new(number: u64, time: i64, txs: List<Tx>) -> Result<Block, List<Tx>>
        requires { int_le (pos 0) time ≡ true }
        ensures ok { IfOk result (λ block. (block.number ≡ number) × (block.time ≡ time) × (block.txs ≡ txs)) }
        ensures err { IfErr result (λ back. back ≡ txs) }
        ensures too_many { IsErr result ↔ (most_transactions < length txs) }
    {
        if txs.len() > MOST_TRANSACTIONS {
            return Err(txs);
        }
        Ok(Block { number, time, txs })
    }
}
