// Blocks that are filled one after the other.
ghost use Rattle.std.specs.Prelude.{◌≡◌, ◌+◌, ◌<◌, ◌≤◌, [], ◌∷◌, ◌++◌, length, pos, IfOk, OnOk};
ghost use Rattle.proc_syntax.specs.declared.call.Block.{Block};
ghost use Rattle.chain_file.specs.Numbered.{HaveNoTimes, NumberedFrom};
ghost use Rattle.order_queue.specs.Blocks.{FilledBy, joined};
ghost use Rattle.order_queue.specs.Filled.{IsFilling, all_of};
ghost use Rattle.proc_syntax.specs.Limits.{most_transactions};

use crate::bins::Filling;
use proc_syntax::{Block, Tx};
use rel_base::{List, NoMemory};
use std::alloc::Global;
use std::mem;

impl Filling {
    /// No block, and no transaction.
    pub fn new(alloc: Global) -> Filling
        ensures empty { all_of result ≡ [] }
        ensures new { (result.full.items ≡ []) × (result.next ≡ []) }
    {
        Filling {
            full: Vec::new(alloc),
            next: List::new(alloc),
        }
    }

    // Closes the open block.
    fn close(&mut self, alloc: Global) -> Result<(), NoMemory>
        requires { length self.old.next ≤ most_transactions }
        ensures next { OnOk result (self.new.next ≡ []) }
        ensures full { OnOk result ((block : Block) × (self.new.full.items ≡ self.old.full.items ++ block ∷ []) × (block.number ≡ length self.old.full.items + 1) × (block.time ≡ pos 0) × (block.txs ≡ self.old.next)) }
    {
        let txs = mem::replace(&mut self.next, List::new(alloc));
        let number = self.full.len() as u64 + 1;
        match Block::new(number, 0, txs) {
            Ok(block) => self.full.push(block)?,
            Err(_) => unreachable!(),
        }
        Ok(())
    }

    /// Adds a transaction.
    pub fn add(&mut self, alloc: Global, tx: Tx, most: u32) -> Result<(), NoMemory>
        requires most { (1 ≤ most) × (most ≤ most_transactions) }
        requires filling { IsFilling most self.old }
        ensures filling { OnOk result (IsFilling most self.new) }
        ensures all { OnOk result (all_of self.new ≡ all_of self.old ++ tx ∷ []) }
    {
        self.next.push(tx)?;
        if self.next.len() < most as usize {
            return Ok(());
        }
        self.close(alloc)?;
        Ok(())
    }

    /// The blocks of all that was added.
    pub fn finish(mut self, alloc: Global, most: u32) -> Result<List<Block>, NoMemory>
        requires most { (1 ≤ most) × (most ≤ most_transactions) }
        requires filling { IsFilling most self }
        ensures numbered { IfOk result (λ blocks. NumberedFrom 1 blocks) }
        ensures times { IfOk result HaveNoTimes }
        ensures filled { IfOk result (λ blocks. FilledBy most blocks) }
        ensures all { IfOk result (λ blocks. joined blocks ≡ all_of self) }
    {
        if !self.next.is_empty() {
            self.close(alloc)?;
        }
        let Filling { full, next: _ } = self;
        Ok(List::from_vec(full))
    }
}
