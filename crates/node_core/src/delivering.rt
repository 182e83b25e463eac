//! Deliveries of blocks.

ghost use Rattle.std.specs.Prelude.{◌≡◌, ◌+◌, ◌++◌, ◌||◌, ◌∷◌, IfOk, List, OnOk, [], is_some, length, map};
ghost use Rattle.std.specs.List.{list_any};
ghost use Rattle.std.specs.Str.{bytes_eq};
ghost use Rattle.block_work.specs.Causes.{early_by};
ghost use Rattle.node_core.specs.Fresh.{HasIds, fresh_in};
ghost use Rattle.node_core.specs.Rows.{shown_all};
ghost use Rattle.node_model.specs.World.{number_of_job};

use crate::answers::Delivered;
use crate::arriving::share_tx;
use crate::delivered_block::{DeliveredBlock, IndexedBlock};
use crate::jobs::Jobs;
use crate::node::NodeCore;
use crate::room::make_room;
use block_work::{BlockInWork, IdIndex, early_cause};
use node_model::{Entry, Event, KeptResult};
use proc_check::Checked;
use proc_syntax::{Block, Tx};
use rel_base::{Id, NoMemory, Twin};
use row_sets::Versions;
use std::alloc::Global;
use std::collections::BTreeSet;
use std::sync::Arc;

// The number of the block after these.
fn next_number(blocks: &[KeptResult]) -> u64
    ensures { result ≡ length blocks.now + 1 }
{
    blocks.len() as u64 + 1
}

// A copy of a block.
fn copy_block(alloc: Global, block: &Block) -> Result<Block, NoMemory>
    ensures { IfOk result (λ made. made ≡ block.now) }
{
    match Block::new(block.number, block.time, block.txs.copy(alloc)?) {
        Ok(made) => Ok(made),
        Err(_) => Err(NoMemory),
    }
}

/// A copy of a block, in memory of its own.
pub fn share_block(alloc: Global, block: &Block) -> Result<Arc<Block>, NoMemory>
    ensures { IfOk result (λ shared. shared.value ≡ block.now) }
{
    let shared = Arc::new(alloc, copy_block(alloc, block)?)?;
    Ok(shared)
}

/// Copies of some transactions, each in memory of its own.
pub fn share_txs(alloc: Global, txs: &[Tx]) -> Result<Vec<Arc<Tx>>, NoMemory>
    ensures { IfOk result (λ shared. map (λ tx. tx.value) shared.items ≡ txs.now) }
{
    let mut shared = Vec::new(alloc);
    for tx in txs {
        shared.push(share_tx(alloc, tx)?)?;
    }
    Ok(shared)
}

// Whether a transaction has the id of one before it. From then on its id is among theirs.
fn repeats(alloc: Global, before: &mut BTreeSet<Id>, tx: &Tx) -> Result<bool, NoMemory>
    ensures repeats { IfOk result (λ repeats. (txs : List Tx) → HasIds before.old txs → repeats ≡ list_any (bytes_eq tx.now.id) (map (λ tx. tx.id) txs)) }
    ensures joins { OnOk result ((txs : List Tx) → HasIds before.old txs → HasIds before.new (txs ++ tx.now ∷ [])) }
{
    let is_new = before.insert(tx.id.copy(alloc)?)?;
    Ok(!is_new)
}

// Whether a transaction of the block of a number, whose id is known or not, has a cause that is known without a run, or a job.
fn needs_none(app: &Checked, jobs: &Jobs, number: u64, known: bool, tx: &Tx) -> bool
    ensures { result ≡ (is_some (early_by known app.now.app number tx.now) || is_some (number_of_job tx.now (shown_all jobs.now))) }
{
    early_cause(app, known, number, tx).is_some() || jobs.find(tx).is_some()
}

// Of the transactions of a block, which are shared one by one, those that need a job, and the ids of all.
fn fresh_txs(
    alloc: Global,
    app: &Checked,
    ids: &IdIndex,
    jobs: &Jobs,
    block: &Block,
    shared: &[Arc<Tx>],
) -> Result<(Vec<Arc<Tx>>, BTreeSet<Id>), NoMemory>
    requires { map (λ tx. tx.value) shared.now ≡ block.now.txs }
    ensures fresh { IfOk result (λ made. map (λ tx. tx.value) made.0.items ≡ fresh_in app.now.app ids.now jobs.now block.now.number block.now.txs 0 block.now.txs) }
    ensures ids { IfOk result (λ made. HasIds made.1 block.now.txs) }
{
    let txs = block.txs.as_slice();
    let mut made = Vec::new(alloc);
    let mut before = BTreeSet::new(alloc);
    for i in 0..txs.len() {
        let tx = &txs[i];
        let repeated = repeats(alloc, &mut before, tx)?;
        let known = ids.find(&tx.id).is_some() || repeated;
        if !needs_none(app, jobs, block.number, known, tx) {
            made.push(shared[i].clone()?)?;
        }
    }
    Ok((made, before))
}

impl<V: Versions> NodeCore<V> {
    ghost use Rattle.std.specs.Prelude.{OnErr};
    ghost use Rattle.node_core.specs.Answers.{delivered_as};
    ghost use Rattle.node_core.specs.Core.{Delivers};

    /// The next block of the chain comes. Where none is in work, it is; each of its transactions that has no cause that is known without a
    /// run, and no job, waits as a new job. Only the processor, which is actor 0, delivers.
    pub fn deliver(&mut self, actor: u32, block: &Block) -> Result<Delivered, NoMemory>
        requires processor { actor ≡ 0 }
        ensures step { IfOk result (λ got. Delivers self.old actor block.now (delivered_as got) self.new) }
        ensures err { OnErr result (self.new ≡ self.old) }
    {
        let shared = share_block(self.alloc, block)?;
        let txs = share_txs(self.alloc, block.txs.as_slice())?;
        self.deliver_shared(actor, &shared, txs.as_slice())
    }

    /// The same of a block in memory of its own, beside its transactions one by one, of which the node shares the block and those that need
    /// a job. No copy is made.
    pub fn deliver_shared(
        &mut self,
        actor: u32,
        block: &Arc<Block>,
        txs: &[Arc<Tx>],
    ) -> Result<Delivered, NoMemory>
        requires processor { actor ≡ 0 }
        requires txs { map (λ tx. tx.value) txs.now ≡ block.now.value.txs }
        ensures step { IfOk result (λ got. Delivers self.old actor block.now.value (delivered_as got) self.new) }
        ensures err { OnErr result (self.new ≡ self.old) }
    {
        if let Some(working) = &self.work {
            return Ok(Delivered::InWork {
                number: working.block.get().number,
            });
        }
        let expected = next_number(self.chain.blocks.as_slice());
        if block.number != expected {
            return Ok(Delivered::NotNext { expected });
        }
        make_room(&mut self.journal, 1, self.jobs.held())?;
        let shared = block.clone()?;
        let noted = block.clone()?;
        let (fresh, ids) = fresh_txs(
            self.alloc,
            &self.chain.app,
            &self.ids,
            &self.jobs,
            block,
            txs,
        )?;
        self.jobs.add_all(fresh)?;
        self.work = Some(DeliveredBlock {
            done: BlockInWork::new(self.alloc, block),
            block: IndexedBlock::new(shared, ids),
        });
        self.journal.push_reserved(Entry {
            actor,
            event: Event::Deliver { block: noted },
        });
        Ok(Delivered::Taken)
    }
}
