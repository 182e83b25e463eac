//! Seals.

ghost use Rattle.std.specs.Prelude.{◌≡◌, ◌++◌, ◌∷◌, IfOk, IfSome, List, None, OnErr, OnOk, [], length};
ghost use Rattle.std.specs.Option.{IsSomeAnd};
ghost use Rattle.block_work.specs.Block.{sealed_of};
ghost use Rattle.block_work.specs.Chain.{HoldsChain, StoreFits};
ghost use Rattle.node_core.specs.Over.{CanJoin, not_sealed};
ghost use Rattle.node_model.specs.History.{SealedBlock};
ghost use Rattle.proc_syntax.specs.Declaring.{tables_of};

use crate::answers::Sealed;
use crate::claiming::due_tx;
use crate::delivered_block::{DeliveredBlock, IndexedBlock};
use crate::node::NodeCore;
use crate::room::make_room;
use block_work::Chain;
use block_work::result::last_digest;
use node_model::{Entry, Event};
use rel_base::NoMemory;
use row_sets::Versions;

// Why no block is sealed, after so many that are: none is in work, or a transaction of it is not decided, of which the first is named.
fn not_sealed(sealed: u64, work: &Option<DeliveredBlock>) -> Option<Sealed>
    ensures { result ≡ not_sealed sealed work.now }
{
    match work {
        None => Some(Sealed::NoBlock { sealed }),
        Some(working) => match due_tx(working) {
            None => None,
            Some(_) => Some(Sealed::NotAll {
                pos: working.done.outcomes.len() as u32 + 1,
            }),
        },
    }
}

// Seals the block in work, and gives it back. Where memory is wanting, it is in work still.
fn seal_work<V: Versions>(
    chain: &mut Chain<V>,
    work: &mut Option<DeliveredBlock>,
) -> Result<IndexedBlock, NoMemory>
    requires store { StoreFits chain.old.app.value.app (V.tables chain.old.versions) (V.history chain.old.versions) chain.old.blocks }
    requires can { IsSomeAnd work.old (CanJoin (tables_of chain.old.app.value.app) (length chain.old.blocks)) }
    ensures app { chain.new.app.value ≡ chain.old.app.value }
    ensures store { StoreFits chain.new.app.value.app (V.tables chain.new.versions) (V.history chain.new.versions) chain.new.blocks }
    ensures block { IfOk result (λ block. IfSome work.old (λ working. block ≡ working.block)) }
    ensures holds { OnOk result (IfSome work.old (λ working. (sealed : List SealedBlock) → HoldsChain (tables_of chain.old.app.value.app) sealed (V.history chain.old.versions) chain.old.blocks
        → HoldsChain (tables_of chain.old.app.value.app) (sealed ++ sealed_of working.done ∷ []) (V.history chain.new.versions) chain.new.blocks)) }
    ensures none { OnOk result (work.new ≡ None) }
    ensures same_history { OnErr result (V.history chain.new.versions ≡ V.history chain.old.versions) }
    ensures same_blocks { OnErr result (chain.new.blocks ≡ chain.old.blocks) }
    ensures same_work { OnErr result (work.new ≡ work.old) }
{
    match work.take() {
        None => unreachable!(),
        Some(DeliveredBlock { block, done }) => {
            match chain.seal(done) {
                Ok(()) => Ok(block),
                Err((done, refused)) => {
                    *work = Some(DeliveredBlock { block, done });
                    Err(refused)
                }
            }
        }
    }
}

impl<V: Versions> NodeCore<V> {
    ghost use Rattle.node_core.specs.Answers.{sealed_as};
    ghost use Rattle.node_core.specs.Core.{Steps, results_in};
    ghost use Rattle.node_core.specs.Looking.{sealed_blocks};
    ghost use Rattle.node_model.specs.Steps.{ToSeal};
    ghost use Rattle.serial_laws.specs.InOrder.{EachInOrder};

    /// Seals the block in work, all of whose transactions are decided: its result joins the sealed ones, with its serial order and its
    /// digest, and waiting and done jobs whose ids are settled now are dropped. Only the processor, which is actor 0, seals. All growth is
    /// made before any change.
    pub fn seal(&mut self, actor: u32) -> Result<Sealed, NoMemory>
        requires processor { actor ≡ 0 }
        ensures step { IfOk result (λ got. Steps self.old actor ToSeal (sealed_as got) self.new) }
        ensures replays { IfOk result (λ got. EachInOrder self.new.app (sealed_blocks self.new) (results_in self.new)) }
        ensures err { OnErr result (self.new ≡ self.old) }
    {
        if let Some(answer) = not_sealed(self.chain.height(), &self.work) {
            return Ok(answer);
        }
        make_room(&mut self.journal, 1, self.jobs.held())?;
        let block = seal_work(&mut self.chain, &mut self.work)?;
        let number = block.get().number;
        // No waiting or done job had an id of an earlier block.
        self.jobs.drop_ids(block.get().txs.as_slice());
        self.journal.push_reserved(Entry {
            actor,
            event: Event::Seal { number },
        });
        Ok(Sealed::Digest {
            number,
            digest: last_digest(&self.chain.blocks),
        })
    }
}
