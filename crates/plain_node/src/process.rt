//! The transactions of a block are decided, and the block joins the chain.

ghost use Rattle.std.specs.Prelude.{◌≡◌, ◌<◌, ◌≤◌, ◌+◌, ◌++◌, ◌∷◌, IfErr, IfOk, List, OnErr, OnOk, [], length};
ghost use Rattle.block_work.specs.Block.{HasRoomForOne, IsConsistent, work_of};
ghost use Rattle.block_work.specs.Chain.{HoldsChain, StoreFits};
ghost use Rattle.block_work.specs.Ids.{AddsAmong, AddsPlace, AreUpTo, HasFirstPlaces, SamePlaces};
ghost use Rattle.block_work.specs.declared.ids.IdIndex.{IdIndex as Index};
ghost use Rattle.node_model.specs.Fold.{seal, work_on, work_through};
ghost use Rattle.node_model.specs.History.{SealedBlock};
ghost use Rattle.plain_node.specs.Deciding.{IsDecision, with_decided};
ghost use Rattle.proc_syntax.specs.Declaring.{tables_of};
ghost use Rattle.proc_syntax.specs.Limits.{most_transactions};
ghost use Rattle.rel_base.specs.declared.schema.TableDef.{TableDef};

use crate::ahead::look_ahead;
use crate::decide::{TxDecision, add, decide};
use block_work::{BlockInWork, Chain, IdIndex};
use proc_syntax::{Block, Tx};
use rel_base::{Id, NoMemory, Place, Twin};
use row_sets::Versions;
use std::alloc::Global;

// Notes the place of an id that is lent, and gives a copy of it. Where memory is wanting, each id has the place that it had.
fn note_id(alloc: Global, ids: &mut IdIndex, id: &Id, place: Place) -> Result<Id, NoMemory>
    ensures copied { IfOk result (λ own. own ≡ id.now) }
    ensures added { OnOk result (AddsPlace ids.old ids.new id.now place) }
    ensures same { OnErr result (SamePlaces ids.old ids.new) }
{
    let own = id.copy(alloc)?;
    let key = id.copy(alloc)?;
    ids.insert(key, place)?;
    Ok(own)
}

// Adds what is decided of a transaction to a block in work that has room for it, and its id to those of the chain. Where memory is wanting, neither
// has changed.
fn add_decided(
    alloc: Global,
    ids: &mut IdIndex,
    work: &mut BlockInWork,
    id: &Id,
    decided: TxDecision,
) -> Result<(), NoMemory>
    requires few { length work.old.outcomes.items < most_transactions }
    requires room { HasRoomForOne work.old }
    requires decision { (tables : List TableDef) × IsDecision tables work.old decided }
    ensures number { work.new.number ≡ work.old.number }
    ensures time { work.new.time ≡ work.old.time }
    ensures consistent { (tables : List TableDef) → IsConsistent tables work.old → IsDecision tables work.old decided → IsConsistent tables work.new }
    ensures same { OnErr result (work.new.outcomes.items ≡ work.old.outcomes.items) }
    ensures work { OnOk result (work_of work.new ≡ with_decided (work_of work.old) id.now decided) }
    ensures added { (before : Index) → AddsAmong before ids.old work.old.number work.old.outcomes.items → AddsAmong before ids.new work.old.number work.new.outcomes.items }
    ensures places { OnOk result ((sealed : List SealedBlock) → HasFirstPlaces ids.old sealed work.old.number work.old.outcomes.items → HasFirstPlaces ids.new sealed work.old.number work.new.outcomes.items) }
{
    let place = Place {
        block: work.number,
        pos: work.outcomes.len() as u32 + 1,
    };
    match note_id(alloc, ids, id, place) {
        Ok(own) => add(work, own, decided),
        Err(refused) => {
            drop(decided);
            return Err(refused);
        }
    }
    Ok(())
}

// Decides the next transaction of a block in work, and adds its id to those of the chain. Where memory is wanting, neither has changed.
fn decide_next<V: Versions>(
    alloc: Global,
    chain: &Chain<V>,
    ids: &mut IdIndex,
    work: &mut BlockInWork,
    tx: &Tx,
) -> Result<(), NoMemory>
    requires store { StoreFits chain.now.app.value.app (V.tables chain.now.versions) (V.history chain.now.versions) chain.now.blocks }
    requires number { 0 < work.old.number }
    requires few { length work.old.outcomes.items < most_transactions }
    requires consistent { IsConsistent (tables_of chain.now.app.value.app) work.old }
    ensures number { work.new.number ≡ work.old.number }
    ensures time { work.new.time ≡ work.old.time }
    ensures consistent { IsConsistent (tables_of chain.now.app.value.app) work.new }
    ensures count { OnOk result (length work.new.outcomes.items ≡ length work.old.outcomes.items + 1) }
    ensures same { OnErr result (work.new.outcomes.items ≡ work.old.outcomes.items) }
    ensures added { (before : Index) → AddsAmong before ids.old work.old.number work.old.outcomes.items → AddsAmong before ids.new work.old.number work.new.outcomes.items }
    ensures work { OnOk result ((sealed : List SealedBlock) → HoldsChain (tables_of chain.now.app.value.app) sealed (V.history chain.now.versions) chain.now.blocks
        → HasFirstPlaces ids.old sealed work.old.number work.old.outcomes.items
        → (work_of work.new ≡ work_on chain.now.app.value.app sealed work.old.number (work_of work.old) tx.now) × HasFirstPlaces ids.new sealed work.old.number work.new.outcomes.items) }
{
    let known = ids.find(&tx.id).is_some();
    work.reserve()?;
    let decided = decide(alloc, chain, known, work, tx)?;
    add_decided(alloc, ids, work, &tx.id, decided)
}

// Decides the transactions of a block. Where memory is wanting, some of them are decided.
fn decide_all<V: Versions>(
    alloc: Global,
    chain: &Chain<V>,
    ids: &mut IdIndex,
    work: &mut BlockInWork,
    txs: &[Tx],
) -> Result<(), NoMemory>
    requires store { StoreFits chain.now.app.value.app (V.tables chain.now.versions) (V.history chain.now.versions) chain.now.blocks }
    requires number { 0 < work.old.number }
    requires none { work.old.outcomes.items ≡ [] }
    requires few { length txs.now ≤ most_transactions }
    requires consistent { IsConsistent (tables_of chain.now.app.value.app) work.old }
    ensures number { work.new.number ≡ work.old.number }
    ensures time { work.new.time ≡ work.old.time }
    ensures consistent { IsConsistent (tables_of chain.now.app.value.app) work.new }
    ensures few { length work.new.outcomes.items ≤ most_transactions }
    ensures added { AddsAmong ids.old ids.new work.old.number work.new.outcomes.items }
    ensures work { OnOk result ((sealed : List SealedBlock) → HoldsChain (tables_of chain.now.app.value.app) sealed (V.history chain.now.versions) chain.now.blocks
        → HasFirstPlaces ids.old sealed work.old.number []
        → (work_of work.new ≡ work_through chain.now.app.value.app sealed work.old.number (work_of work.old) txs.now) × HasFirstPlaces ids.new sealed work.old.number work.new.outcomes.items) }
{
    let mut pays = true;
    for tx in txs {
        pays = look_ahead(alloc, chain, txs, work.outcomes.len(), pays);
        decide_next(alloc, chain, ids, work, tx)?;
    }
    Ok(())
}

/// Decides the transactions of the next block, and adds it to the chain. Where memory is wanting, the chain is as it was, and what was
/// decided of the block comes back, whose ids have been added.
pub fn add_block<V: Versions>(
    alloc: Global,
    chain: &mut Chain<V>,
    ids: &mut IdIndex,
    block: &Block,
) -> Result<(), (BlockInWork, NoMemory)>
    requires next { block.now.number ≡ length chain.old.blocks + 1 }
    requires store { StoreFits chain.old.app.value.app (V.tables chain.old.versions) (V.history chain.old.versions) chain.old.blocks }
    ensures app { chain.new.app.value ≡ chain.old.app.value }
    ensures store { StoreFits chain.new.app.value.app (V.tables chain.new.versions) (V.history chain.new.versions) chain.new.blocks }
    ensures count { OnOk result (length chain.new.blocks ≡ length chain.old.blocks + 1) }
    ensures upto { OnOk result (AreUpTo (length chain.old.blocks) ids.old → AreUpTo (length chain.new.blocks) ids.new) }
    ensures holds { OnOk result ((sealed : List SealedBlock) → HoldsChain (tables_of chain.old.app.value.app) sealed (V.history chain.old.versions) chain.old.blocks → HasFirstPlaces ids.old sealed 0 []
        → HoldsChain (tables_of chain.old.app.value.app) (sealed ++ seal chain.old.app.value.app sealed block.now ∷ []) (V.history chain.new.versions) chain.new.blocks
        × HasFirstPlaces ids.new (sealed ++ seal chain.old.app.value.app sealed block.now ∷ []) 0 []) }
    ensures same_history { OnErr result (V.history chain.new.versions ≡ V.history chain.old.versions) }
    ensures same_blocks { OnErr result (chain.new.blocks ≡ chain.old.blocks) }
    ensures back { IfErr result (λ refused. (refused.0.number ≡ block.now.number) × AddsAmong ids.old ids.new block.now.number refused.0.outcomes.items) }
{
    let mut work = BlockInWork::new(alloc, block);
    if let Err(refused) = decide_all(alloc, chain, ids, &mut work, block.txs.as_slice()) {
        return Err((work, refused));
    }
    chain.seal(work)
}
