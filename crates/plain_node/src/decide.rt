//! What becomes of a transaction.

ghost use Rattle.std.specs.Prelude.{◌≡◌, ◌<◌, ◌++◌, IfOk, List, length};
ghost use Rattle.std.specs.List.{list_any};
ghost use Rattle.std.specs.Str.{bytes_eq};
ghost use Rattle.block_work.specs.Block.{HasRoomForOne, IsConsistent, work_of, work_with};
ghost use Rattle.block_work.specs.Causes.{RunFits};
ghost use Rattle.block_work.specs.Chain.{HoldsChain, StoreFits};
ghost use Rattle.node_model.specs.Decide.{by_run, or_committed, run_at, writes_since};
ghost use Rattle.node_model.specs.Fold.{work_on};
ghost use Rattle.node_model.specs.History.{SealedBlock, ids_of, ids_told};
ghost use Rattle.plain_node.specs.Deciding.{IsDecision, with_decided};
ghost use Rattle.proc_syntax.specs.Declaring.{tables_of};
ghost use Rattle.proc_syntax.specs.Run.{run};
ghost use Rattle.rel_base.specs.Tables.{tables_at};
ghost use Rattle.rel_base.specs.declared.schema.TableDef.{TableDef};
ghost use Rattle.proc_syntax.specs.Limits.{most_transactions};

use crate::moment::Moment;
use block_work::{BlockInWork, Chain, Verdict, early_cause};
use direct_run::run_directly;
use node_model::Outcome;
use proc_syntax::Tx;
use proc_syntax::run::Ran;
use rel_base::{Id, NoMemory};
use row_sets::Versions;
use rw_graph::Edges;
use std::alloc::Global;

/// What is decided of a transaction: that it commits, with its run and its edges, or that it is aborted for a cause.
#[derive(Drop)]
pub enum TxDecision {
    Commits { ran: Ran, edges: Edges },
    Aborts(Outcome),
}

// The run of a transaction on the tables of its height, at a time.
fn run_at_time<V: Versions>(
    alloc: Global,
    chain: &Chain<V>,
    tx: &Tx,
    time: i64,
) -> Result<Ran, NoMemory>
    requires store { StoreFits chain.now.app.value.app (V.tables chain.now.versions) (V.history chain.now.versions) chain.now.blocks }
    ensures { IfOk result (λ ran. ran ≡ run chain.now.app.value.app tx.now time (tables_at tx.now.height (V.history chain.now.versions))) }
{
    let moment = Moment {
        versions: &chain.versions,
        height: tx.height,
    };
    run_directly(alloc, &chain.app, tx, time, &moment)
}

// The run of a transaction, at the time of the block of its height.
fn run_tx<V: Versions>(alloc: Global, chain: &Chain<V>, tx: &Tx) -> Result<Ran, NoMemory>
    requires store { StoreFits chain.now.app.value.app (V.tables chain.now.versions) (V.history chain.now.versions) chain.now.blocks }
    ensures run { IfOk result (λ ran. (sealed : List SealedBlock) → HoldsChain (tables_of chain.now.app.value.app) sealed (V.history chain.now.versions) chain.now.blocks
        → ran ≡ run_at chain.now.app.value.app sealed tx.now) }
    ensures fits { IfOk result (λ ran. RunFits (tables_of chain.now.app.value.app) ran) }
{
    let time = chain.time_of(tx.height);
    let ran = run_at_time(alloc, chain, tx, time)?;
    Ok(ran)
}

// What is decided of a transaction by its run, where nothing aborts it without one.
fn decide_run<V: Versions>(
    alloc: Global,
    chain: &Chain<V>,
    work: &BlockInWork,
    tx: &Tx,
) -> Result<TxDecision, NoMemory>
    requires store { StoreFits chain.now.app.value.app (V.tables chain.now.versions) (V.history chain.now.versions) chain.now.blocks }
    requires number { 0 < work.now.number }
    requires few { length work.now.outcomes.items < most_transactions }
    requires consistent { IsConsistent (tables_of chain.now.app.value.app) work.now }
    ensures work { IfOk result (λ decided. (sealed : List SealedBlock) → HoldsChain (tables_of chain.now.app.value.app) sealed (V.history chain.now.versions) chain.now.blocks
        → with_decided (work_of work.now) tx.now.id decided ≡ work_with (work_of work.now) tx.now.id (run_at chain.now.app.value.app sealed tx.now)
        (or_committed (by_run chain.now.app.value.app.exact (tables_of chain.now.app.value.app) (writes_since sealed work.now.number tx.now) work.now.committed.items (run_at chain.now.app.value.app sealed tx.now)))) }
    ensures decision { IfOk result (λ decided. IsDecision (tables_of chain.now.app.value.app) work.now decided) }
{
    let ran = run_tx(alloc, chain, tx)?;
    match chain.judge(work, &ran, tx.height)? {
        Verdict::Aborts(cause) => Ok(TxDecision::Aborts(cause)),
        Verdict::Commits(edges) => Ok(TxDecision::Commits { ran, edges }),
    }
}

/// Decides a transaction of a block in work, where it is known whether its id stands earlier in the chain.
pub fn decide<V: Versions>(
    alloc: Global,
    chain: &Chain<V>,
    known: bool,
    work: &BlockInWork,
    tx: &Tx,
) -> Result<TxDecision, NoMemory>
    requires store { StoreFits chain.now.app.value.app (V.tables chain.now.versions) (V.history chain.now.versions) chain.now.blocks }
    requires number { 0 < work.now.number }
    requires few { length work.now.outcomes.items < most_transactions }
    requires consistent { IsConsistent (tables_of chain.now.app.value.app) work.now }
    ensures work { IfOk result (λ decided. (sealed : List SealedBlock) → HoldsChain (tables_of chain.now.app.value.app) sealed (V.history chain.now.versions) chain.now.blocks
        → known ≡ list_any (bytes_eq tx.now.id) (ids_of sealed ++ ids_told work.now.outcomes.items)
        → with_decided (work_of work.now) tx.now.id decided ≡ work_on chain.now.app.value.app sealed work.now.number (work_of work.now) tx.now) }
    ensures decision { IfOk result (λ decided. IsDecision (tables_of chain.now.app.value.app) work.now decided) }
{
    match early_cause(&chain.app, known, work.number, tx) {
        Some(cause) => Ok(TxDecision::Aborts(cause)),
        None => decide_run(alloc, chain, work, tx),
    }
}

/// Adds what is decided of a transaction. Takes no memory.
pub fn add(work: &mut BlockInWork, id: Id, decided: TxDecision)
    requires few { length work.old.outcomes.items < most_transactions }
    requires room { HasRoomForOne work.old }
    requires decision { (tables : List TableDef) × IsDecision tables work.old decided }
    ensures number { work.new.number ≡ work.old.number }
    ensures time { work.new.time ≡ work.old.time }
    ensures work { work_of work.new ≡ with_decided (work_of work.old) id decided }
    ensures consistent { (tables : List TableDef) → IsConsistent tables work.old → IsDecision tables work.old decided → IsConsistent tables work.new }
{
    match decided {
        TxDecision::Commits { ran, edges } => work.commit(id, ran, &edges),
        TxDecision::Aborts(cause) => work.abort(id, cause),
    }
}
