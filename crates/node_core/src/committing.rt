//! The transactions of the block in work are decided in order.

ghost use Rattle.std.specs.Prelude.{◌≡◌, ◌<◌, ◌≤◌, ◌+◌, ◌++◌, ◌∷◌, IfOk, IsSome, List, OnErr, OnOk, Some, [], length, vec_capacity, vec_len};
ghost use Rattle.std.specs.Option.{option_map};
ghost use Rattle.block_work.specs.Block.{HasRoomForOne, IsConsistent, IsSameWork, work_of, work_with};
ghost use Rattle.block_work.specs.Causes.{IsCause, IsVerdictOn, outcome_of};
ghost use Rattle.block_work.specs.Chain.{StoreFits};
ghost use Rattle.block_work.specs.Ids.{AddsPlace, SamePlaces};
ghost use Rattle.node_core.specs.Deciding.{CanBeAdded, IsDecided, IsDone, outcome_by};
ghost use Rattle.node_core.specs.Kept.{shown_work};
ghost use Rattle.node_core.specs.Rows.{put_row};
ghost use Rattle.node_core.specs.declared.answers.Decided.TheVariants as decided;
ghost use Rattle.node_core.specs.declared.jobs.Stage.TheVariants.{Taken};
ghost use Rattle.node_model.specs.World.{due};
ghost use Rattle.node_model.specs.declared.journal.Event.TheVariants as event;
ghost use Rattle.proc_syntax.specs.Declaring.{tables_of};
ghost use Rattle.proc_syntax.specs.declared.call.Tx.{Tx};
ghost use Rattle.proc_syntax.specs.declared.run.Ran.{Ran};
ghost use Rattle.rel_base.specs.declared.schema.TableDef.{TableDef};
ghost use Rattle.proc_syntax.specs.Limits.{most_transactions};

use crate::answers::Decided;
use crate::claiming::due_tx;
use crate::delivered_block::DeliveredBlock;
use crate::due::{Due, due_by};
use crate::jobs::{JobRow, Jobs, Stage};
use crate::node::NodeCore;
use crate::room::make_room;
use block_work::{BlockInWork, Chain, IdIndex, Verdict};
use node_model::{Entry, Event, Outcome};
use proc_syntax::run::Ran;
use rel_base::{Id, NoMemory, Place, Twin};
use row_sets::Versions;
use std::alloc::Global;

// The position of the first undecided transaction of a block in work, from 1.
fn next_pos(working: &DeliveredBlock) -> u32
    requires few { length working.now.done.outcomes.items ≤ most_transactions }
    ensures { result ≡ length working.now.done.outcomes.items + 1 }
{
    working.done.outcomes.len() as u32 + 1
}

// Takes the room for the outcome of the first undecided transaction of a block in work, and notes its id: the id for the outcome. Where
// memory is wanting, no more than the room has changed.
fn make_ready(
    alloc: Global,
    ids: &mut IdIndex,
    working: &mut DeliveredBlock,
) -> Result<Id, NoMemory>
    requires few { length working.old.done.outcomes.items < most_transactions }
    requires due { IsSome (due (shown_work working.old)) }
    ensures block { working.new.block ≡ working.old.block }
    ensures same { IsSameWork working.old.done working.new.done }
    ensures consistent { (tables : List TableDef) → IsConsistent tables working.old.done → IsConsistent tables working.new.done }
    ensures id { IfOk result (λ id. option_map (λ tx. tx.id) (due (shown_work working.old)) ≡ Some id) }
    ensures room { OnOk result (HasRoomForOne working.new.done) }
    ensures added { IfOk result (λ id. AddsPlace ids.old ids.new id
        (record { block = working.old.done.number; pos = length working.old.done.outcomes.items + 1 })) }
    ensures same_places { OnErr result (SamePlaces ids.old ids.new) }
{
    let place = Place {
        block: working.done.number,
        pos: next_pos(working),
    };
    match due_tx(working) {
        None => unreachable!(),
        Some(tx) => {
            let id = tx.id.copy(alloc)?;
            let noted = tx.id.copy(alloc)?;
            working.done.reserve()?;
            ids.insert(noted, place)?;
            Ok(id)
        }
    }
}

// Aborts the first undecided transaction of a block in work for a cause. Where memory is wanting, no more than the room has changed.
fn abort_due(
    alloc: Global,
    ids: &mut IdIndex,
    working: &mut DeliveredBlock,
    cause: Outcome,
) -> Result<(), NoMemory>
    requires few { length working.old.done.outcomes.items < most_transactions }
    requires due { IsSome (due (shown_work working.old)) }
    requires cause { IsCause cause }
    ensures decided { OnOk result ((tx : Tx) → due (shown_work working.old) ≡ Some tx → (ran : Ran)
        → IsDecided working.old working.new ids.old ids.new tx ran cause) }
    ensures consistent { (tables : List TableDef) → IsConsistent tables working.old.done → IsConsistent tables working.new.done }
    ensures block { working.new.block ≡ working.old.block }
    ensures same { OnErr result (IsSameWork working.old.done working.new.done) }
    ensures same_places { OnErr result (SamePlaces ids.old ids.new) }
{
    let id = make_ready(alloc, ids, working)?;
    working.done.abort(id, cause);
    Ok(())
}

// Adds what was decided of a transaction by its run. Takes no memory.
fn add_decided(work: &mut BlockInWork, id: Id, ran: Ran, verdict: Verdict)
    requires few { length work.old.outcomes.items < most_transactions }
    requires room { HasRoomForOne work.old }
    requires sound { (tables : List TableDef) × CanBeAdded tables work.old ran verdict }
    ensures number { work.new.number ≡ work.old.number }
    ensures time { work.new.time ≡ work.old.time }
    ensures work { work_of work.new ≡ work_with (work_of work.old) id ran (outcome_of verdict) }
    ensures consistent { (tables : List TableDef) → CanBeAdded tables work.old ran verdict → IsConsistent tables work.new }
{
    match verdict {
        Verdict::Commits(edges) => work.commit(id, ran, &edges),
        Verdict::Aborts(cause) => work.abort(id, cause),
    }
}

// What is decided of the transaction of a done job by what is recorded of its run.
fn judge_job<V: Versions>(
    chain: &Chain<V>,
    jobs: &Jobs,
    work: &BlockInWork,
    number: u64,
) -> Result<Verdict, NoMemory>
    requires done { IsDone (tables_of chain.now.app.value.app) jobs.now number }
    requires store { StoreFits chain.now.app.value.app (V.tables chain.now.versions) (V.history chain.now.versions) chain.now.blocks }
    requires number { 0 < work.now.number }
    requires few { length work.now.outcomes.items < most_transactions }
    requires consistent { IsConsistent (tables_of chain.now.app.value.app) work.now }
    ensures outcome { IfOk result (λ verdict. (done : IsDone (tables_of chain.now.app.value.app) jobs.now number)
        → outcome_of verdict ≡ outcome_by chain.now.app.value.app.exact (tables_of chain.now.app.value.app) (V.history chain.now.versions) work.now jobs.now done) }
    ensures sound { IfOk result (λ verdict. (done : IsDone (tables_of chain.now.app.value.app) jobs.now number)
        → IsVerdictOn (tables_of chain.now.app.value.app) work.now.committed.items done.recorded.ran verdict) }
{
    match jobs.get(number) {
        Some(
            JobRow {
                tx,
                stage: Stage::Done(recorded),
            },
        ) => chain.judge(work, &recorded.get().ran, tx.height),
        _ => unreachable!(),
    }
}

// Decides the first undecided transaction of a block in work by what is recorded of the run of a done job, which leaves the table. Where
// memory is wanting, no more than the room has changed.
fn decide_due<V: Versions>(
    alloc: Global,
    chain: &Chain<V>,
    ids: &mut IdIndex,
    jobs: &mut Jobs,
    working: &mut DeliveredBlock,
    number: u64,
) -> Result<(), NoMemory>
    requires done { IsDone (tables_of chain.now.app.value.app) jobs.old number }
    requires store { StoreFits chain.now.app.value.app (V.tables chain.now.versions) (V.history chain.now.versions) chain.now.blocks }
    requires number { 0 < working.old.done.number }
    requires few { length working.old.done.outcomes.items < most_transactions }
    requires due { IsSome (due (shown_work working.old)) }
    requires consistent { IsConsistent (tables_of chain.now.app.value.app) working.old.done }
    ensures decided { OnOk result ((tx : Tx) → due (shown_work working.old) ≡ Some tx → (done : IsDone (tables_of chain.now.app.value.app) jobs.old number)
        → IsDecided working.old working.new ids.old ids.new tx done.recorded.ran
        (outcome_by chain.now.app.value.app.exact (tables_of chain.now.app.value.app) (V.history chain.now.versions) working.old.done jobs.old done)) }
    ensures consistent { IsConsistent (tables_of chain.now.app.value.app) working.new.done }
    ensures block { working.new.block ≡ working.old.block }
    ensures rows { OnOk result (jobs.new ≡ put_row jobs.old number Taken) }
    ensures same { OnErr result (IsSameWork working.old.done working.new.done) }
    ensures same_places { OnErr result (SamePlaces ids.old ids.new) }
    ensures same_rows { OnErr result (jobs.new ≡ jobs.old) }
{
    let verdict = judge_job(chain, jobs, &working.done, number)?;
    let id = make_ready(alloc, ids, working)?;
    let recorded = jobs.take(number);
    add_decided(&mut working.done, id, recorded.ran, verdict);
    Ok(())
}

// Notes that the transaction at a position was decided, for which there is room.
fn note_decided(journal: &mut Vec<Entry>, actor: u32, pos: u32) -> Decided
    requires room { vec_len journal.old < vec_capacity journal.old }
    ensures items { journal.new.items ≡ journal.old.items ++ record { actor = actor; event = event.Commit pos } ∷ [] }
    ensures len { vec_len journal.new ≡ vec_len journal.old + 1 }
    ensures capacity { vec_capacity journal.new ≡ vec_capacity journal.old }
    ensures answer { result ≡ decided.Outcome pos }
{
    journal.push_reserved(Entry {
        actor,
        event: Event::Commit { pos },
    });
    Decided::Outcome { pos }
}

impl<V: Versions> NodeCore<V> {
    ghost use Rattle.node_core.specs.Answers.{decided_as};
    ghost use Rattle.node_core.specs.Core.{Steps};
    ghost use Rattle.node_model.specs.Steps.{ToCommit};

    /// Decides the first undecided transaction of the block in work, by a cause that is known without a run or by what is recorded of its
    /// job's run. Only the processor, which is actor 0, decides. All growth is made before any change.
    pub fn commit(&mut self, actor: u32) -> Result<Decided, NoMemory>
        requires processor { actor ≡ 0 }
        ensures step { IfOk result (λ got. Steps self.old actor ToCommit (decided_as got) self.new) }
        ensures err { OnErr result (self.new ≡ self.old) }
    {
        let sealed = self.chain.height();
        match &mut self.work {
            None => Ok(Decided::NoBlock { sealed }),
            Some(working) => {
                let pos = next_pos(working);
                match due_by(&self.chain.app, &self.ids, working, &self.jobs) {
                    Due::Nothing => Ok(Decided::AllDecided {
                        number: working.block.get().number,
                    }),
                    Due::Waits(holder) => Ok(Decided::NotReady { pos, holder }),
                    Due::Early(cause) => {
                        make_room(&mut self.journal, 1, self.jobs.held())?;
                        abort_due(self.alloc, &mut self.ids, working, cause)?;
                        Ok(note_decided(&mut self.journal, actor, pos))
                    }
                    Due::Done(number) => {
                        make_room(&mut self.journal, 1, self.jobs.held())?;
                        decide_due(
                            self.alloc,
                            &self.chain,
                            &mut self.ids,
                            &mut self.jobs,
                            working,
                            number,
                        )?;
                        Ok(note_decided(&mut self.journal, actor, pos))
                    }
                }
            }
        }
    }
}
