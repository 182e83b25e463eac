//! The reads of a held job, and its end.

ghost use Rattle.std.specs.Prelude.{◌≡◌, IfErr, IfOk, OnErr, true};
ghost use Rattle.std.specs.Option.{IsSomeAnd, option_map};
ghost use Rattle.node_core.specs.Answers.{finished_of, got_of};
ghost use Rattle.node_core.specs.Ends.{stage_at_end, stage_given_back};
ghost use Rattle.node_core.specs.Rows.{put_row, row_at, status_of};
ghost use Rattle.node_model.specs.World.{is_held};
ghost use Rattle.rel_base.specs.Among.{ReadFitsIn};
ghost use Rattle.rel_base.specs.Late.{least_hit};
ghost use Rattle.rel_base.specs.Tables.{place_of, writes_between};

use crate::answers::{Finished, Got};
use crate::held_job::HeldJob;
use crate::jobs::Jobs;
use crate::kept_record::KeptRecord;
use crate::known::settled_in;
use crate::node::NodeCore;
use crate::room::make_room;
use node_model::{Entry, Event};
use rel_base::{NoMemory, Place, Read};
use row_sets::Versions;

// The place of the least write of the blocks above one height up to another that a read hits.
fn find_hit<V: Versions>(versions: &V, after: u64, upto: u64, read: &Read) -> Option<Place>
    requires fits { ReadFitsIn (V.tables versions.now) read.now }
    ensures { result ≡ option_map place_of (least_hit (V.tables versions.now) read.now (writes_between after upto (V.history versions.now))) }
{
    match versions.late_hit(after, upto, read) {
        None => None,
        Some(hit) => Some(hit.place),
    }
}

// The answer to a read that may be hit by a write at a place.
fn got_of(hit: Option<Place>) -> Got
    ensures { result ≡ got_of hit }
{
    match hit {
        None => Got::Rows,
        Some(place) => Got::Doomed { place },
    }
}

// Ends a held job, or drops it where its id is settled.
fn end_job(jobs: &mut Jobs, job: u64, settled: Option<u64>, recorded: KeptRecord) -> Finished
    requires held { IsSomeAnd (row_at jobs.old job) (λ row. is_held (status_of row.stage) ≡ true) }
    ensures rows { jobs.new ≡ put_row jobs.old job (stage_at_end settled recorded) }
    ensures answer { result ≡ finished_of settled }
{
    match settled {
        None => {
            jobs.finish(job, recorded);
            Finished::Kept
        }
        Some(number) => {
            jobs.drop_held(job);
            Finished::Gone { number }
        }
    }
}

// Lets a held job wait again, or drops it where its id is settled.
fn give_back(jobs: &mut Jobs, job: u64, settled: Option<u64>)
    requires held { IsSomeAnd (row_at jobs.old job) (λ row. is_held (status_of row.stage) ≡ true) }
    ensures rows { jobs.new ≡ put_row jobs.old job (stage_given_back settled) }
{
    match settled {
        None => jobs.release(job),
        Some(_) => jobs.drop_held(job),
    }
}

impl<V: Versions> NodeCore<V> {
    ghost use Rattle.node_core.specs.Answers.{finished_as, got_as};
    ghost use Rattle.node_core.specs.Core.{IsHeld, Steps};
    ghost use Rattle.node_core.specs.Hands.{IsAnswered};
    ghost use Rattle.node_core.specs.InHand.{IsReady, WantsRead};
    ghost use Rattle.node_model.specs.Steps.{Released, ToFinish, ToRead, ToRelease};

    /// Answers the read that a held job wants, from the tables of its height. Where a write of the blocks since hits it, the read is the
    /// last of a run that is cut; where the id is settled, nothing but the job's mark is changed.
    pub fn read(&mut self, work: &mut HeldJob) -> Result<Got, NoMemory>
        requires held { IsHeld self.old work.old }
        requires wants { WantsRead work.old }
        ensures step { IfOk result (λ got. Steps self.old work.old.actor (ToRead work.old.job) (got_as got) self.new) }
        ensures held { IfOk result (λ got. IsHeld self.new work.new) }
        ensures answered { IfOk result (λ got. IsAnswered got work.old work.new) }
        ensures err { OnErr result ((self.new ≡ self.old) × (work.new ≡ work.old)) }
    {
        let height = self.chain.height();
        if let Some(number) = settled_in(&self.ids, height, work.id()) {
            work.miss();
            return Ok(Got::Gone { number });
        }
        let after = work.height();
        let entry = Entry {
            actor: work.actor(),
            event: Event::Read { job: work.job() },
        };
        match work.wanted() {
            None => unreachable!(),
            Some(read) => {
                make_room(&mut self.journal, 1, self.jobs.held())?;
                let hit = find_hit(&self.chain.versions, after, height, read);
                let rows = self.chain.versions.visible(after, read)?;
                work.answer(rows, hit.is_some());
                self.journal.push_reserved(entry);
                Ok(got_of(hit))
            }
        }
    }

    /// Ends a held job that is ready. It is done, or dropped where its id is settled.
    pub fn finish(&mut self, work: HeldJob) -> Result<Finished, (HeldJob, NoMemory)>
        requires held { IsHeld self.old work }
        requires ready { IsReady work }
        ensures step { IfOk result (λ got. Steps self.old work.actor (ToFinish work.job) (finished_as got) self.new) }
        ensures err { OnErr result (self.new ≡ self.old) }
        ensures back { IfErr result (λ refused. refused.0 ≡ work) }
    {
        let room = match KeptRecord::room(self.alloc) {
            Ok(room) => room,
            Err(refused) => return Err((work, refused)),
        };
        let height = self.chain.height();
        let settled = settled_in(&self.ids, height, work.id());
        let job = work.job();
        let entry = Entry {
            actor: work.actor(),
            event: Event::Finish { job },
        };
        let recorded = work.into_record(self.alloc);
        self.journal.push_reserved(entry);
        Ok(end_job(&mut self.jobs, job, settled, room.with(recorded)))
    }

    /// Gives a held job up. It waits again with nothing read, or is dropped where its id is settled. Takes no memory: the claim took
    /// the room.
    pub fn release(&mut self, work: HeldJob)
        requires held { IsHeld self.old work }
        ensures { Steps self.old work.actor (ToRelease work.job) Released self.new }
    {
        self.give_up(&work);
    }

    /// The same of a held job that its caller drops.
    pub fn give_up(&mut self, work: &HeldJob)
        requires held { IsHeld self.old work.now }
        ensures { Steps self.old work.now.actor (ToRelease work.now.job) Released self.new }
    {
        let height = self.chain.height();
        let settled = settled_in(&self.ids, height, work.id());
        let job = work.job();
        self.journal.push_reserved(Entry {
            actor: work.actor(),
            event: Event::Release { job },
        });
        give_back(&mut self.jobs, job, settled);
    }
}
