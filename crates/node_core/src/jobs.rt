//! What a node keeps of its jobs.

ghost use Rattle.std.specs.Prelude.{◌≡◌, ◌<◌, ◌≤◌, ◌+◌, ◌%◌, ◌^◌, ◌++◌, ◌∷◌, IsSome, IsSomeAnd, OnErr, OnOk, Some, [], length, map, slice_get, true};
ghost use Rattle.std.specs.Option.{option_copied, option_map};
ghost use Rattle.node_model.specs.World.{eligible, is_held, is_waiting, number_of_job};

use crate::bounds::WaitBounds;
use crate::dropping::drop_all;
use crate::index::{JobIndex, hold_all};
use crate::job_rows::{change_stage, is_waiting, one_held, push_row, push_rows};
use crate::kept_record::KeptRecord;
use crate::lookup::find_near;
use proc_syntax::Tx;
use proc_syntax::run::Ran;
use rel_base::NoMemory;
use std::alloc::Global;
use std::marker::Model;
use std::sync::Arc;

/// What is recorded of the run of a done job.
#[derive(Drop)]
pub struct Record {
    pub ran: Ran,
    /// Whether the run was cut short, after a read that is late.
    pub cut: bool,
}

/// How far a job is.
#[derive(Drop)]
pub enum Stage {
    /// It waits for an actor.
    Waiting,
    /// This actor holds it, with what is recorded of its run.
    Held(u32),
    /// It is done.
    Done(KeptRecord),
    /// It is done, and what was recorded of its run was taken to decide its transaction.
    Taken,
    /// It is over.
    Dropped,
}

/// A job: its transaction, and how far it is.
#[derive(Drop)]
pub struct JobRow {
    pub tx: Arc<Tx>,
    pub stage: Stage,
}

/// The jobs of a node, numbered from 1 in the order in which they came about. Contracts see the list of their rows.
#[derive(Drop)]
pub struct Jobs {
    rows: Vec<JobRow>,
    held: usize,
    // Where a claim looks for a job.
    bounds: WaitBounds,
    index: JobIndex,
    // The place after the job that was decided last, where the next one that is due mostly stands.
    guess: usize,
}

impl Model for Jobs {
    ghost use Rattle.std.specs.Prelude.{◌≡◌, List};
    ghost use Rattle.node_core.specs.declared.jobs.JobRow.{JobRow};

    ghost Value = { List JobRow };

    ghost use Rattle.node_core.specs.JobTable.{IsTable};

    ghost view = { λ jobs. jobs.rows.items };

    ghost invariant = { λ jobs. IsTable jobs.rows.items jobs.held jobs.bounds jobs.index };
}

impl Jobs {
    ghost use Rattle.node_core.specs.Over.{drop_among};
    ghost use Rattle.node_core.specs.Rows.{count_held, new_row, put_row, row_waits, row_at, shown_all, status_of};
    ghost use Rattle.node_core.specs.declared.jobs.Stage.TheVariants.{Done, Dropped, Held, Taken, Waiting};

    /// No jobs.
    pub fn new(alloc: Global) -> Jobs
        ensures { result ≡ [] }
    {
        Jobs {
            rows: Vec::new(alloc),
            held: 0,
            bounds: WaitBounds::new(),
            index: JobIndex::new(alloc),
            guess: 0,
        }
    }

    /// How many jobs there are, those that are over among them.
    pub fn len(&self) -> u64
        ensures len { result ≡ length self.now }
        ensures few { result < 2 ^ 63 }
    {
        self.rows.len() as u64
    }

    /// How many jobs are held.
    pub fn held(&self) -> usize
        ensures { result ≡ count_held self.now }
    {
        self.held
    }

    /// The number of a transaction's job that is not dropped.
    pub fn find(&self, tx: &Tx) -> Option<u64>
        ensures { result ≡ number_of_job tx.now (shown_all self.now) }
    {
        find_near(self.rows.as_slice(), &self.index, tx, self.guess)
    }

    /// Of the jobs that wait and whose height is at most the given one, in order of number, the one at `n` modulo their count. The jobs
    /// stay as they are, and only what is known of them grows: where `n` is 0, the jobs before the one that is found are not walked again at
    /// this height, but for those that come to wait again.
    pub fn find_nth(&mut self, height: u64, n: u64) -> Option<u64>
        ensures found { result ≡ slice_get (eligible height (shown_all self.old)) (n % length (eligible height (shown_all self.old))) }
        ensures same { self.new ≡ self.old }
    {
        if n == 0 {
            return self.bounds.find_first(self.rows.as_slice(), height);
        }
        self.bounds.find_nth(self.rows.as_slice(), height, n)
    }

    /// The job of a number.
    pub fn get(&self, number: u64) -> Option<&JobRow>
        ensures { option_copied result ≡ row_at self.now number }
    {
        match number.checked_sub(1) {
            None => None,
            Some(place) => self.rows.as_slice().get(place as usize),
        }
    }

    /// Whether the job of a number is there and waits.
    pub fn waits(&self, number: u64) -> bool
        ensures { result ≡ row_waits (row_at self.now number) }
    {
        match self.get(number) {
            None => false,
            Some(row) => is_waiting(&row.stage),
        }
    }

    /// Drops the jobs that wait or are done and whose ids are those of some transactions. Takes no memory.
    pub fn drop_ids(&mut self, txs: &[Tx])
        ensures { self.new ≡ map (drop_among (map (λ tx. tx.id) txs.now)) self.old }
    {
        drop_all(&mut self.rows, &self.index, txs);
    }

    /// Adds a job that waits. Where memory is wanting, the jobs are as before.
    pub fn add(&mut self, tx: Arc<Tx>) -> Result<(), NoMemory>
        ensures ok { OnOk result (self.new ≡ self.old ++ new_row tx ∷ []) }
        ensures err { OnErr result (self.new ≡ self.old) }
    {
        self.rows.reserve(1)?;
        self.index.reserve(1)?;
        self.index.hold(&tx.id)?;
        push_row(&mut self.rows, &mut self.index, tx);
        Ok(())
    }

    /// Adds jobs that wait, or none where memory is wanting.
    pub fn add_all(&mut self, txs: Vec<Arc<Tx>>) -> Result<(), NoMemory>
        ensures ok { OnOk result (self.new ≡ self.old ++ map new_row txs.items) }
        ensures err { OnErr result (self.new ≡ self.old) }
    {
        self.rows.reserve(txs.len())?;
        self.index.reserve(txs.len())?;
        hold_all(&mut self.index, txs.as_slice())?;
        push_rows(&mut self.rows, &mut self.index, txs);
        Ok(())
    }

    // Gives a job another stage, and answers the one that it had.
    fn set(&mut self, number: u64, stage: Stage) -> Stage
        requires { IsSome (row_at self.old number) }
        ensures was { option_map (λ row. row.stage) (row_at self.old number) ≡ Some result }
        ensures now { self.new ≡ put_row self.old number stage }
    {
        let place = (number - 1) as usize;
        let more = one_held(&stage);
        let was = change_stage(&mut self.rows, place, stage);
        self.held = self.held - one_held(&was) + more;
        self.bounds.change(self.rows.as_slice(), place);
        was
    }

    /// Gives a job that waits to an actor. Takes no memory.
    pub fn hold(&mut self, number: u64, actor: u32)
        requires { IsSomeAnd (row_at self.old number) (λ row. is_waiting (status_of row.stage) ≡ true) }
        ensures { self.new ≡ put_row self.old number (Held actor) }
    {
        let _ = self.set(number, Stage::Held(actor));
    }

    /// Ends a held job, with what is recorded of its run. Takes no memory.
    pub fn finish(&mut self, number: u64, recorded: KeptRecord)
        requires { IsSomeAnd (row_at self.old number) (λ row. is_held (status_of row.stage) ≡ true) }
        ensures { self.new ≡ put_row self.old number (Done recorded) }
    {
        let _ = self.set(number, Stage::Done(recorded));
    }

    /// Lets a held job wait again. Takes no memory.
    pub fn release(&mut self, number: u64)
        requires { IsSomeAnd (row_at self.old number) (λ row. is_held (status_of row.stage) ≡ true) }
        ensures { self.new ≡ put_row self.old number Waiting }
    {
        let _ = self.set(number, Stage::Waiting);
    }

    /// Takes what is recorded of the run of a done job. Takes no memory.
    pub fn take(&mut self, number: u64) -> Record
        requires { (recorded : _) × option_map (λ row. row.stage) (row_at self.old number) ≡ Some (Done recorded) }
        ensures record { option_map (λ row. row.stage) (row_at self.old number) ≡ Some (Done result) }
        ensures now { self.new ≡ put_row self.old number Taken }
    {
        self.guess = number as usize;
        match self.set(number, Stage::Taken) {
            Stage::Done(recorded) => recorded.into_record(),
            _ => unreachable!(),
        }
    }

    /// Drops a held job. Takes no memory.
    pub fn drop_held(&mut self, number: u64)
        requires { IsSomeAnd (row_at self.old number) (λ row. is_held (status_of row.stage) ≡ true) }
        ensures { self.new ≡ put_row self.old number Dropped }
    {
        let _ = self.set(number, Stage::Dropped);
    }
}
