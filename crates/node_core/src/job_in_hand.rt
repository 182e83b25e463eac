//! What an actor has of a job that it holds.

ghost use Rattle.std.specs.Prelude.{◌≡◌, ◌≤◌, IfOk, IfSome, IsSome, OnErr, None, false, true};
ghost use Rattle.std.specs.Option.{option_copied};
ghost use Rattle.proc_run.specs.Remains.{StandInOrder};
ghost use Rattle.proc_syntax.specs.Declaring.{tables_of};
ghost use Rattle.proc_syntax.specs.Limits.{most_steps};
ghost use Rattle.rel_base.specs.Among.{ReadFitsIn};

use crate::answers::Next;
use crate::jobs::Record;
use proc_run::{Machine, Want};
use proc_syntax::Tx;
use proc_syntax::run::{Ending, Ran};
use rel_base::{Id, List, NoMemory, Read, Seen};
use std::alloc::Global;
use std::marker::Model;
use std::sync::Arc;

/// A job that an actor holds, with its run so far.
pub struct JobInHand {
    job: u64,
    actor: u32,
    tx: Arc<Tx>,
    machine: Machine,
    /// The read for whose rows the machine waits.
    wants: Option<Read>,
    /// Whether the machine has come to the end.
    ended: bool,
    /// Whether the run was cut, after a read that is late.
    cut: bool,
    /// Whether the last read found that the id is settled.
    gone: bool,
    /// The number of rows of the read that got most.
    most_rows: usize,
}

impl Drop for JobInHand {
    fn drop(self) {
        let JobInHand {
            job: _,
            actor: _,
            tx: _,
            machine: _,
            wants: _,
            ended: _,
            cut: _,
            gone: _,
            most_rows: _,
        } = self;
    }
}

impl Model for JobInHand {
    ghost use Rattle.std.specs.Coded.{codes};
    ghost use Rattle.rel_base.specs.contracts.access.Made as made_code;
    ghost use Rattle.rel_base.specs.contracts.access.Read as read_code;
    ghost use Rattle.proc_syntax.specs.contracts.call.Tx as tx_code;
    ghost use Rattle.proc_syntax.specs.contracts.tree.App as app_code;
    ghost use Rattle.node_core.specs.InHand.{InHand, IsInHand};

    ghost Value = { InHand };

    ghost coded = { Prim.hlevel (codes, app_code.the_row.coded, tx_code.the_row.coded, made_code.the_row.coded, read_code.the_row.coded) };

    ghost view = { λ work. record { job = work.job; actor = work.actor; told = work.machine; cut = work.cut; gone = work.gone } };

    ghost invariant = { λ work. IsInHand work.tx.value work.machine work.wants work.ended work.cut };
}

impl JobInHand {
    ghost use Rattle.node_core.specs.InHand.{AreAllReads, IsNextRead, IsReady, IsRecordOf, IsSameRun, with_read};
    ghost use Rattle.node_core.specs.Hands.{GoesOn, Says};

    /// A job as an actor takes it, with a machine that has not begun.
    pub fn new(job: u64, actor: u32, tx: Arc<Tx>, machine: Machine) -> JobInHand
        requires same { machine.tx ≡ tx.value }
        requires fresh { (machine.asks ≡ None) × (machine.ended ≡ false) }
        ensures { result ≡ record { job = job; actor = actor; told = machine; cut = false; gone = false } }
    {
        JobInHand {
            job,
            actor,
            tx,
            machine,
            wants: None,
            ended: false,
            cut: false,
            gone: false,
            most_rows: 0,
        }
    }

    /// The number of the job.
    pub fn job(&self) -> u64
        ensures { result ≡ self.now.job }
    {
        self.job
    }

    /// The actor that holds it.
    pub fn actor(&self) -> u32
        ensures { result ≡ self.now.actor }
    {
        self.actor
    }

    /// The id of its transaction.
    pub fn id(&self) -> &Id
        ensures { result.now ≡ self.now.told.tx.id }
    {
        &self.tx.id
    }

    /// The height whose tables it reads.
    pub fn height(&self) -> u64
        ensures { result ≡ self.now.told.tx.height }
    {
        self.tx.height
    }

    /// The number of steps that its run took so far.
    pub fn steps(&self) -> u32
        ensures few { result ≤ most_steps }
    {
        self.machine.steps()
    }

    /// The number of rows of its read that got most so far.
    pub fn most_rows(&self) -> usize {
        self.most_rows
    }

    /// Runs to the next read or to the end, where it is at neither. Where memory is wanting, it is as before and may be asked again.
    pub fn advance(&mut self) -> Result<Next, NoMemory>
        ensures says { IfOk result (λ next. Says next self.new) }
        ensures may { IfOk result (λ next. GoesOn next self.new) }
        ensures same { IsSameRun self.old self.new }
        ensures err { OnErr result (self.new ≡ self.old) }
    {
        if self.gone {
            return Ok(Next::Gone);
        }
        if self.cut || self.ended {
            return Ok(Next::Ready);
        }
        if self.wants.is_some() {
            return Ok(Next::Wants);
        }
        match self.machine.next()? {
            Want::Rows(read) => {
                self.wants = Some(read);
                Ok(Next::Wants)
            }
            Want::Ended => {
                self.ended = true;
                Ok(Next::Ready)
            }
        }
    }

    /// The read that it wants, which fits its table, and is the next of the run.
    pub fn wanted(&self) -> Option<&Read>
        ensures wanted { option_copied result ≡ self.now.told.asks }
        ensures next { IfSome self.now.told.asks (IsNextRead self.now.told) }
        ensures fits { IfSome self.now.told.asks (ReadFitsIn (tables_of self.now.told.app)) }
        ensures not_cut { IsSome self.now.told.asks → self.now.cut ≡ false }
    {
        self.wants.as_ref()
    }

    /// Takes the rows of the read that it wants, after which its run may be cut. Takes no memory.
    pub fn answer(&mut self, rows: List<Seen>, cut: bool)
        requires wants { IsSome self.old.told.asks }
        requires order { IfSome self.old.told.asks (λ read. StandInOrder (tables_of self.old.told.app) read rows) }
        ensures { IfSome self.old.told.asks (λ read. self.new ≡ with_read self.old read rows cut) }
    {
        self.most_rows = self.most_rows.max(rows.len());
        self.machine.feed(rows);
        self.wants = None;
        self.cut = cut;
    }

    /// Notes that its read found the id settled.
    pub fn miss(&mut self)
        ensures { self.new ≡ record self.old { gone = true } }
    {
        self.gone = true;
    }

    /// What is recorded of the run at its end. Takes no memory.
    pub fn into_record(self, alloc: Global) -> Record
        requires ready { IsReady self }
        ensures record { IsRecordOf self result }
        ensures all { self.cut ≡ false → AreAllReads self.told }
    {
        let JobInHand {
            machine,
            cut,
            job: _,
            actor: _,
            tx: _,
            wants: _,
            ended: _,
            gone: _,
            most_rows: _,
        } = self;
        let ran = if cut {
            Ran {
                reads: machine.cut(),
                writes: List::new(alloc),
                ending: Ending::Good,
            }
        } else {
            machine.finish()
        };
        Record { ran, cut }
    }
}
