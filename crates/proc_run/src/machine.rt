//! The machine.

ghost use Rattle.std.specs.Prelude.{◌≡◌, ◌≤◌, [], ◌∷◌, ◌++◌, None, IfOk, OnErr, IfSome, IsSome, true, false};
ghost use Rattle.rel_base.specs.Tables.{Tables};
ghost use Rattle.proc_syntax.specs.Declaring.{tables_of};
ghost use Rattle.proc_syntax.specs.Limits.{most_steps};
ghost use Rattle.proc_syntax.specs.Run.{run};
ghost use Rattle.proc_run.specs.Remains.{StandInOrder};
ghost use Rattle.proc_run.specs.declared.path.Branch.TheVariants.{Whole};
ghost use Rattle.proc_run.specs.declared.path.Spot.TheVariants.{Block};
ghost use Rattle.proc_run.specs.MachineView.{Agrees, IsNextWant, Tells, WantFits};

use crate::going::{gives, go_to_read, keep, stand, wanted};
use crate::path::{Branch, Spot};
use crate::start::begin_call;
use crate::state::{Phase, Run, Want};
use proc_check::Checked;
use proc_syntax::{Ran, Tx};
use rel_base::{List, Made, NoMemory, Seen, Twin};
use std::alloc::Global;
use std::marker::Model;
use std::sync::Arc;

/// A machine that runs a call of a checked application, and gives itself back at each read. It borrows nothing.
pub struct Machine {
    alloc: Global,
    app: Arc<Checked>,
    tx: Tx,
    time: i64,
    /// The number of the procedure.
    number: usize,
    spots: Vec<Spot>,
    run: Run,
    phase: Phase,
    /// Whether the read for whose rows it waits, or its end, was reported.
    told: bool,
}

impl Drop for Machine {
    fn drop(self) {
        let Machine {
            alloc: _,
            app: _,
            tx: _,
            time: _,
            number: _,
            spots: _,
            run: _,
            phase: _,
            told: _,
        } = self;
    }
}

impl Model for Machine {
    ghost use Rattle.std.specs.Prelude.{◌++◌, ◌&&◌, cond, None, is_none};
    ghost use Rattle.std.specs.Coded.{codes};
    ghost use Rattle.rel_base.specs.contracts.access.Made as made_code;
    ghost use Rattle.rel_base.specs.contracts.access.Read as read_code;
    ghost use Rattle.proc_syntax.specs.contracts.call.Tx as tx_code;
    ghost use Rattle.proc_syntax.specs.contracts.tree.App as app_code;
    ghost use Rattle.proc_run.specs.MachineView.{MachineView, IsSound, given_of, read_of};

    ghost Value = { MachineView };

    ghost coded = { Prim.hlevel (codes, app_code.the_row.coded, tx_code.the_row.coded, made_code.the_row.coded, read_code.the_row.coded) };

    ghost view = { λ m. record { app = m.app.value.app; tx = m.tx; time = m.time; fed = m.run.made.items ++ given_of m.phase; asks = cond m.told (read_of m.phase) None; ended = m.told && is_none (read_of m.phase) } };

    ghost invariant = { λ m. IsSound m.app.value.app m.tx m.time m.number m.phase m.spots.items m.run m.told };
}

/// Room for the path of a call whose statements are nested four deep, as most are.
const SPOTS: usize = 8;

/// An application and a call to be kept, with the path to the first statement of a procedure.
fn hold_call(
    alloc: Global,
    app: &Arc<Checked>,
    tx: &Tx,
) -> Result<(Arc<Checked>, Tx, Vec<Spot>), NoMemory>
    ensures app { IfOk result (λ held. held.0.value ≡ app.now.value) }
    ensures tx { IfOk result (λ held. held.1 ≡ tx.now) }
    ensures spots { IfOk result (λ held. held.2.items ≡ Block 0 Whole 0 ∷ []) }
{
    let mut spots = Vec::with_capacity(alloc, SPOTS)?;
    spots.push(Spot::Block {
        at: 0,
        branch: Branch::Whole,
        next: 0,
    })?;
    Ok((app.clone()?, tx.copy(alloc)?, spots))
}

impl Machine {
    /// A machine before its first step, with the call at a time in seconds, which is what `now` is in its run. The run of a call that can not begin, which
    /// `Checked::call_fault` tells, has no read and is ill typed.
    pub fn start(alloc: Global, app: &Arc<Checked>, tx: &Tx, now: i64) -> Result<Machine, NoMemory>
        ensures { IfOk result (λ machine. machine ≡ record { app = app.now.value.app; tx = tx.now; time = now; fed = []; asks = None; ended = false }) }
    {
        let (app, tx, spots) = hold_call(alloc, app, tx)?;
        let begun = begin_call(alloc, app.code(), &tx, now)?;
        Ok(Machine {
            alloc,
            app,
            tx,
            time: now,
            number: begun.number,
            spots,
            run: begun.run,
            phase: begun.phase,
            told: false,
        })
    }

    /// Runs to the next read or to the end. The read is the next of the run, on any tables on which the reads so far have the rows
    /// that were fed; at the end, the reads so far are all that the run makes there. The read fits its table. Where memory is wanting,
    /// the machine is as before to its callers, and may be asked again.
    pub fn next(&mut self) -> Result<Want, NoMemory>
        requires { self.old.asks ≡ None }
        ensures tells { IfOk result (λ want. Tells want self.old self.new) }
        ensures reads { IfOk result (λ want. (S : Tables) → Agrees (tables_of self.old.app) S self.old.fed → IsNextWant want (tables_of self.old.app) S self.old.fed (run self.old.app self.old.tx self.old.time S).reads) }
        ensures fits { IfOk result (λ want. WantFits (tables_of self.old.app) want) }
        ensures err { OnErr result (self.new ≡ self.old) }
    {
        if self.told {
            return Ok(Want::Ended);
        }
        go_to_read(
            self.alloc,
            &self.app,
            self.number,
            &mut self.spots,
            &mut self.run,
            &mut self.phase,
        )?;
        let want = wanted(self.alloc, &self.phase)?;
        self.told = true;
        Ok(want)
    }

    /// Takes the rows of the read that is asked, in the order of their keys, of which no two are the same. Takes no memory.
    pub fn feed(&mut self, rows: List<Seen>)
        requires asks { IsSome self.old.asks }
        requires order { IfSome self.old.asks (λ read. StandInOrder (tables_of self.old.app) read rows) }
        ensures { IfSome self.old.asks (λ read. self.new ≡ record self.old { fed = self.old.fed ++ record { read = read; rows = rows } ∷ []; asks = None }) }
    {
        match std::mem::replace(&mut self.phase, Phase::Running) {
            Phase::Ask { at, asked } => {
                let asked = asked.with_rows(rows);
                stand(&mut self.phase, Phase::Answered { at, asked });
                self.told = false;
            }
            _ => unreachable!(),
        }
    }

    /// The number of steps that the run took so far.
    pub fn steps(&self) -> u32
        ensures few { result ≤ most_steps }
    {
        self.run.steps
    }

    /// What the run gave, which has ended: on any tables on which the reads have the rows that were fed, it is the run of the call there.
    /// Takes no memory.
    pub fn finish(self) -> Ran
        requires { self.ended ≡ true }
        ensures { (S : Tables) → Agrees (tables_of self.app) S self.fed → result ≡ run self.app self.tx self.time S }
    {
        let Machine {
            alloc,
            run,
            phase,
            app: _,
            tx: _,
            time: _,
            number: _,
            spots: _,
            told: _,
        } = self;
        gives(alloc, phase, run.own, run.made)
    }

    /// The reads that were answered so far, with their rows. Takes no memory.
    pub fn cut(self) -> List<Made>
        ensures { result ≡ self.fed }
    {
        let Machine {
            run,
            phase,
            alloc: _,
            app: _,
            tx: _,
            time: _,
            number: _,
            spots: _,
            told: _,
        } = self;
        let mut made = run.made;
        keep(&mut made, phase);
        List::from_vec(made)
    }
}
