//! What statements do that have no block, and which block is next of those that have.

ghost use Rattle.std.specs.Prelude.{◌≡◌, ◌+◌, IfErr, IfOk, OnErr, OnOk, cond, false, nat_lt, true, ℕ};
ghost use Rattle.rel_base.specs.declared.access.Read.TheVariants.{Point};
ghost use Rattle.rel_base.specs.Schema.{KeyFits};
ghost use Rattle.rel_base.specs.Tables.{Tables};
ghost use Rattle.proc_syntax.specs.declared.fault.Fault.TheVariants as fault;
ghost use Rattle.proc_syntax.specs.declared.run.Binding.TheVariants.{Plain};
ghost use Rattle.proc_syntax.specs.declared.run.Stop.TheVariants as stop;
ghost use Rattle.proc_syntax.specs.Limits.{most_steps};
ghost use Rattle.proc_syntax.specs.Steps.{Stopped, branch, for_rows, get_row, held_or, set_to, with_rows};
ghost use Rattle.proc_code.specs.Coded.{Progress as Goes, State as At, end_worth, hold, put, table_at, worth_of, worths_of};
ghost use Rattle.proc_eval.specs.Gives.{Gives};
ghost use Rattle.direct_run.specs.Runs.{IsTable, state_of};
ghost use Rattle.direct_run.specs.Scope.{environment_of};
ghost use Rattle.direct_run.specs.Steps.{Chooses, Ends, Spans, truth_of};

use crate::looking::{Ground, Table, find_table};
use crate::reading::held_at;
use crate::scope::{Scope, Slot, put, put_number};
use crate::snapshot::Snapshot;
use crate::state::Run;
use crate::writing::fitting;
use proc_code::Term;
use proc_code::quick::{quick_number, quick_test};
use proc_code::values::{eval, eval_end, eval_key};
use proc_eval::Halt;
use proc_eval::compare::flag;
use proc_eval::fit::span_read;
use proc_syntax::run::MOST_RUN_STEPS;
use proc_syntax::{Fault, Stop};
use rel_base::{Key, NoMemory, Read, Str, Twin};

/// Counts one more step, where fewer than the most were made.
#[inline(always)]
pub fn count(steps: &mut u32) -> Result<(), Stop>
    ensures ok { OnOk result (nat_lt steps.old most_steps ≡ true) }
    ensures more { OnOk result (steps.new ≡ steps.old + 1) }
    ensures most { IfErr result (λ why. (why ≡ stop.Fault fault.Steps) × (nat_lt steps.old most_steps ≡ false)) }
    ensures same { OnErr result (steps.new ≡ steps.old) }
{
    if *steps >= MOST_RUN_STEPS {
        return Err(Stop::Fault(Fault::Steps));
    }
    *steps += 1;
    Ok(())
}

impl<'a, S: Snapshot> Ground<'a, S> {
    /// A variable gets the value of an expression.
    fn set_value(&self, run: &mut Run<'a>, slot: usize, value: &Term) -> Result<(), Halt>
        ensures ends { Ends result (state_of run.new) (set_to (worth_of self.now.columns.now value.now (environment_of run.old.scope)) (λ v. put slot (Plain v)) (state_of run.old)) }
        ensures own { run.new.own ≡ run.old.own }
    {
        let value = eval(self.alloc, self.columns, &run.scope, value)?;
        put(&mut run.scope.slots, slot, Slot::Plain(value));
        Ok(())
    }

    /// The same, where a value that is a number is found with no value on the way.
    #[inline(always)]
    pub fn set(&self, run: &mut Run<'a>, slot: usize, value: &Term) -> Result<(), Halt>
        ensures ends { Ends result (state_of run.new) (set_to (worth_of self.now.columns.now value.now (environment_of run.old.scope)) (λ v. put slot (Plain v)) (state_of run.old)) }
        ensures own { run.new.own ≡ run.old.own }
    {
        match quick_number(self.columns, &run.scope, value) {
            Some(number) => {
                put_number(&mut run.scope.slots, slot, number);
                Ok(())
            }
            None => self.set_value(run, slot, value),
        }
    }

    /// Whether a test holds.
    fn holds_any(&self, scope: &Scope<'a>, test: &Term) -> Result<bool, Halt>
        ensures { Gives result (truth_of (worth_of self.now.columns.now test.now (environment_of scope.now))) }
    {
        let value = eval(self.alloc, self.columns, scope, test)?;
        Ok(flag(&value)?)
    }

    /// The test of an `if`: whether its first block is next.
    #[inline(always)]
    pub fn test(&self, run: &Run<'a>, test: &Term) -> Result<bool, Halt>
        ensures { Chooses result (state_of run.now) (λ body other. branch (worth_of self.now.columns.now test.now (environment_of run.now.scope)) body other (state_of run.now)) }
    {
        match quick_test(self.columns, &run.scope, test) {
            Some(holds) => Ok(holds),
            None => self.holds_any(&run.scope, test),
        }
    }

    /// The point read of a key that fits, whose row a variable holds from now on: whether there is one.
    fn hold(
        &self,
        run: &mut Run<'a>,
        slot: usize,
        table: Table<'_>,
        key: Key,
    ) -> Result<bool, NoMemory>
        requires declared { S.declared self.now.source.now ≡ self.now.tables.now }
        requires here { IsTable self.now.tables.now table }
        requires fits { KeyFits table.def.now key }
        ensures chooses { IfOk result (λ some. (found absent : At → Goes) → with_rows (S.tables self.now.source.now) table.entry.def.now (Point table.entry.number key) (state_of run.old) (held_or (hold slot table.entry.number) found absent) ≡ cond some (found (state_of run.new)) (absent (state_of run.new))) }
        ensures own { run.new.own ≡ run.old.own }
    {
        let base = self.row_at(table, &key);
        let held = held_at(self.alloc, &run.own, table, &key, base)?;
        self.note(
            &mut run.made,
            table,
            Read::Point {
                table: table.number,
                key,
            },
        )?;
        match held {
            Slot::Nothing => Ok(false),
            held => {
                put(&mut run.scope.slots, slot, held);
                Ok(true)
            }
        }
    }

    /// The point read of a `get`: whether its first block is next.
    #[inline(always)]
    pub fn get(
        &self,
        run: &mut Run<'a>,
        slot: usize,
        table: u32,
        key: &[Term],
    ) -> Result<bool, Halt>
        requires declared { S.declared self.now.source.now ≡ self.now.tables.now }
        ensures chooses { Chooses result (state_of run.new) (λ found absent. get_row (S.tables self.now.source.now) (table_at self.now.tables.now table) (worths_of self.now.columns.now key.now (environment_of run.old.scope)) (hold slot) found absent (state_of run.old)) }
        ensures own { run.new.own ≡ run.old.own }
    {
        let table = find_table(self.tables, table)?;
        let key = eval_key(self.alloc, self.columns, &run.scope, key)?;
        let key = fitting(table, key)?;
        let some = self.hold(run, slot, table, key)?;
        Ok(some)
    }

    /// The span read of a `for`.
    pub fn span(
        &self,
        run: &Run<'a>,
        table: u32,
        column: Option<usize>,
        low: &Option<Term>,
        high: &Option<Term>,
    ) -> Result<(Table<'a>, Read), Halt>
        ensures { (tables : Tables) (slot : ℕ) → Spans self.now.tables.now tables slot result (state_of run.now) (λ body. for_rows tables (table_at self.now.tables.now table) (λ def. column) (end_worth self.now.columns.now low.now (environment_of run.now.scope)) (end_worth self.now.columns.now high.now (environment_of run.now.scope)) (hold slot) body (state_of run.now)) }
    {
        let table = find_table(self.tables, table)?;
        let low = eval_end(self.alloc, self.columns, &run.scope, low)?;
        let high = eval_end(self.alloc, self.columns, &run.scope, high)?;
        let read = span_read(table.def, table.number, column, low, high)?;
        Ok((table, read))
    }

    /// The run stops with a text.
    pub fn fail(&self, text: &Str) -> Result<(), Halt>
        ensures { (state : At) → Ends result state (Stopped state (stop.Fault (fault.Failed text.now))) }
    {
        let text = text.copy(self.alloc)?;
        Err(Halt::Stop(Stop::Fault(Fault::Failed(text))))
    }
}
