//! What a statement comes to before anything is changed: its expressions have their values, and its read is made up.

ghost use Rattle.std.specs.Prelude.{◌≡◌, Ok, IfOk, IfErr, Some, None, slice_get};
ghost use Rattle.proc_syntax.specs.declared.run.Stop.TheVariants as stop;
ghost use Rattle.proc_syntax.specs.Steps.{point_of};
ghost use Rattle.proc_syntax.specs.Values.{found};
ghost use Rattle.proc_eval.specs.Gives.{Gives};
ghost use Rattle.proc_eval.specs.declared.halt.Halt.TheVariants as halt;
ghost use Rattle.proc_run.specs.Planned.{ask, plan_of, plan_set, plan_if, plan_key, plan_for, plan_insert, plan_update};

use crate::asked::HeldAsked;
use proc_code::quick::quick_test;
use proc_code::slots::Environment;
use proc_code::values::{eval, eval_end, eval_key, eval_row, eval_settings};
use proc_code::{Action, Setting, Term};
use proc_eval::Halt;
use proc_eval::compare::flag;
use proc_eval::fit::{fits_key, key_of_fit, span_read};
use proc_syntax::{Fault, Stop};
use rel_base::{Key, List, Read, Row, TableDef, Twin, Value};
use std::alloc::Global;

/// What is done with the rows of a read.
#[derive(Drop)]
pub enum Pending {
    /// A new row is put where the key has none.
    Insert { row: Row },
    /// The row of the key gets values in columns.
    Update { changes: List<(usize, Value)> },
    /// The row of the key is deleted.
    Delete,
    /// One block where the key has a row, which the variable then holds, and another where it has none.
    Get { slot: usize },
    /// A block for each row, which the variable then holds.
    For { slot: usize },
}

/// What a statement comes to.
#[derive(Drop)]
pub enum Plan {
    /// A variable gets a value.
    Set { slot: usize, value: Value },
    /// The first block of the statement is next, or the second.
    Enter { first: bool },
    /// A read is next.
    Ask { asked: HeldAsked },
}

/// The declaration of a table, by the table's number.
pub fn find_table(tables: &List<TableDef>, table: u32) -> Result<&TableDef, Halt>
    ensures ok { IfOk result (λ def. slice_get tables.now table ≡ Some def.now) }
    ensures err { IfErr result (λ why. (why ≡ halt.Stop stop.IllTyped) × (slice_get tables.now table ≡ None)) }
{
    match tables.get(table as usize) {
        Some(def) => Ok(def),
        None => Err(Halt::Stop(Stop::IllTyped)),
    }
}

/// The point read of a key that fits.
#[inline(always)]
fn point_read(def: &TableDef, table: u32, key: Key) -> Result<Read, Stop>
    ensures { result ≡ found (point_of def.now table key) }
{
    if fits_key(def, &key) {
        Ok(Read::Point { table, key })
    } else {
        Err(Stop::IllTyped)
    }
}

/// A read is next.
#[inline(always)]
fn ask(alloc: Global, read: Read, pending: Pending) -> Result<Plan, Halt>
    ensures { Gives result (Ok (ask read pending)) }
{
    let asked = HeldAsked::new(alloc, read, pending)?;
    Ok(Plan::Ask { asked })
}

/// What the expressions of a statement stand on: the declared tables, the columns that the application names, and what they are
/// evaluated in.
#[derive(Clone, Copy)]
struct Scene<'a> {
    alloc: Global,
    tables: &'a List<TableDef>,
    columns: &'a List<List<Option<usize>>>,
    environment: &'a Environment,
}

impl Scene<'_> {
    /// A variable gets the value of an expression.
    fn set(&self, slot: usize, value: &Term) -> Result<Plan, Halt>
        ensures { Gives result (plan_set self.now.columns.now slot value.now self.now.environment.now) }
    {
        let value = eval(self.alloc, self.columns, self.environment, value)?;
        Ok(Plan::Set { slot, value })
    }

    /// One block where a test holds, and another where it does not.
    fn test(&self, test: &Term) -> Result<Plan, Halt>
        ensures { Gives result (plan_if self.now.columns.now test.now self.now.environment.now) }
    {
        if let Some(first) = quick_test(self.columns, self.environment, test) {
            return Ok(Plan::Enter { first });
        }
        let value = eval(self.alloc, self.columns, self.environment, test)?;
        let first = flag(&value)?;
        Ok(Plan::Enter { first })
    }

    /// The point read of a key.
    #[inline(always)]
    fn ask_key(&self, table: u32, key: &[Term], pending: Pending) -> Result<Plan, Halt>
        ensures { Gives result (plan_key self.now.tables.now self.now.columns.now table key.now pending self.now.environment.now) }
    {
        let def = find_table(self.tables, table)?;
        let key = eval_key(self.alloc, self.columns, self.environment, key)?;
        let read = point_read(def, table, key)?;
        ask(self.alloc, read, pending)
    }

    /// The span read on a column, whose rows each go into a variable.
    fn ask_span(
        &self,
        slot: usize,
        table: u32,
        column: Option<usize>,
        low: &Option<Term>,
        high: &Option<Term>,
    ) -> Result<Plan, Halt>
        ensures { Gives result (plan_for self.now.tables.now self.now.columns.now slot table column low.now high.now self.now.environment.now) }
    {
        let def = find_table(self.tables, table)?;
        let low = eval_end(self.alloc, self.columns, self.environment, low)?;
        let high = eval_end(self.alloc, self.columns, self.environment, high)?;
        let read = span_read(def, table, column, low, high)?;
        ask(self.alloc, read, Pending::For { slot })
    }

    /// The point read of a new row's key.
    fn insert(&self, table: u32, values: &[Term]) -> Result<Plan, Halt>
        ensures { Gives result (plan_insert self.now.tables.now self.now.columns.now table values.now self.now.environment.now) }
    {
        let def = find_table(self.tables, table)?;
        let row = eval_row(self.alloc, self.columns, self.environment, values)?;
        let key = key_of_fit(self.alloc, def, &row)?;
        ask(
            self.alloc,
            Read::Point { table, key },
            Pending::Insert { row },
        )
    }

    /// The point read of a key whose row gets values in columns.
    fn update(&self, table: u32, key: &[Term], settings: &[Setting]) -> Result<Plan, Halt>
        ensures { Gives result (plan_update self.now.tables.now self.now.columns.now table key.now settings.now self.now.environment.now) }
    {
        let def = find_table(self.tables, table)?;
        let key = eval_key(self.alloc, self.columns, self.environment, key)?;
        let changes = eval_settings(self.alloc, self.columns, self.environment, settings)?;
        let read = point_read(def, table, key)?;
        ask(self.alloc, read, Pending::Update { changes })
    }
    /// What a statement comes to, or why the run stops there.
    fn plan(&self, action: &Action) -> Result<Plan, Halt>
        ensures { Gives result (plan_of self.now.tables.now self.now.columns.now action.now self.now.environment.now) }
    {
        match action {
            Action::Set { slot, value } => self.set(*slot, value),
            Action::If { test, .. } => self.test(test),
            Action::Get {
                slot,
                table,
                key,
                ..
            } => self.ask_key(*table, key.as_slice(), Pending::Get { slot: *slot }),
            Action::For {
                slot,
                table,
                column,
                low,
                high,
                ..
            } => self.ask_span(*slot, *table, *column, low, high),
            Action::Insert { table, values } => self.insert(*table, values.as_slice()),
            Action::Update {
                table,
                key,
                settings,
            } => self.update(*table, key.as_slice(), settings.as_slice()),
            Action::Delete { table, key } => self.ask_key(*table, key.as_slice(), Pending::Delete),
            Action::Fail { text } => Err(Halt::Stop(Stop::Fault(Fault::Failed(text.copy(
                self.alloc,
            )?)))),
        }
    }
}

/// What a statement comes to, in what its expressions are evaluated in, or why the run stops there.
pub fn plan_action(
    alloc: Global,
    tables: &List<TableDef>,
    columns: &List<List<Option<usize>>>,
    environment: &Environment,
    action: &Action,
) -> Result<Plan, Halt>
    ensures { Gives result (plan_of tables.now columns.now action.now environment.now) }
{
    let scene = Scene {
        alloc,
        tables,
        columns,
        environment,
    };
    scene.plan(action)
}
