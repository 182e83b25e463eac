//! The statements that write, each with its point read.

ghost use Rattle.std.specs.Prelude.{◌≡◌, IfErr, IfOk, List, None, OnOk, Some};
ghost use Rattle.std.specs.FinMap as finite;
ghost use Rattle.std.specs.Option.{option_copied};
ghost use Rattle.rel_base.specs.declared.access.Read.TheVariants.{Point};
ghost use Rattle.rel_base.specs.declared.schema.TableDef.{TableDef as Def};
ghost use Rattle.rel_base.specs.NetWrites.{row_in};
ghost use Rattle.rel_base.specs.Schema.{KeyFits};
ghost use Rattle.rel_base.specs.Tables.{Tables};
ghost use Rattle.row_sets.specs.Overlay.{AreFound, own_of};
ghost use Rattle.proc_syntax.specs.Steps.{delete_at, delete_row, insert_at, insert_row, point_of, update_at, update_row, with_rows};
ghost use Rattle.proc_code.specs.Coded.{sets_worth, table_at, worths_of};
ghost use Rattle.proc_syntax.specs.declared.run.Stop.TheVariants as stop;
ghost use Rattle.proc_eval.specs.declared.halt.Halt.TheVariants as halt;
ghost use Rattle.direct_run.specs.Runs.{IsTable, state_of};
ghost use Rattle.direct_run.specs.Scope.{environment_of};
ghost use Rattle.direct_run.specs.Steps.{Ends};

use crate::looking::{Ground, Table, find_table};
use crate::reading::{changed_at, sees};
use crate::snapshot::Snapshot;
use crate::state::Run;
use proc_code::values::{eval_key, eval_row, eval_settings};
use proc_code::{Setting, Term};
use proc_eval::Halt;
use proc_eval::fit::{fits_key, key_of_fit};
use proc_syntax::{Fault, Stop};
use rel_base::{Key, NoMemory, Read, Row, Twin, Value};
use row_sets::Overlay;
use std::alloc::Global;

/// A copy of a row that may be there.
fn copy_of(alloc: Global, row: Option<&Row>) -> Result<Option<Row>, NoMemory>
    ensures { IfOk result (λ copy. copy ≡ option_copied row.entry) }
{
    match row {
        None => Ok(None),
        Some(row) => Ok(Some(row.copy(alloc)?)),
    }
}

/// Leaves a row at a key, or none. In the tables the key has a row, or none.
fn leave(
    alloc: Global,
    own: &mut Overlay,
    table: u32,
    key: Key,
    base: Option<&Row>,
    after: Option<Row>,
) -> Result<(), NoMemory>
    ensures own { OnOk result (own_of own.new ≡ finite.insert (own_of own.old) (table, key) after) }
    ensures found { (declared : List Def) (tables : Tables) → option_copied base.entry ≡ row_in declared tables (table, key) → AreFound declared tables own.old → AreFound declared tables own.new }
{
    let before = copy_of(alloc, base)?;
    own.put(table, key, before, after)
}

/// The point read of a key.
#[inline(always)]
pub fn point(alloc: Global, table: Table<'_>, key: &Key) -> Result<Read, NoMemory>
    ensures { IfOk result (λ read. read ≡ Point table.entry.number key.now) }
{
    Ok(Read::Point {
        table: table.number,
        key: key.copy(alloc)?,
    })
}

/// A key that fits its table.
#[inline(always)]
pub fn fitting(table: Table<'_>, key: Key) -> Result<Key, Halt>
    ensures key { IfOk result (λ fitting. fitting ≡ key) }
    ensures ok { IfOk result (λ fitting. point_of table.entry.def.now table.entry.number key ≡ Some (Point table.entry.number key)) }
    ensures fits { IfOk result (λ fitting. KeyFits table.entry.def.now key) }
    ensures err { IfErr result (λ why. (why ≡ halt.Stop stop.IllTyped) × (point_of table.entry.def.now table.entry.number key ≡ None)) }
{
    if fits_key(table.def, &key) {
        Ok(key)
    } else {
        Err(Halt::Stop(Stop::IllTyped))
    }
}

impl<'a, S: Snapshot> Ground<'a, S> {
    /// Puts a row at a key that fits, where it has none.
    fn put_new(&self, run: &mut Run<'a>, table: Table<'_>, key: Key, row: Row) -> Result<(), Halt>
        requires declared { S.declared self.now.source.now ≡ self.now.tables.now }
        requires here { IsTable self.now.tables.now table }
        requires fits { KeyFits table.def.now key }
        requires found { AreFound self.now.tables.now (S.tables self.now.source.now) run.old.own }
        ensures ends { Ends result (state_of run.new) (with_rows (S.tables self.now.source.now) table.entry.def.now (Point table.entry.number key) (state_of run.old) (insert_at table.entry.number key row)) }
        ensures found { AreFound self.now.tables.now (S.tables self.now.source.now) run.new.own }
    {
        let base = self.row_at(table, &key);
        let has_row = sees(&run.own, table, &key, base);
        let read = point(self.alloc, table, &key)?;
        self.note(&mut run.made, table, read)?;
        if has_row {
            return Err(Halt::Stop(Stop::Fault(Fault::DuplicateKey)));
        }
        leave(self.alloc, &mut run.own, table.number, key, base, Some(row))?;
        Ok(())
    }

    /// The point read of the new row's key, and then the row is put.
    pub fn insert(&self, run: &mut Run<'a>, table: u32, values: &[Term]) -> Result<(), Halt>
        requires declared { S.declared self.now.source.now ≡ self.now.tables.now }
        requires found { AreFound self.now.tables.now (S.tables self.now.source.now) run.old.own }
        ensures ends { Ends result (state_of run.new) (insert_row (S.tables self.now.source.now) (table_at self.now.tables.now table) (worths_of self.now.columns.now values.now (environment_of run.old.scope)) (state_of run.old)) }
        ensures found { AreFound self.now.tables.now (S.tables self.now.source.now) run.new.own }
    {
        let table = find_table(self.tables, table)?;
        let row = eval_row(self.alloc, self.columns, &run.scope, values)?;
        let key = key_of_fit(self.alloc, table.def, &row)?;
        self.put_new(run, table, key, row)
    }

    /// Changes the row of a key that fits.
    fn put_changed(
        &self,
        run: &mut Run<'a>,
        table: Table<'_>,
        key: Key,
        changes: &[(usize, Value)],
    ) -> Result<(), Halt>
        requires declared { S.declared self.now.source.now ≡ self.now.tables.now }
        requires here { IsTable self.now.tables.now table }
        requires fits { KeyFits table.def.now key }
        requires found { AreFound self.now.tables.now (S.tables self.now.source.now) run.old.own }
        ensures ends { Ends result (state_of run.new) (with_rows (S.tables self.now.source.now) table.entry.def.now (Point table.entry.number key) (state_of run.old) (update_at table.entry.def.now table.entry.number key changes.now)) }
        ensures found { AreFound self.now.tables.now (S.tables self.now.source.now) run.new.own }
    {
        let base = self.row_at(table, &key);
        let read = point(self.alloc, table, &key)?;
        self.note(&mut run.made, table, read)?;
        let row = changed_at(self.alloc, &run.own, table, &key, base, changes)?;
        leave(self.alloc, &mut run.own, table.number, key, base, Some(row))?;
        Ok(())
    }

    /// The point read of a key, and then its row is changed.
    pub fn update(
        &self,
        run: &mut Run<'a>,
        table: u32,
        key: &[Term],
        settings: &[Setting],
    ) -> Result<(), Halt>
        requires declared { S.declared self.now.source.now ≡ self.now.tables.now }
        requires found { AreFound self.now.tables.now (S.tables self.now.source.now) run.old.own }
        ensures ends { Ends result (state_of run.new) (update_row (S.tables self.now.source.now) (table_at self.now.tables.now table) (worths_of self.now.columns.now key.now (environment_of run.old.scope)) (λ def. sets_worth self.now.columns.now settings.now (environment_of run.old.scope)) (state_of run.old)) }
        ensures found { AreFound self.now.tables.now (S.tables self.now.source.now) run.new.own }
    {
        let table = find_table(self.tables, table)?;
        let key = eval_key(self.alloc, self.columns, &run.scope, key)?;
        let changes = eval_settings(self.alloc, self.columns, &run.scope, settings)?;
        let key = fitting(table, key)?;
        self.put_changed(run, table, key, changes.as_slice())
    }

    /// Deletes the row of a key that fits.
    fn put_none(&self, run: &mut Run<'a>, table: Table<'_>, key: Key) -> Result<(), Halt>
        requires declared { S.declared self.now.source.now ≡ self.now.tables.now }
        requires here { IsTable self.now.tables.now table }
        requires fits { KeyFits table.def.now key }
        requires found { AreFound self.now.tables.now (S.tables self.now.source.now) run.old.own }
        ensures ends { Ends result (state_of run.new) (with_rows (S.tables self.now.source.now) table.entry.def.now (Point table.entry.number key) (state_of run.old) (delete_at table.entry.number key)) }
        ensures found { AreFound self.now.tables.now (S.tables self.now.source.now) run.new.own }
    {
        let base = self.row_at(table, &key);
        let has_row = sees(&run.own, table, &key, base);
        let read = point(self.alloc, table, &key)?;
        self.note(&mut run.made, table, read)?;
        if !has_row {
            return Err(Halt::Stop(Stop::Fault(Fault::NoRow)));
        }
        leave(self.alloc, &mut run.own, table.number, key, base, None)?;
        Ok(())
    }

    /// The point read of a key, and then its row is deleted.
    pub fn delete(&self, run: &mut Run<'a>, table: u32, key: &[Term]) -> Result<(), Halt>
        requires declared { S.declared self.now.source.now ≡ self.now.tables.now }
        requires found { AreFound self.now.tables.now (S.tables self.now.source.now) run.old.own }
        ensures ends { Ends result (state_of run.new) (delete_row (S.tables self.now.source.now) (table_at self.now.tables.now table) (worths_of self.now.columns.now key.now (environment_of run.old.scope)) (state_of run.old)) }
        ensures found { AreFound self.now.tables.now (S.tables self.now.source.now) run.new.own }
    {
        let table = find_table(self.tables, table)?;
        let key = eval_key(self.alloc, self.columns, &run.scope, key)?;
        let key = fitting(table, key)?;
        self.put_none(run, table, key)
    }
}
