//! The rows that a run sees: those of the tables, with its own writes over them.

ghost use Rattle.std.specs.Prelude.{◌≡◌, IfOk, is_some};
ghost use Rattle.std.specs.Option.{option_copied, option_map};
ghost use Rattle.rel_base.specs.Access.{ReadFits, read_table};
ghost use Rattle.rel_base.specs.Among.{TablesFit};
ghost use Rattle.rel_base.specs.OwnWrites.{merged};
ghost use Rattle.rel_base.specs.Tables.{rows};
ghost use Rattle.row_sets.specs.Overlay.{own_of};
ghost use Rattle.proc_syntax.specs.declared.run.Binding.TheVariants.{Held};
ghost use Rattle.proc_eval.specs.Gives.{Gives};
ghost use Rattle.direct_run.specs.Runs.{IsTable, seen_at, with_set};
ghost use Rattle.direct_run.specs.Scope.{binding_of};

use crate::looking::{Ground, Table};
use crate::scope::Slot;
use crate::snapshot::Snapshot;
use proc_eval::Halt;
use proc_eval::change::changed;
use proc_syntax::{Fault, Stop};
use rel_base::{Key, List, NoMemory, Read, Row, Twin, Value};
use row_sets::Overlay;
use std::alloc::Global;

/// Whether a run sees a row at a key, which has a row in the tables or none.
#[inline(always)]
pub fn sees(own: &Overlay, table: Table<'_>, key: &Key, base: Option<&Row>) -> bool
    ensures { result ≡ is_some (seen_at (own_of own.now) table.entry.number key.now (option_copied base.entry)) }
{
    own.look(table.number, key, base).is_some()
}

/// The row that the tables have at a key, for a variable that holds it from now on.
#[inline(always)]
fn lent<'a>(table: u32, base: Option<&'a Row>) -> Slot<'a>
    ensures { binding_of result ≡ option_map (Held table) (option_copied base.entry) }
{
    match base {
        None => Slot::Nothing,
        Some(row) => Slot::Lent { table, row },
    }
}

/// The row that a run left at a key, for a variable that holds it from now on.
fn owned<'a>(alloc: Global, table: u32, left: &Option<Row>) -> Result<Slot<'a>, NoMemory>
    ensures { IfOk result (λ slot. binding_of slot ≡ option_map (Held table) left.now) }
{
    match left {
        None => Ok(Slot::Nothing),
        Some(row) => Ok(Slot::Owned {
            table,
            row: row.copy(alloc)?,
        }),
    }
}

/// The row that a run sees at a key, for a variable that holds it from now on.
#[inline(always)]
pub fn held_at<'a>(
    alloc: Global,
    own: &Overlay,
    table: Table<'_>,
    key: &Key,
    base: Option<&'a Row>,
) -> Result<Slot<'a>, NoMemory>
    ensures { IfOk result (λ slot. binding_of slot ≡ option_map (Held table.entry.number) (seen_at (own_of own.now) table.entry.number key.now (option_copied base.entry))) }
{
    match own.left_at(table.number, key) {
        None => Ok(lent(table.number, base)),
        Some(left) => owned(alloc, table.number, left),
    }
}

/// The row that a run sees at a key, with columns set.
#[inline(always)]
pub fn changed_at(
    alloc: Global,
    own: &Overlay,
    table: Table<'_>,
    key: &Key,
    base: Option<&Row>,
    changes: &[(usize, Value)],
) -> Result<Row, Halt>
    ensures { Gives result (with_set table.entry.def.now key.now changes.now (seen_at (own_of own.now) table.entry.number key.now (option_copied base.entry))) }
{
    match own.look(table.number, key, base) {
        None => Err(Halt::Stop(Stop::Fault(Fault::NoRow))),
        Some(old) => changed(alloc, table.def, key, old, changes),
    }
}

impl<'a, S: Snapshot> Ground<'a, S> {
    /// The rows that a run sees at a read.
    pub fn merged(
        &self,
        own: &Overlay,
        table: Table<'_>,
        read: &Read,
    ) -> Result<List<Row>, NoMemory>
        requires declared { S.declared self.now.source.now ≡ self.now.tables.now }
        requires fit { TablesFit self.now.tables.now (S.tables self.now.source.now) }
        requires here { IsTable self.now.tables.now table }
        requires of { read_table read.now ≡ table.number }
        requires fits { ReadFits table.def.now read.now }
        ensures { IfOk result (λ seen. seen ≡ merged table.entry.def.now read.now (own_of own.now) (rows table.entry.def.now read.now (S.tables self.now.source.now))) }
    {
        let rows = self.source.rows(self.alloc, read)?;
        own.merge(self.alloc, table.def, read, &rows)
    }
}
