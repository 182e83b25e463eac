//! What a run reads and never changes, and the rows that the tables have for it.

ghost use Rattle.std.specs.Prelude.{◌≡◌, ◌∷◌, [], ◌++◌, IfErr, IfOk, None, OnOk, Some, slice_get};
ghost use Rattle.std.specs.Option.{option_copied};
ghost use Rattle.rel_base.specs.Access.{ReadFits, read_table};
ghost use Rattle.rel_base.specs.Among.{rows_in};
ghost use Rattle.rel_base.specs.Lent.{lent_rows, rows_of};
ghost use Rattle.rel_base.specs.Schema.{KeyFits};
ghost use Rattle.rel_base.specs.Tables.{rows};
ghost use Rattle.proc_syntax.specs.declared.run.Stop.TheVariants as stop;
ghost use Rattle.proc_eval.specs.declared.halt.Halt.TheVariants as halt;
ghost use Rattle.direct_run.specs.Runs.{IsTable, row_at};

use crate::snapshot::Snapshot;
use proc_eval::Halt;
use proc_syntax::Stop;
use rel_base::{HasRows, Key, List, Made, NoMemory, Read, Row, SeenRows, TableDef};
use std::alloc::Global;

/// A table: its number, and its declaration.
#[derive(Clone, Copy)]
pub struct Table<'a> {
    pub number: u32,
    pub def: &'a TableDef,
}

/// The table of a number.
pub fn find_table(tables: &List<TableDef>, number: u32) -> Result<Table<'_>, Halt>
    ensures number { IfOk result (λ table. table.number ≡ number) }
    ensures ok { IfOk result (λ table. IsTable tables.now table) }
    ensures err { IfErr result (λ why. (why ≡ halt.Stop stop.IllTyped) × (slice_get tables.now number ≡ None)) }
{
    match tables.get(number as usize) {
        Some(def) => Ok(Table { number, def }),
        None => Err(Halt::Stop(Stop::IllTyped)),
    }
}

/// The rows that a read gets of tables, for contracts alone.
#[derive(Drop)]
struct AnswerOf<'a, S: Snapshot> {
    source: &'a S,
    read: &'a Read,
}

impl<S: Snapshot> HasRows for AnswerOf<'_, S> {
    ghost rows = { λ answer. rows_in (S.declared answer.source.now) answer.read.now (S.tables answer.source.now) };
}

/// The same, of a source.
#[inline(always)]
fn rows_told<S: Snapshot>(source: &S, read: &Read) -> SeenRows
    ensures { result ≡ rows_in (S.declared source.now) read.now (S.tables source.now) }
{
    SeenRows::told(&AnswerOf { source, read })
}

/// What a run reads and never changes: the declared tables, where their columns stand, and the tables at some moment.
#[derive(Drop)]
pub struct Ground<'a, S: Snapshot> {
    pub alloc: Global,
    pub tables: &'a List<TableDef>,
    pub columns: &'a List<List<Option<usize>>>,
    pub source: &'a S,
}

impl<'a, S: Snapshot> Ground<'a, S> {
    /// The row of a key in the tables.
    #[inline(always)]
    pub fn row_at(&self, table: Table<'_>, key: &Key) -> Option<&'a Row>
        requires declared { S.declared self.now.source.now ≡ self.now.tables.now }
        requires here { IsTable self.now.tables.now table }
        requires fits { KeyFits table.def.now key.now }
        ensures { option_copied result ≡ row_at table.entry.def.now table.entry.number key.now (S.tables self.now.source.now) }
    {
        let source = self.source;
        source.row_at(table.number, key)
    }

    /// The rows of a read in the tables.
    pub fn rows_lent(&self, table: Table<'_>, read: &Read) -> Result<Vec<&'a Row>, NoMemory>
        requires declared { S.declared self.now.source.now ≡ self.now.tables.now }
        requires here { IsTable self.now.tables.now table }
        requires of { read_table read.now ≡ table.number }
        requires fits { ReadFits table.def.now read.now }
        ensures { IfOk result (λ lent. lent_rows lent.items ≡ rows_of (rows table.entry.def.now read.now (S.tables self.now.source.now))) }
    {
        let source = self.source;
        source.rows_lent(read)
    }

    /// Puts a read at the end of those that were made.
    #[inline(always)]
    pub fn note(&self, made: &mut Vec<Made>, table: Table<'_>, read: Read) -> Result<(), NoMemory>
        requires declared { S.declared self.now.source.now ≡ self.now.tables.now }
        requires here { IsTable self.now.tables.now table }
        requires of { read_table read ≡ table.number }
        ensures { OnOk result (made.new.items ≡ made.old.items ++ record { read = read; rows = rows table.entry.def.now read (S.tables self.now.source.now) } ∷ []) }
    {
        let rows = rows_told(self.source, &read);
        made.push(Made { read, rows })?;
        Ok(())
    }
}
