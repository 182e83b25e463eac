//! Statements, by recursion over the code.

ghost use Rattle.std.specs.Prelude.{◌≡◌, drop};
ghost use Rattle.rel_base.specs.Among.{TablesFit};
ghost use Rattle.rel_base.specs.Lent.{lent_rows};
ghost use Rattle.row_sets.specs.Overlay.{AreFound};
ghost use Rattle.proc_syntax.specs.Steps.{each_held, with_rows};
ghost use Rattle.proc_code.specs.Coded.{do_action, do_all, hold};
ghost use Rattle.direct_run.specs.Runs.{state_of};
ghost use Rattle.direct_run.specs.Steps.{Ends, IsSpanOf};
ghost use Rattle.direct_run.specs.Sums.{BeginsWith};

use crate::doing::count;
use crate::looking::{Ground, Table};
use crate::scope::{Slot, put};
use crate::snapshot::Snapshot;
use crate::state::Run;
use crate::sums::{Sum, Turn, add_up, sums_of};
use proc_code::Action;
use proc_eval::Halt;
use rel_base::{List, Read, Row};

impl<'a, S: Snapshot> Ground<'a, S> {
    /// The block of a loop for a row that the tables lend. What it adds up at its beginning is done first.
    #[cycle(perform)]
    fn visit_row(
        &self,
        run: &mut Run<'a>,
        turn: Turn<'_>,
        row: &'a Row,
        sums: &[Sum],
        body: &[Action],
    ) -> Result<(), Halt>
        requires declared { S.declared self.now.source.now ≡ self.now.tables.now }
        requires fit { TablesFit self.now.tables.now (S.tables self.now.source.now) }
        requires found { AreFound self.now.tables.now (S.tables self.now.source.now) run.old.own }
        requires columns { turn.columns.now ≡ self.now.columns.now }
        requires begins { BeginsWith turn.columns.now turn.slot turn.table body.now sums.now }
        ensures ends { Ends result (state_of run.new) (do_all self.now.tables.now self.now.columns.now (S.tables self.now.source.now) body.now (hold turn.entry.slot turn.entry.table row.now (state_of run.old))) }
        ensures found { AreFound self.now.tables.now (S.tables self.now.source.now) run.new.own }
    {
        put(
            &mut run.scope.slots,
            turn.slot,
            Slot::Lent {
                table: turn.table,
                row,
            },
        );
        let done = add_up(run, turn, row, sums);
        if done >= body.len() {
            return Ok(());
        }
        self.perform_from(run, body, done)
    }

    /// The block for each row that the tables lend.
    #[cycle(perform)]
    fn visit_lent(
        &self,
        run: &mut Run<'a>,
        slot: usize,
        table: u32,
        rows: &[&'a Row],
        body: &[Action],
    ) -> Result<(), Halt>
        requires declared { S.declared self.now.source.now ≡ self.now.tables.now }
        requires fit { TablesFit self.now.tables.now (S.tables self.now.source.now) }
        requires found { AreFound self.now.tables.now (S.tables self.now.source.now) run.old.own }
        ensures ends { Ends result (state_of run.new) (each_held (hold slot table) (do_all self.now.tables.now self.now.columns.now (S.tables self.now.source.now) body.now) (lent_rows rows.now) (state_of run.old)) }
        ensures found { AreFound self.now.tables.now (S.tables self.now.source.now) run.new.own }
    {
        let turn = Turn {
            columns: self.columns,
            slot,
            table,
        };
        let sums = sums_of(self.alloc, turn, body);
        for row in rows {
            count(&mut run.steps)?;
            self.visit_row(run, turn, *row, sums.as_slice(), body)?;
        }
        Ok(())
    }

    /// The block for each row, which the variable owns in its turn.
    #[cycle(perform)]
    fn visit_owned(
        &self,
        run: &mut Run<'a>,
        slot: usize,
        table: u32,
        rows: List<Row>,
        body: &[Action],
    ) -> Result<(), Halt>
        requires declared { S.declared self.now.source.now ≡ self.now.tables.now }
        requires fit { TablesFit self.now.tables.now (S.tables self.now.source.now) }
        requires found { AreFound self.now.tables.now (S.tables self.now.source.now) run.old.own }
        ensures ends { Ends result (state_of run.new) (each_held (hold slot table) (do_all self.now.tables.now self.now.columns.now (S.tables self.now.source.now) body.now) rows (state_of run.old)) }
        ensures found { AreFound self.now.tables.now (S.tables self.now.source.now) run.new.own }
    {
        for row in rows.into_vec() {
            count(&mut run.steps)?;
            put(&mut run.scope.slots, slot, Slot::Owned { table, row });
            self.perform_all(run, body)?;
        }
        Ok(())
    }

    /// A span read, and then the block for each row.
    #[cycle(perform)]
    fn visit(
        &self,
        run: &mut Run<'a>,
        slot: usize,
        table: Table<'_>,
        read: Read,
        body: &[Action],
    ) -> Result<(), Halt>
        requires declared { S.declared self.now.source.now ≡ self.now.tables.now }
        requires fit { TablesFit self.now.tables.now (S.tables self.now.source.now) }
        requires found { AreFound self.now.tables.now (S.tables self.now.source.now) run.old.own }
        requires span { IsSpanOf self.now.tables.now table read }
        ensures ends { Ends result (state_of run.new) (with_rows (S.tables self.now.source.now) table.entry.def.now read (state_of run.old) (each_held (hold slot table.entry.number) (do_all self.now.tables.now self.now.columns.now (S.tables self.now.source.now) body.now))) }
        ensures found { AreFound self.now.tables.now (S.tables self.now.source.now) run.new.own }
    {
        if run.own.has_written(table.number) {
            let rows = self.merged(&run.own, table, &read)?;
            self.note(&mut run.made, table, read)?;
            self.visit_owned(run, slot, table.number, rows, body)
        } else {
            let rows = self.rows_lent(table, &read)?;
            self.note(&mut run.made, table, read)?;
            self.visit_lent(run, slot, table.number, rows.as_slice(), body)
        }
    }

    /// A statement, once its step is counted.
    #[cycle(perform)]
    fn perform(&self, run: &mut Run<'a>, action: &Action) -> Result<(), Halt>
        requires declared { S.declared self.now.source.now ≡ self.now.tables.now }
        requires fit { TablesFit self.now.tables.now (S.tables self.now.source.now) }
        requires found { AreFound self.now.tables.now (S.tables self.now.source.now) run.old.own }
        ensures ends { Ends result (state_of run.new) (do_action self.now.tables.now self.now.columns.now (S.tables self.now.source.now) action.now (state_of run.old)) }
        ensures found { AreFound self.now.tables.now (S.tables self.now.source.now) run.new.own }
    {
        match action {
            Action::Set { slot, value } => self.set(run, *slot, value),
            Action::If { test, then, other } => {
                if self.test(run, test)? {
                    self.perform_all(run, then.as_slice())
                } else {
                    self.perform_all(run, other.as_slice())
                }
            }
            Action::Get {
                slot,
                table,
                key,
                found,
                absent,
            } => {
                if self.get(run, *slot, *table, key.as_slice())? {
                    self.perform_all(run, found.as_slice())
                } else {
                    self.perform_all(run, absent.as_slice())
                }
            }
            Action::For {
                slot,
                table,
                column,
                low,
                high,
                body,
            } => {
                let (table, read) = self.span(run, *table, *column, low, high)?;
                self.visit(run, *slot, table, read, body.as_slice())
            }
            Action::Insert { table, values } => self.insert(run, *table, values.as_slice()),
            Action::Update {
                table,
                key,
                settings,
            } => self.update(run, *table, key.as_slice(), settings.as_slice()),
            Action::Delete { table, key } => self.delete(run, *table, key.as_slice()),
            Action::Fail { text } => self.fail(text),
        }
    }

    /// The statements of a block from a place on, as `perform_all` does them.
    #[cycle(perform)]
    fn perform_from(&self, run: &mut Run<'a>, block: &[Action], from: usize) -> Result<(), Halt>
        requires declared { S.declared self.now.source.now ≡ self.now.tables.now }
        requires fit { TablesFit self.now.tables.now (S.tables self.now.source.now) }
        requires found { AreFound self.now.tables.now (S.tables self.now.source.now) run.old.own }
        ensures ends { Ends result (state_of run.new) (do_all self.now.tables.now self.now.columns.now (S.tables self.now.source.now) (drop from block.now) (state_of run.old)) }
        ensures found { AreFound self.now.tables.now (S.tables self.now.source.now) run.new.own }
    {
        for place in from..block.len() {
            let action = &block[place];
            count(&mut run.steps)?;
            self.perform(run, action)?;
        }
        Ok(())
    }

    /// The statements of a block, one after the other, each with a step of its own.
    #[cycle(perform)]
    pub fn perform_all(&self, run: &mut Run<'a>, block: &[Action]) -> Result<(), Halt>
        requires declared { S.declared self.now.source.now ≡ self.now.tables.now }
        requires fit { TablesFit self.now.tables.now (S.tables self.now.source.now) }
        requires found { AreFound self.now.tables.now (S.tables self.now.source.now) run.old.own }
        ensures ends { Ends result (state_of run.new) (do_all self.now.tables.now self.now.columns.now (S.tables self.now.source.now) block.now (state_of run.old)) }
        ensures found { AreFound self.now.tables.now (S.tables self.now.source.now) run.new.own }
    {
        for action in block {
            count(&mut run.steps)?;
            self.perform(run, action)?;
        }
        Ok(())
    }
}
