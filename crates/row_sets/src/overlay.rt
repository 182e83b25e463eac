//! A transaction's own writes.

ghost use Rattle.std.specs.Prelude.{◌≡◌, IfOk, OnErr, OnOk, List, Option as Maybe, T, false, ℕ, unwrap_or};
ghost use Rattle.std.specs.FinMap as map;
ghost use Rattle.std.specs.FinMap.Entries.{is_sorted};
ghost use Rattle.std.specs.Option.{option_copied};
ghost use Rattle.rel_base.specs.NetWrites.{net, row_in};
ghost use Rattle.rel_base.specs.OwnWrites.{keyed, merged};
ghost use Rattle.rel_base.specs.Tables.{Tables};
ghost use Rattle.rel_base.specs.Value.{key_cmp};
ghost use Rattle.rel_base.specs.declared.access.Read.TheVariants.{Span};
ghost use Rattle.rel_base.specs.declared.access.Seen.{Seen as SeenRow};
ghost use Rattle.rel_base.specs.declared.schema.TableDef.{TableDef as Def};
ghost use Rattle.rel_base.specs.declared.value.Value.{Value as Cell};
ghost use Rattle.rel_base.specs.Lent.{rows_of};
ghost use Rattle.row_sets.specs.Forms.{written_in};
ghost use Rattle.row_sets.specs.Overlay.{AreFound, net_writes, own_of, put_own};

use crate::by_table::WritesByTable;
use crate::listed::ListedWrites;
use crate::merge::{first_of, one_or_none};
use rel_base::{Key, List, NoMemory, Read, Row, Seen, TableDef, Write};
use std::alloc::Global;
use std::marker::Model;

/// Where a transaction's own writes stand: a few in one list, more of them table by table.
#[derive(Drop)]
enum Writes {
    Few(ListedWrites),
    Many(WritesByTable),
}

/// A transaction's own writes: for each table and key that it wrote, the row at its snapshot and the row that it left there.
///
/// Up to eight writes stand in one list in the order of their tables and keys, which becomes the net writes. More stand table by
/// table, so that a look takes a number of steps that grows with the logarithm of their number.
#[derive(Drop)]
pub struct Overlay {
    alloc: Global,
    writes: Writes,
}

impl Model for Overlay {
    ghost use Rattle.std.specs.Coded.{coded×, coded_ℕ, coded_list};
    ghost use Rattle.std.specs.FinMap as map;
    ghost use Rattle.rel_base.specs.contracts.value.Value as value;
    ghost use Rattle.row_sets.specs.contracts.table_writes.OwnWrite as own_write;
    ghost use Rattle.row_sets.specs.Forms.{written_in};
    ghost use Rattle.row_sets.specs.Overlay.{Written};

    ghost Value = { Written };

    ghost coded = { map.code (coded× coded_ℕ (coded_list value.the_row.coded)) own_write.the_row.coded };

    ghost view = { λ own. written_in own.writes };
}

/// Moves writes that are as many as one list holds.
fn spread(alloc: Global, writes: &mut Writes) -> Result<(), NoMemory>
    ensures { written_in writes.new ≡ written_in writes.old }
{
    if let Writes::Few(own) = &*writes {
        if own.is_full() {
            let own = own.by_table(alloc)?;
            *writes = Writes::Many(own);
        }
    }
    Ok(())
}

/// A row is left at a key, or none.
fn put_in(
    writes: &mut Writes,
    table: u32,
    key: Key,
    before: Option<Row>,
    after: Option<Row>,
) -> Result<(), NoMemory>
    ensures put { OnOk result (written_in writes.new ≡ put_own (written_in writes.old) (table, key) before after) }
    ensures unchanged { OnErr result (written_in writes.new ≡ written_in writes.old) }
{
    match writes {
        Writes::Few(own) => own.put(table, key, before, after),
        Writes::Many(own) => own.put(table, key, before, after),
    }
}

impl Overlay {
    /// No writes. Takes no memory.
    pub fn new(alloc: Global) -> Overlay
        ensures none { result ≡ map.empty }
        ensures own { own_of result ≡ map.empty }
        ensures found { (declared : List Def) (tables : Tables) → AreFound declared tables result }
    {
        Overlay {
            alloc,
            writes: Writes::Few(ListedWrites::new(alloc)),
        }
    }

    /// The row that the transaction sees at a key: the one that it left there, none where it deleted it, and `base` where it
    /// did not write the key. Takes no memory.
    pub fn look<'a>(&'a self, table: u32, key: &Key, base: Option<&'a Row>) -> Option<&'a Row>
        ensures { option_copied result ≡ unwrap_or (map.get (own_of self.now) (table, key.now)) (option_copied base.entry) }
    {
        match &self.writes {
            Writes::Few(own) => own.look(table, key, base),
            Writes::Many(own) => own.look(table, key, base),
        }
    }

    /// The row that the transaction left at a key, or none where it deleted it, where it wrote the key. Takes no memory.
    pub fn left_at(&self, table: u32, key: &Key) -> Option<&Option<Row>>
        ensures { option_copied result ≡ map.get (own_of self.now) (table, key.now) }
    {
        match &self.writes {
            Writes::Few(own) => own.left_at(table, key),
            Writes::Many(own) => own.left_at(table, key),
        }
    }

    /// Whether the transaction wrote a key of a table. Where it wrote none, it sees the rows that a span gets of the tables.
    pub fn has_written(&self, table: u32) -> bool
        ensures { result ≡ false → (def : Def) (column : ℕ) (low high : Maybe Cell) (seens : List SeenRow) → merged def (Span table column low high) (own_of self.now) seens ≡ rows_of seens }
    {
        match &self.writes {
            Writes::Few(own) => own.has_written(table),
            Writes::Many(own) => own.has_written(table),
        }
    }

    /// A key has a row from now on, or none. Of the rows before, which are the key's row at the snapshot, the first counts.
    /// After `NoMemory` all is as before.
    pub fn put(
        &mut self,
        table: u32,
        key: Key,
        before: Option<Row>,
        after: Option<Row>,
    ) -> Result<(), NoMemory>
        ensures put { OnOk result (self.new ≡ put_own self.old (table, key) before after) }
        ensures own { OnOk result (own_of self.new ≡ map.insert (own_of self.old) (table, key) after) }
        ensures found { (declared : List Def) (tables : Tables) → before ≡ row_in declared tables (table, key) → AreFound declared tables self.old → AreFound declared tables self.new }
        ensures unchanged { OnErr result (self.new ≡ self.old) }
    {
        spread(self.alloc, &mut self.writes)?;
        put_in(&mut self.writes, table, key, before, after)
    }

    /// The rows that the transaction sees at a read of a table, whose declaration is passed: those that were read of the tables,
    /// which stand in the order of their keys, with its own writes over them. A point looks at one key, and a span goes over
    /// the own writes of its table.
    pub fn merge(
        &self,
        alloc: Global,
        def: &TableDef,
        read: &Read,
        base: &List<Seen>,
    ) -> Result<List<Row>, NoMemory>
        requires { T (is_sorted key_cmp (keyed def.now base.now)) }
        ensures { IfOk result (λ rows. rows ≡ merged def.now read.now (own_of self.now) base.now) }
    {
        match read {
            Read::Point { table, key } => {
                let row = self.look(*table, key, first_of(base.as_slice()));
                one_or_none(alloc, row)
            }
            Read::Span { table, .. } => match &self.writes {
                Writes::Few(own) => own.merge_span(alloc, def, *table, read, base),
                Writes::Many(own) => own.merge_span(alloc, def, *table, read, base),
            },
        }
    }

    /// The net writes, in the order of tables and keys: for each key that was written, its row at the snapshot and the row that
    /// was left there. A key that has neither has no write. Takes no memory.
    pub fn net(self) -> List<Write>
        ensures net { result ≡ net_writes (map.entries self) }
        ensures found { (declared : List Def) (tables : Tables) → AreFound declared tables self → result ≡ net declared tables (own_of self) }
    {
        let Overlay { writes, .. } = self;
        match writes {
            Writes::Few(own) => own.net(),
            Writes::Many(own) => own.net(),
        }
    }
}
