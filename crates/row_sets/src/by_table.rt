//! A transaction's own writes, table by table.

ghost use Rattle.std.specs.Prelude.{◌≡◌, ◌+◌, ◌≤◌, ◌++◌, IfOk, OnErr, OnOk, List, Option as Maybe, T, false, length, not, ℕ, unwrap_or};
ghost use Rattle.std.specs.BTreeMap.{IsOrdered};
ghost use Rattle.std.specs.FinMap as map;
ghost use Rattle.std.specs.FinMap.Entries.{is_sorted};
ghost use Rattle.std.specs.Ordering.{nat_cmp};
ghost use Rattle.std.specs.Option.{option_copied};
ghost use Rattle.std.specs.Vec.{vec_len, vec_capacity};
ghost use Rattle.rel_base.specs.OwnWrites.{keyed, merged};
ghost use Rattle.rel_base.specs.Tables.{ref_cmp};
ghost use Rattle.rel_base.specs.Value.{key_cmp};
ghost use Rattle.rel_base.specs.declared.access.Read.TheVariants.{Span};
ghost use Rattle.rel_base.specs.declared.access.Seen.{Seen as SeenRow};
ghost use Rattle.rel_base.specs.declared.schema.TableDef.{TableDef as Def};
ghost use Rattle.rel_base.specs.declared.value.Value.{Value as Cell};
ghost use Rattle.rel_base.specs.Lent.{rows_of};
ghost use Rattle.row_sets.specs.Overlay.{flat, net_writes, own_of, put_own};

use crate::merge::{merge_table, rows_seen};
use crate::table_writes::TableWrites;
use rel_base::{Key, List, NoMemory, Read, Row, Seen, TableDef, Write};
use std::alloc::Global;
use std::collections::BTreeMap;
use std::marker::Model;

/// A transaction's own writes, table by table.
///
/// Up to eight writes of a table stand in a vector in the order of their keys, and more in a map by their keys, so that a look
/// takes a number of steps that grows with the logarithm of their number, and copies no key. There is room for the net writes of
/// all keys from the moment that they are put.
#[derive(Drop)]
pub struct WritesByTable {
    alloc: Global,
    tables: BTreeMap<u32, TableWrites>,
    /// The number of keys.
    count: usize,
    /// An empty vector with room for one write of each key.
    room: Vec<Write>,
}

impl Model for WritesByTable {
    ghost use Rattle.std.specs.Coded.{coded×, coded_ℕ, coded_list};
    ghost use Rattle.std.specs.FinMap as map;
    ghost use Rattle.rel_base.specs.contracts.value.Value as value;
    ghost use Rattle.rel_base.specs.Tables.{ref_cmp};
    ghost use Rattle.row_sets.specs.contracts.table_writes.OwnWrite as own_write;
    ghost use Rattle.row_sets.specs.Overlay.{Written, flat};
    ghost use Rattle.row_sets.specs.Kept.{IsByTable};

    ghost Value = { Written };

    ghost coded = { map.code (coded× coded_ℕ (coded_list value.the_row.coded)) own_write.the_row.coded };

    ghost view = { λ own. map.from_entries {R = ref_cmp} (flat own.tables.entries) };

    ghost invariant = { λ own. IsByTable own.tables own.count own.room };
}

/// Puts a row that was left at a key, or none, among the writes of its table: whether the key was not written before.
fn put_in(
    alloc: Global,
    tables: &mut BTreeMap<u32, TableWrites>,
    table: u32,
    key: Key,
    before: Option<Row>,
    after: Option<Row>,
) -> Result<bool, NoMemory>
    ensures put { OnOk result (map.from_entries {R = ref_cmp} (flat tables.new.entries) ≡ put_own (map.from_entries (flat tables.old.entries)) (table, key) before after) }
    ensures first { IfOk result (λ first. first ≡ not (map.contains_key (map.from_entries {R = ref_cmp} (flat tables.old.entries)) (table, key))) }
    ensures unchanged { OnErr result (tables.new.entries ≡ tables.old.entries) }
    ensures ordered { IsOrdered nat_cmp tables.new }
{
    if let Some(writes) = tables.get_mut(&table) {
        return writes.put(key, before, after);
    }
    let mut writes = TableWrites::new(alloc);
    writes.put(key, before, after)?;
    tables.insert(table, writes)?;
    Ok(true)
}

/// Makes room for one more write than a count: the count with that one.
fn hold_one_more(room: &mut Vec<Write>, count: usize) -> Result<usize, NoMemory>
    requires { vec_len room.old ≡ 0 }
    ensures more { IfOk result (λ more. more ≡ count + 1) }
    ensures room { IfOk result (λ more. more ≤ vec_capacity room.new) }
    ensures kept { vec_capacity room.old ≤ vec_capacity room.new }
    ensures items { room.new.items ≡ room.old.items }
    ensures len { vec_len room.new ≡ vec_len room.old }
{
    match count.checked_add(1) {
        None => Err(NoMemory),
        Some(more) => {
            room.reserve(more)?;
            Ok(more)
        }
    }
}

/// Puts the net writes of tables, one after the other, at the end of others, which have room for them.
fn push_tables(tables: BTreeMap<u32, TableWrites>, writes: &mut Vec<Write>)
    requires { vec_len writes.old + length (flat tables.entries) ≤ vec_capacity writes.old }
    ensures { writes.new.items ≡ writes.old.items ++ net_writes (flat tables.entries) }
{
    for (table, own) in tables {
        own.push_net(table, writes);
    }
}

impl WritesByTable {
    /// No writes. Takes no memory.
    pub fn new(alloc: Global) -> WritesByTable
        ensures { result ≡ map.empty }
    {
        WritesByTable {
            alloc,
            tables: BTreeMap::new(alloc),
            count: 0,
            room: Vec::new(alloc),
        }
    }

    /// The row that the transaction sees at a key: the one that it left there, none where it deleted it, and `base` where it
    /// did not write the key. Takes no memory.
    pub fn look<'a>(&'a self, table: u32, key: &Key, base: Option<&'a Row>) -> Option<&'a Row>
        ensures { option_copied result ≡ unwrap_or (map.get (own_of self.now) (table, key.now)) (option_copied base.entry) }
    {
        match self.tables.get(&table) {
            None => base,
            Some(writes) => writes.look(key, base),
        }
    }

    /// The row that the transaction left at a key, or none where it deleted it, where it wrote the key. Takes no memory.
    pub fn left_at(&self, table: u32, key: &Key) -> Option<&Option<Row>>
        ensures { option_copied result ≡ map.get (own_of self.now) (table, key.now) }
    {
        match self.tables.get(&table) {
            None => None,
            Some(writes) => writes.left_at(key),
        }
    }

    /// Whether the transaction wrote a key of a table. Where it wrote none, it sees the rows that a span gets of the tables.
    pub fn has_written(&self, table: u32) -> bool
        ensures { result ≡ false → (def : Def) (column : ℕ) (low high : Maybe Cell) (seens : List SeenRow) → merged def (Span table column low high) (own_of self.now) seens ≡ rows_of seens }
    {
        match self.tables.get(&table) {
            None => false,
            Some(_) => true,
        }
    }

    /// A key has a row from now on, or none. Of the rows before, which are the key's row at the snapshot, the first counts.
    /// After `NoMemory` all is as before.
    pub fn put(
        &mut self,
        table: u32,
        key: Key,
        before: Option<Row>,
        after: Option<Row>,
    ) -> Result<(), NoMemory>
        ensures put { OnOk result (self.new ≡ put_own self.old (table, key) before after) }
        ensures unchanged { OnErr result (self.new ≡ self.old) }
    {
        let more = hold_one_more(&mut self.room, self.count)?;
        if put_in(self.alloc, &mut self.tables, table, key, before, after)? {
            self.count = more;
        }
        Ok(())
    }

    /// The rows that the transaction sees at a span of a table, whose declaration is passed: those that were read of the tables,
    /// which stand in the order of their keys, with its own writes over them.
    pub fn merge_span(
        &self,
        alloc: Global,
        def: &TableDef,
        table: u32,
        read: &Read,
        base: &List<Seen>,
    ) -> Result<List<Row>, NoMemory>
        requires span { (column : ℕ) × (low : Maybe Cell) × (high : Maybe Cell) × (read.now ≡ Span table column low high) }
        requires sorted { T (is_sorted key_cmp (keyed def.now base.now)) }
        ensures { IfOk result (λ rows. rows ≡ merged def.now read.now (own_of self.now) base.now) }
    {
        match self.tables.get(&table) {
            None => rows_seen(alloc, base.as_slice()),
            Some(writes) => merge_table(alloc, def, read, writes, base.as_slice()),
        }
    }

    /// The net writes, in the order of tables and keys: for each key that was written, its row at the snapshot and the row that
    /// was left there. A key that has neither has no write. Takes no memory.
    pub fn net(self) -> List<Write>
        ensures { result ≡ net_writes (map.entries self) }
    {
        let WritesByTable { tables, room, .. } = self;
        let mut writes = room;
        push_tables(tables, &mut writes);
        List::from_vec(writes)
    }
}
