//! A transaction's own writes of one table.

ghost use Rattle.std.specs.Prelude.{◌≡◌, ◌+◌, ◌≤◌, ◌++◌, IfOk, IfSome, OnErr, OnOk, not, is_some, length, unwrap_or};
ghost use Rattle.std.specs.BTreeMap.{IsOrdered};
ghost use Rattle.std.specs.FinMap as map;
ghost use Rattle.std.specs.FinMap.Entries.{find};
ghost use Rattle.std.specs.Option.{option_copied, option_map};
ghost use Rattle.std.specs.Vec.{vec_len, vec_capacity};
ghost use Rattle.rel_base.specs.Value.{key_cmp};
ghost use Rattle.row_sets.specs.Overlay.{in_table, lay_keys, net_writes, put_own};

use crate::few_writes::{find_in_order, move_all, put_few};
use crate::merge::{lay_each, lay_few};
use crate::net::{push_each, push_few};
use rel_base::{Key, NoMemory, Read, Row, TableDef, Write};
use std::alloc::Global;
use std::collections::BTreeMap;
use std::marker::Model;

/// What a transaction did to a key: the row at its snapshot, and the row that it left. There is none where the key had no row,
/// and none where its row was deleted.
#[derive(Drop)]
pub struct OwnWrite {
    pub before: Option<Row>,
    pub after: Option<Row>,
}

/// The number of writes that a vector holds at most.
const MOST_FEW: usize = 8;

/// A transaction's own writes of one table, by their keys.
///
/// The first writes stand in a vector in the order of their keys, so that a transaction of a few writes takes no node of a map,
/// which has room for many. Before more are put, all of them are moved to a map, so that a look takes a number of steps that
/// grows with the logarithm of their number.
#[derive(Drop)]
pub struct TableWrites {
    few: Vec<(Key, OwnWrite)>,
    /// The keys of these are greater than those of the vector.
    many: BTreeMap<Key, OwnWrite>,
}

impl Model for TableWrites {
    ghost use Rattle.std.proofs.Common.{T};
    ghost use Rattle.std.specs.Coded.{coded_list};
    ghost use Rattle.std.specs.FinMap as map;
    ghost use Rattle.std.specs.FinMap.{FinMap};
    ghost use Rattle.std.specs.FinMap.Entries.{is_sorted};
    ghost use Rattle.row_sets.specs.Few.{in_order};
    ghost use Rattle.rel_base.specs.contracts.value.Value as value;
    ghost use Rattle.rel_base.specs.Value.{key_cmp};
    ghost use Rattle.row_sets.specs.contracts.table_writes.OwnWrite as own_write;
    ghost use Rattle.row_sets.specs.declared.table_writes.OwnWrite.{OwnWrite as Own};

    ghost Value = { FinMap key_cmp Own };

    ghost coded = { map.code (coded_list value.the_row.coded) own_write.the_row.coded };

    ghost view = { λ writes. map.from_entries {R = key_cmp} (in_order writes.few writes.many) };

    ghost invariant = { λ writes. T (is_sorted key_cmp (in_order writes.few writes.many)) };
}

impl TableWrites {
    /// No writes. Takes no memory.
    pub fn new(alloc: Global) -> TableWrites
        ensures { result ≡ map.empty }
    {
        TableWrites {
            few: Vec::new(alloc),
            many: BTreeMap::new(alloc),
        }
    }

    /// The row that was left at a key, where the key was written, and else another.
    pub fn look<'a>(&'a self, key: &Key, base: Option<&'a Row>) -> Option<&'a Row>
        ensures { option_copied result ≡ unwrap_or (option_map (λ own. own.after) (map.get self.now key.now)) (option_copied base.entry) }
    {
        match find_in_order(self.few.as_slice(), key) {
            None => look_many(&self.many, key, base),
            Some(own) => row_of(&own.after),
        }
    }

    /// The row that was left at a key, or none, where the key was written.
    pub fn left_at(&self, key: &Key) -> Option<&Option<Row>>
        ensures { option_copied result ≡ option_map (λ own. own.after) (map.get self.now key.now) }
    {
        match find_in_order(self.few.as_slice(), key) {
            None => left_in(&self.many, key),
            Some(own) => Some(&own.after),
        }
    }

    /// A row is left at a key, or none: whether the key was not written before.
    pub fn put(
        &mut self,
        key: Key,
        before: Option<Row>,
        after: Option<Row>,
    ) -> Result<bool, NoMemory>
        ensures put { OnOk result (self.new ≡ put_own self.old key before after) }
        ensures first { IfOk result (λ first. first ≡ not (map.contains_key self.old key)) }
        ensures unchanged { OnErr result (self.new ≡ self.old) }
    {
        if self.many.is_empty() && self.few.len() < MOST_FEW {
            return put_few(&mut self.few, key, before, after);
        }
        move_all(&mut self.few, &mut self.many)?;
        put_many(&mut self.many, key, before, after)
    }

    /// Lays the writes over rows of a read of their table.
    pub fn lay(
        &self,
        alloc: Global,
        def: &TableDef,
        read: &Read,
        rows: &mut BTreeMap<Key, Row>,
    ) -> Result<(), NoMemory>
        ensures { OnOk result (rows.new.entries ≡ lay_keys def.now read.now rows.old.entries (map.entries self.now)) }
    {
        lay_few(alloc, def, read, rows, self.few.as_slice())?;
        lay_each(alloc, def, read, rows, &self.many)
    }

    /// Puts the net writes at the end of others, which have room for them.
    pub fn push_net(self, table: u32, writes: &mut Vec<Write>)
        requires { vec_len writes.old + length (map.entries self) ≤ vec_capacity writes.old }
        ensures writes { writes.new.items ≡ writes.old.items ++ net_writes (in_table table (map.entries self)) }
        ensures len { vec_len writes.new ≤ vec_len writes.old + length (map.entries self) }
        ensures room { vec_capacity writes.new ≡ vec_capacity writes.old }
    {
        let TableWrites { few, many } = self;
        push_few(few, table, writes);
        push_each(many, table, writes)
    }
}

/// The row that was left at a key, where the key was written, and else another.
fn look_many<'a>(
    many: &'a BTreeMap<Key, OwnWrite>,
    key: &Key,
    base: Option<&'a Row>,
) -> Option<&'a Row>
    ensures { option_copied result ≡ unwrap_or (option_map (λ own. own.after) (find key_cmp key.now many.now.entries)) (option_copied base.entry) }
{
    match many.get(key) {
        None => base,
        Some(own) => row_of(&own.after),
    }
}

/// The row that was left at a key, or none, where the key was written.
fn left_in<'a>(many: &'a BTreeMap<Key, OwnWrite>, key: &Key) -> Option<&'a Option<Row>>
    ensures { option_copied result ≡ option_map (λ own. own.after) (find key_cmp key.now many.now.entries) }
{
    match many.get(key) {
        None => None,
        Some(own) => Some(&own.after),
    }
}

/// A row is left at a key, or none: whether the key was not written before.
fn put_many(
    many: &mut BTreeMap<Key, OwnWrite>,
    key: Key,
    before: Option<Row>,
    after: Option<Row>,
) -> Result<bool, NoMemory>
    ensures put { OnOk result (map.from_entries {R = key_cmp} many.new.entries ≡ put_own (map.from_entries many.old.entries) key before after) }
    ensures first { IfOk result (λ first. first ≡ not (map.contains_key (map.from_entries {R = key_cmp} many.old.entries) key)) }
    ensures unchanged { OnErr result (many.new.entries ≡ many.old.entries) }
    ensures ordered { IsOrdered key_cmp many.new }
{
    if let Some(own) = many.get_mut(&key) {
        own.after = after;
        return Ok(false);
    }
    let _ = many.insert(key, OwnWrite { before, after })?;
    Ok(true)
}

/// The row that may be there.
pub fn row_of(row: &Option<Row>) -> Option<&Row>
    ensures { option_copied result ≡ row.now }
{
    match row {
        None => None,
        Some(row) => Some(row),
    }
}
