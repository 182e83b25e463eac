//! A transaction's own writes in one list.

ghost use Rattle.std.specs.Prelude.{◌≡◌, ◌<◌, ◌==◌, IfOk, List as Items, OnErr, OnOk, Option as Maybe, T, false, ℕ, unwrap_or};
ghost use Rattle.std.specs.FinMap as map;
ghost use Rattle.std.specs.FinMap.Entries.{find, is_sorted, put};
ghost use Rattle.std.specs.List.{list_any, remove};
ghost use Rattle.std.specs.Option.{option_copied, option_map};
ghost use Rattle.std.specs.Vec.{vec_len};
ghost use Rattle.rel_base.specs.Lent.{rows_of};
ghost use Rattle.rel_base.specs.OwnWrites.{keyed, merged};
ghost use Rattle.rel_base.specs.Tables.{ref_cmp, write_ref};
ghost use Rattle.rel_base.specs.Value.{key_cmp};
ghost use Rattle.rel_base.specs.declared.access.Read.TheVariants.{Span};
ghost use Rattle.rel_base.specs.declared.access.Seen.{Seen as SeenRow};
ghost use Rattle.rel_base.specs.declared.schema.TableDef.{TableDef as Def};
ghost use Rattle.rel_base.specs.declared.value.Value.{Value as Cell};
ghost use Rattle.row_sets.specs.Few.{place_in, put_over};
ghost use Rattle.row_sets.specs.Listed.{done_by, is_nothing, listed, put_each};
ghost use Rattle.row_sets.specs.Overlay.{net_writes, own_of, put_own};

use crate::by_table::WritesByTable;
use crate::merge::{merge_listed, rows_seen};
use crate::table_writes::row_of;
use rel_base::{Key, List, NoMemory, Read, Row, Seen, TableDef, Twin, Write};
use std::alloc::Global;
use std::cmp::Ordering;
use std::marker::Model;

/// The number of writes that a list holds before they are moved.
const MOST_LISTED: usize = 8;

/// A transaction's own writes in one list, in the order of their tables and keys. It becomes the net writes where it stands.
#[derive(Drop)]
pub struct ListedWrites {
    writes: Vec<Write>,
}

impl Model for ListedWrites {
    ghost use Rattle.std.proofs.Common.{T};
    ghost use Rattle.std.specs.Coded.{coded×, coded_ℕ, coded_list};
    ghost use Rattle.std.specs.FinMap as map;
    ghost use Rattle.std.specs.FinMap.Entries.{is_sorted};
    ghost use Rattle.rel_base.specs.contracts.value.Value as value;
    ghost use Rattle.rel_base.specs.Tables.{ref_cmp};
    ghost use Rattle.row_sets.specs.contracts.table_writes.OwnWrite as own_write;
    ghost use Rattle.row_sets.specs.Listed.{listed};
    ghost use Rattle.row_sets.specs.Overlay.{Written};

    ghost Value = { Written };

    ghost coded = { map.code (coded× coded_ℕ (coded_list value.the_row.coded)) own_write.the_row.coded };

    ghost view = { λ own. map.from_entries {R = ref_cmp} (listed own.writes.items) };

    ghost invariant = { λ own. T (is_sorted ref_cmp (listed own.writes.items)) };
}

/// The write of a key of a table, where it is one of some.
#[inline(always)]
fn find_listed<'a>(writes: &'a [Write], table: u32, key: &Key) -> Option<&'a Write>
    ensures { option_map done_by (option_copied result) ≡ find ref_cmp (table, key.now) (listed writes.now) }
{
    for write in writes {
        if write.table == table && key.cmp(&write.key).is_eq() {
            return Some(write);
        }
    }
    None
}

/// How a key of a table compares with that of a write.
#[inline(always)]
fn order(table: u32, key: &Key, write: &Write) -> Ordering
    ensures { result ≡ ref_cmp (table, key.now) (write_ref write.now) }
{
    match table.cmp(&write.table) {
        Ordering::Equal => key.cmp(&write.key),
        other => other,
    }
}

/// Where the write of a key of a table stands, and else the place that is its in the order.
#[inline(always)]
fn search(writes: &[Write], table: u32, key: &Key) -> Result<usize, usize>
    ensures { result ≡ place_in ref_cmp 0 (table, key.now) (listed writes.now) }
{
    for (place, write) in writes.iter().enumerate() {
        match order(table, key, write) {
            Ordering::Less => return Err(place),
            Ordering::Equal => return Ok(place),
            Ordering::Greater => {}
        }
    }
    Err(writes.len())
}

/// A copy of a row that may be there.
fn copy_of(alloc: Global, row: &Option<Row>) -> Result<Option<Row>, NoMemory>
    ensures { IfOk result (λ copy. copy ≡ row.now) }
{
    match row {
        None => Ok(None),
        Some(row) => Ok(Some(row.copy(alloc)?)),
    }
}

/// Puts a copy of a write among others.
fn put_copy(alloc: Global, own: &mut WritesByTable, write: &Write) -> Result<(), NoMemory>
    ensures { OnOk result (own.new ≡ put_own own.old (write_ref write.now) write.now.before write.now.after) }
{
    let key = write.key.copy(alloc)?;
    let before = copy_of(alloc, &write.before)?;
    let after = copy_of(alloc, &write.after)?;
    own.put(write.table, key, before, after)
}

/// Puts copies of writes among others, one after the other.
fn put_copies(alloc: Global, own: &mut WritesByTable, writes: &[Write]) -> Result<(), NoMemory>
    ensures { OnOk result (own.new ≡ put_each own.old (listed writes.now)) }
{
    for write in writes {
        put_copy(alloc, own, write)?;
    }
    Ok(())
}

/// Whether one of some writes is of a table.
fn has_table(writes: &[Write], table: u32) -> bool
    ensures { result ≡ list_any (λ write. table == write.table) writes.now }
{
    for write in writes {
        if table == write.table {
            return true;
        }
    }
    false
}

/// A row is left at a key, or none.
#[inline(always)]
fn put_listed(
    writes: &mut Vec<Write>,
    table: u32,
    key: Key,
    before: Option<Row>,
    after: Option<Row>,
) -> Result<(), NoMemory>
    requires { T (is_sorted ref_cmp (listed writes.old.items)) }
    ensures put { OnOk result (listed writes.new.items ≡ put ref_cmp (table, key) (put_over before after (find ref_cmp (table, key) (listed writes.old.items))) (listed writes.old.items)) }
    ensures unchanged { OnErr result (writes.new.items ≡ writes.old.items) }
{
    match search(writes.as_slice(), table, &key) {
        Ok(place) => {
            writes[place].after = after;
            Ok(())
        }
        Err(place) => {
            writes.insert(
                place,
                Write {
                    table,
                    key,
                    before,
                    after,
                },
            )?;
            Ok(())
        }
    }
}

/// Whether a write left a key without a row that had none.
#[inline(always)]
fn is_nothing(write: &Write) -> bool
    ensures { result ≡ is_nothing write.now }
{
    write.before.is_none() && write.after.is_none()
}

/// Takes a write out of some.
fn take_out(writes: &mut Vec<Write>, place: usize)
    requires { place < vec_len writes.old }
    ensures { writes.new.items ≡ remove writes.old.items place }
{
    let _ = writes.remove(place);
}

/// Takes out the writes that come to nothing, the last first.
fn keep_net(writes: &mut Vec<Write>)
    ensures { writes.new.items ≡ net_writes (listed writes.old.items) }
{
    for place in (0..writes.len()).rev() {
        if is_nothing(&writes[place]) {
            take_out(writes, place);
        }
    }
}

impl ListedWrites {
    /// No writes. Takes no memory.
    pub fn new(alloc: Global) -> ListedWrites
        ensures { result ≡ map.empty }
    {
        ListedWrites {
            writes: Vec::new(alloc),
        }
    }

    /// Whether the list is as long as it gets.
    pub fn is_full(&self) -> bool {
        self.writes.len() >= MOST_LISTED
    }

    /// The row that the transaction sees at a key.
    pub fn look<'a>(&'a self, table: u32, key: &Key, base: Option<&'a Row>) -> Option<&'a Row>
        ensures { option_copied result ≡ unwrap_or (map.get (own_of self.now) (table, key.now)) (option_copied base.entry) }
    {
        match find_listed(self.writes.as_slice(), table, key) {
            None => base,
            Some(write) => row_of(&write.after),
        }
    }

    /// The row that was left at a key, or none, where the key was written.
    pub fn left_at(&self, table: u32, key: &Key) -> Option<&Option<Row>>
        ensures { option_copied result ≡ map.get (own_of self.now) (table, key.now) }
    {
        match find_listed(self.writes.as_slice(), table, key) {
            None => None,
            Some(write) => Some(&write.after),
        }
    }

    /// Whether a key of a table was written.
    pub fn has_written(&self, table: u32) -> bool
        ensures { result ≡ false → (def : Def) (column : ℕ) (low high : Maybe Cell) (seens : Items SeenRow) → merged def (Span table column low high) (own_of self.now) seens ≡ rows_of seens }
    {
        has_table(self.writes.as_slice(), table)
    }

    /// A key has a row from now on, or none.
    pub fn put(
        &mut self,
        table: u32,
        key: Key,
        before: Option<Row>,
        after: Option<Row>,
    ) -> Result<(), NoMemory>
        ensures put { OnOk result (self.new ≡ put_own self.old (table, key) before after) }
        ensures unchanged { OnErr result (self.new ≡ self.old) }
    {
        put_listed(&mut self.writes, table, key, before, after)
    }

    /// The rows that the transaction sees at a span of a table, whose declaration is passed.
    pub fn merge_span(
        &self,
        alloc: Global,
        def: &TableDef,
        table: u32,
        read: &Read,
        base: &List<Seen>,
    ) -> Result<List<Row>, NoMemory>
        requires span { (column : ℕ) × (low : Maybe Cell) × (high : Maybe Cell) × (read.now ≡ Span table column low high) }
        requires sorted { T (is_sorted key_cmp (keyed def.now base.now)) }
        ensures { IfOk result (λ rows. rows ≡ merged def.now read.now (own_of self.now) base.now) }
    {
        let writes = self.writes.as_slice();
        let seens = base.as_slice();
        if has_table(writes, table) {
            merge_listed(alloc, def, table, read, writes, seens)
        } else {
            rows_seen(alloc, seens)
        }
    }

    /// Copies of the writes, table by table.
    pub fn by_table(&self, alloc: Global) -> Result<WritesByTable, NoMemory>
        ensures { IfOk result (λ own. own ≡ self.now) }
    {
        let mut own = WritesByTable::new(alloc);
        put_copies(alloc, &mut own, self.writes.as_slice())?;
        Ok(own)
    }

    /// The net writes, in the order of tables and keys. Takes no memory.
    pub fn net(self) -> List<Write>
        ensures { result ≡ net_writes (map.entries self) }
    {
        let ListedWrites { writes } = self;
        let mut writes = writes;
        keep_net(&mut writes);
        List::from_vec(writes)
    }
}
