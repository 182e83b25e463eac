//! The rows of a read at a height.

ghost use Rattle.std.specs.Prelude.{◌≡◌, ◌&&◌, ◌∷◌, [], IfOk, IfSome, List, None, OnOk, Some, cond, map, nat_le};
ghost use Rattle.std.specs.FinMap.{get};
ghost use Rattle.std.specs.List.Sorted.{IsStrictlySortedBy};
ghost use Rattle.std.specs.Map.{keys_of};
ghost use Rattle.std.specs.Option.{option_map};
ghost use Rattle.std.specs.Ordering.{eq_by_cmp};
ghost use Rattle.rel_base.specs.Access.{ReadFits, WriteFits, read_table};
ghost use Rattle.rel_base.specs.Among.{ReadFitsIn, rows_in};
ghost use Rattle.rel_base.specs.Lent.{lent_rows, rows_of, seen_lent};
ghost use Rattle.rel_base.specs.Schema.{RowFits};
ghost use Rattle.rel_base.specs.Tables.{HistoryFits, Tables, seen_at, set_stamped, tables_at, writes_up_to};
ghost use Rattle.rel_base.specs.Value.{key_cmp};
ghost use Rattle.rel_base.specs.declared.value.Value.{Value as Cell};
ghost use Rattle.row_sets.specs.Lifespans.{is_of_key};
ghost use Rattle.row_sets.specs.Log.{FitsTable, history_of, stamped_of};
ghost use Rattle.version_store.specs.Rows.{AreRows, covered_seen, row_at};

use rel_base::{Key, List, NoMemory, Place, Read, Row, Seen, SeenRef, TableDef, Twin};
use row_sets::entry::{LogEntry, entry_at, is_on_key, place_at};
use row_sets::hits::def_of;
use std::alloc::Global;
use std::collections::BTreeMap;

/// Takes a key out.
fn take_out(rows: &mut BTreeMap<Key, SeenRef<'_>>, key: &Key)
    ensures { (q : List Cell) → row_at rows.new.entries q ≡ cond (eq_by_cmp key_cmp key.now q) None (row_at rows.old.entries q) }
{
    let _ = rows.remove(key);
}

/// Puts a row under its key.
fn put_in<'a>(
    alloc: Global,
    rows: &mut BTreeMap<Key, SeenRef<'a>>,
    key: &Key,
    row: &'a Row,
    place: Place,
) -> Result<(), NoMemory>
    ensures { OnOk result ((q : List Cell) → row_at rows.new.entries q ≡ cond (eq_by_cmp key_cmp key.now q) (Some (record { row = row.now; place = place })) (row_at rows.old.entries q)) }
{
    let key = key.copy(alloc)?;
    let _ = rows.insert(key, SeenRef { row, place })?;
    Ok(())
}

/// Puts the row that a write left under its key, where the read covers it, in place of the one that was there.
fn set_row<'a>(
    alloc: Global,
    def: &TableDef,
    read: &Read,
    rows: &mut BTreeMap<Key, SeenRef<'a>>,
    entry: &'a LogEntry,
) -> Result<(), NoMemory>
    requires read_fits { ReadFits def.now read.now }
    requires row_fits { IfSome entry.now.placed.write.after (λ row. RowFits def.now row) }
    ensures { OnOk result ((q : List Cell) → row_at rows.new.entries q ≡ cond (eq_by_cmp key_cmp entry.now.placed.write.key q) (covered_seen def.now read.now (seen_at entry.now.block entry.now.placed.pos entry.now.placed.write.after)) (row_at rows.old.entries q)) }
{
    let write = &entry.placed.write;
    take_out(rows, &write.key);
    match &write.after {
        None => Ok(()),
        Some(row) => {
            if read.covers(def, row) {
                put_in(alloc, rows, &write.key, row, place_at(entry))
            } else {
                Ok(())
            }
        }
    }
}

/// Goes on by one write: rows of a read of tables become those of the tables after the write, where it is in no block above a
/// height.
fn go_on<'a>(
    alloc: Global,
    def: &TableDef,
    read: &Read,
    height: u64,
    rows: &mut BTreeMap<Key, SeenRef<'a>>,
    entry: &'a LogEntry,
) -> Result<(), NoMemory>
    requires read_fits { ReadFits def.now read.now }
    requires write_fits { entry.now.placed.write.table ≡ read_table read.now → WriteFits def.now entry.now.placed.write }
    ensures { OnOk result ((tables : Tables) → AreRows def.now read.now tables rows.old.entries → AreRows def.now read.now (set_stamped tables (writes_up_to height (stamped_of entry.now ∷ []))) rows.new.entries) }
{
    if entry.block > height {
        return Ok(());
    }
    if entry.placed.write.table != read.table() {
        return Ok(());
    }
    set_row(alloc, def, read, rows, entry)
}

/// The rows of a read by their keys, after the block of a height.
fn rows_by_key<'a>(
    alloc: Global,
    def: &TableDef,
    read: &Read,
    height: u64,
    log: &'a [LogEntry],
) -> Result<BTreeMap<Key, SeenRef<'a>>, NoMemory>
    requires read_fits { ReadFits def.now read.now }
    requires fits { FitsTable def.now (read_table read.now) (history_of log.now) }
    ensures { IfOk result (λ rows. AreRows def.now read.now (tables_at height (history_of log.now)) rows.entries) }
{
    let mut rows = BTreeMap::new(alloc);
    for number in 0..log.len() {
        go_on(alloc, def, read, height, &mut rows, entry_at(log, number))?;
    }
    Ok(rows)
}

/// The rows of a map, in the order of their keys.
fn in_order<'a>(
    alloc: Global,
    rows: BTreeMap<Key, SeenRef<'a>>,
) -> Result<Vec<SeenRef<'a>>, NoMemory>
    ensures rows { IfOk result (λ list. list.items ≡ map (λ e. e.1) rows.entry.entries) }
    ensures rise { IfOk result (λ list. IsStrictlySortedBy key_cmp (keys_of rows.entry.entries)) }
{
    let mut list = Vec::with_capacity(alloc, rows.len())?;
    for seen in rows.into_values() {
        list.push(seen)?;
    }
    Ok(list)
}

/// The rows that a read gets of the tables after the block of a height, lent by the log.
fn seens_lent<'a>(
    alloc: Global,
    defs: &[TableDef],
    log: &'a [LogEntry],
    read: &Read,
    height: u64,
) -> Result<Vec<SeenRef<'a>>, NoMemory>
    requires fits { HistoryFits defs.now (history_of log.now) }
    requires read_fits { ReadFitsIn defs.now read.now }
    ensures { IfOk result (λ lent. map seen_lent lent.items ≡ rows_in defs.now read.now (tables_at height (history_of log.now))) }
{
    let rows = rows_by_key(alloc, def_of(defs, read), read, height, log)?;
    in_order(alloc, rows)
}

/// A copy of each row that is lent, with its place.
fn copies(alloc: Global, lent: &[SeenRef<'_>]) -> Result<List<Seen>, NoMemory>
    ensures { IfOk result (λ seens. seens ≡ map seen_lent lent.now) }
{
    let mut seens = List::new(alloc);
    for seen in lent {
        let row = seen.row.copy(alloc)?;
        seens.push(Seen {
            row,
            place: seen.place,
        })?;
    }
    Ok(seens)
}

/// The rows that are lent, without their places.
fn without_places<'a>(alloc: Global, lent: &[SeenRef<'a>]) -> Result<Vec<&'a Row>, NoMemory>
    ensures { IfOk result (λ rows. lent_rows rows.items ≡ rows_of (map seen_lent lent.now)) }
{
    let mut rows = Vec::with_capacity(alloc, lent.len())?;
    for seen in lent {
        rows.push(seen.row)?;
    }
    Ok(rows)
}

/// The rows that a read gets of the tables after the block of a height.
pub fn rows_at(
    alloc: Global,
    defs: &[TableDef],
    log: &[LogEntry],
    read: &Read,
    height: u64,
) -> Result<List<Seen>, NoMemory>
    requires fits { HistoryFits defs.now (history_of log.now) }
    requires read_fits { ReadFitsIn defs.now read.now }
    ensures { IfOk result (λ seen. seen ≡ rows_in defs.now read.now (tables_at height (history_of log.now))) }
{
    let lent = seens_lent(alloc, defs, log, read, height)?;
    copies(alloc, lent.as_slice())
}

/// The rows that a read gets of the tables after the block of a height, lent by the log, without their places.
pub fn rows_lent<'a>(
    alloc: Global,
    defs: &[TableDef],
    log: &'a [LogEntry],
    read: &Read,
    height: u64,
) -> Result<Vec<&'a Row>, NoMemory>
    requires fits { HistoryFits defs.now (history_of log.now) }
    requires read_fits { ReadFitsIn defs.now read.now }
    ensures { IfOk result (λ lent. lent_rows lent.items ≡ rows_of (rows_in defs.now read.now (tables_at height (history_of log.now)))) }
{
    let lent = seens_lent(alloc, defs, log, read, height)?;
    without_places(alloc, lent.as_slice())
}

/// The row that a write left, lent by its entry.
fn row_left(entry: &LogEntry) -> Option<SeenRef<'_>>
    ensures { option_map seen_lent result ≡ seen_at entry.now.block entry.now.placed.pos entry.now.placed.write.after }
{
    match &entry.placed.write.after {
        None => None,
        Some(row) => Some(SeenRef {
            row,
            place: place_at(entry),
        }),
    }
}

/// Whether a write is on a key, in no block above a height.
fn is_seen(entry: &LogEntry, table: u32, key: &Key, height: u64) -> bool
    ensures { result ≡ (nat_le entry.now.block height && is_of_key table key.now (stamped_of entry.now)) }
{
    entry.block <= height && is_on_key(entry, table, key)
}

/// Goes on by one write: the row of a key in tables becomes that of the tables after the write, where it is in no block above a
/// height.
fn after_write<'a>(
    entry: &'a LogEntry,
    table: u32,
    key: &Key,
    height: u64,
    row: Option<SeenRef<'a>>,
) -> Option<SeenRef<'a>>
    ensures { (tables : Tables) → option_map seen_lent row.entry ≡ get tables (table, key.now) → option_map seen_lent result ≡ get (set_stamped tables (writes_up_to height (stamped_of entry.now ∷ []))) (table, key.now) }
{
    if is_seen(entry, table, key, height) {
        row_left(entry)
    } else {
        row
    }
}

/// The row of a key after the block of a height, lent by the log.
pub fn row_of_key<'a>(
    log: &'a [LogEntry],
    table: u32,
    key: &Key,
    height: u64,
) -> Option<SeenRef<'a>>
    ensures { option_map seen_lent result ≡ get (tables_at height (history_of log.now)) (table, key.now) }
{
    let mut row = None;
    for number in 0..log.len() {
        row = after_write(entry_at(log, number), table, key, height, row);
    }
    row
}
