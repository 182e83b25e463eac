//! The rows that a transaction sees at a read.

ghost use Rattle.std.specs.Prelude.{◌≡◌, IfOk, OnOk, Some, None, map};
ghost use Rattle.std.proofs.Common.{T};
ghost use Rattle.std.specs.BTreeMap.{IsOrdered};
ghost use Rattle.std.specs.FinMap as finite;
ghost use Rattle.std.specs.FinMap.Entries.{put, is_sorted};
ghost use Rattle.std.specs.Option.{option_copied, option_to_list};
ghost use Rattle.rel_base.specs.Schema.{key_of_row};
ghost use Rattle.rel_base.specs.Tables.{write_ref};
ghost use Rattle.rel_base.specs.Value.{key_cmp};
ghost use Rattle.rel_base.specs.Access.{read_table};
ghost use Rattle.rel_base.specs.OwnWrites.{covered, first_row, keyed, lay, lay_all, set_row};
ghost use Rattle.row_sets.specs.Listed.{listed};
ghost use Rattle.row_sets.specs.Overlay.{lay_keys, left};

use crate::cover::{is_covered, key_by};
use crate::table_writes::{OwnWrite, TableWrites};
use rel_base::{Key, List, NoMemory, Read, Row, Seen, TableDef, Twin, Write};
use std::alloc::Global;
use std::collections::BTreeMap;

/// Takes a key out.
fn take_out(rows: &mut BTreeMap<Key, Row>, key: &Key)
    ensures { rows.new.entries ≡ set_row rows.old.entries key.now None }
{
    if rows.len() > 0 {
        let _ = rows.remove(key);
    }
}

/// A key has a row from now on.
#[tactic(auto, using(crate::proofs::Entries::key_put))]
fn put_in(
    alloc: Global,
    rows: &mut BTreeMap<Key, Row>,
    key: &Key,
    row: &Row,
) -> Result<(), NoMemory>
    ensures { OnOk result (rows.new.entries ≡ set_row rows.old.entries key.now (Some row.now)) }
{
    let key = key.copy(alloc)?;
    let row = row.copy(alloc)?;
    let _ = rows.insert(key, row)?;
    Ok(())
}

/// Lays a row that was left at a key over the rows of a read of its table.
fn set_covered(
    alloc: Global,
    def: &TableDef,
    read: &Read,
    rows: &mut BTreeMap<Key, Row>,
    key: &Key,
    row: &Option<Row>,
) -> Result<(), NoMemory>
    ensures { OnOk result (rows.new.entries ≡ set_row rows.old.entries key.now (covered def.now read.now row.now)) }
{
    match row {
        None => {
            take_out(rows, key);
            Ok(())
        }
        Some(row) => {
            if is_covered(alloc, def, read, row)? {
                put_in(alloc, rows, key, row)
            } else {
                take_out(rows, key);
                Ok(())
            }
        }
    }
}

/// Lays a few own writes over the rows of a read of their table, one after the other.
pub fn lay_few(
    alloc: Global,
    def: &TableDef,
    read: &Read,
    rows: &mut BTreeMap<Key, Row>,
    few: &[(Key, OwnWrite)],
) -> Result<(), NoMemory>
    ensures { OnOk result (rows.new.entries ≡ lay_keys def.now read.now rows.old.entries few.now) }
{
    for (key, own) in few {
        set_covered(alloc, def, read, rows, key, &own.after)?;
    }
    Ok(())
}

/// Lays own writes over the rows of a read of their table, one after the other.
pub fn lay_each(
    alloc: Global,
    def: &TableDef,
    read: &Read,
    rows: &mut BTreeMap<Key, Row>,
    own: &BTreeMap<Key, OwnWrite>,
) -> Result<(), NoMemory>
    ensures { OnOk result (rows.new.entries ≡ lay_keys def.now read.now rows.old.entries own.now.entries) }
{
    for (key, write) in own.iter() {
        set_covered(alloc, def, read, rows, key, &write.after)?;
    }
    Ok(())
}

/// Lays an own write over the rows of a read, where it is of the table of the read.
fn lay_one(
    alloc: Global,
    def: &TableDef,
    table: u32,
    read: &Read,
    rows: &mut BTreeMap<Key, Row>,
    write: &Write,
) -> Result<(), NoMemory>
    requires { read_table read.now ≡ table }
    ensures { OnOk result (rows.new.entries ≡ lay def.now read.now rows.old.entries (write_ref write.now, write.now.after)) }
{
    if table == write.table {
        set_covered(alloc, def, read, rows, &write.key, &write.after)
    } else {
        Ok(())
    }
}

/// Lays those of some own writes that are of the table of a read over the rows of the read, one after the other.
fn lay_listed(
    alloc: Global,
    def: &TableDef,
    table: u32,
    read: &Read,
    rows: &mut BTreeMap<Key, Row>,
    writes: &[Write],
) -> Result<(), NoMemory>
    requires { read_table read.now ≡ table }
    ensures { OnOk result (rows.new.entries ≡ lay_all def.now read.now rows.old.entries (map left (listed writes.now))) }
{
    for write in writes {
        lay_one(alloc, def, table, read, rows, write)?;
    }
    Ok(())
}

/// Puts a row that was read under its key.
#[tactic(auto, using(crate::proofs::Entries::key_put))]
fn put_seen(
    alloc: Global,
    def: &TableDef,
    rows: &mut BTreeMap<Key, Row>,
    seen: &Seen,
) -> Result<(), NoMemory>
    ensures { OnOk result (rows.new.entries ≡ put key_cmp (key_of_row def.now seen.now.row) seen.now.row rows.old.entries) }
{
    let key = key_by(alloc, def, &seen.row)?;
    let row = seen.row.copy(alloc)?;
    let _ = rows.insert(key, row)?;
    Ok(())
}

/// Rows that were read, which stand in the order of their keys, by their keys.
fn by_key(alloc: Global, def: &TableDef, seens: &[Seen]) -> Result<BTreeMap<Key, Row>, NoMemory>
    requires { T (is_sorted key_cmp (keyed def.now seens.now)) }
    ensures { IfOk result (λ rows. rows.entries ≡ keyed def.now seens.now) }
{
    let mut rows = BTreeMap::new(alloc);
    for i in (0..seens.len()).rev() {
        put_seen(alloc, def, &mut rows, &seens[i])?;
    }
    Ok(rows)
}

/// The rows of a map, in the order of their keys.
fn rows_of(alloc: Global, rows: BTreeMap<Key, Row>) -> Result<List<Row>, NoMemory>
    ensures { IfOk result (λ list. list ≡ map (λ e. e.1) rows.entries) }
{
    let mut list = List::new(alloc);
    for row in rows.into_values() {
        list.push(row)?;
    }
    Ok(list)
}

/// The rows that were read.
pub fn rows_seen(alloc: Global, seens: &[Seen]) -> Result<List<Row>, NoMemory>
    ensures { IfOk result (λ rows. rows ≡ map (λ seen. seen.row) seens.now) }
{
    let mut rows = List::from_vec(Vec::with_capacity(alloc, seens.len())?);
    for seen in seens {
        let row = seen.row.copy(alloc)?;
        rows.push(row)?;
    }
    Ok(rows)
}

/// The first row that was read.
pub fn first_of(seens: &[Seen]) -> Option<&Row>
    ensures { option_copied result ≡ first_row seens.now }
{
    match seens.first() {
        None => None,
        Some(seen) => Some(&seen.row),
    }
}

/// The row that may be there, as a list.
pub fn one_or_none(alloc: Global, row: Option<&Row>) -> Result<List<Row>, NoMemory>
    ensures { IfOk result (λ rows. rows ≡ option_to_list (option_copied row.entry)) }
{
    let mut rows = List::new(alloc);
    match row {
        None => {}
        Some(row) => {
            let row = row.copy(alloc)?;
            rows.push(row)?;
        }
    }
    Ok(rows)
}

/// The rows that were read, which stand in the order of their keys, with the own writes of their table over them.
pub fn merge_table(
    alloc: Global,
    def: &TableDef,
    read: &Read,
    own: &TableWrites,
    seens: &[Seen],
) -> Result<List<Row>, NoMemory>
    requires { T (is_sorted key_cmp (keyed def.now seens.now)) }
    ensures { IfOk result (λ rows. rows ≡ map (λ e. e.1) (lay_keys def.now read.now (keyed def.now seens.now) (finite.entries own.now))) }
{
    let mut rows = by_key(alloc, def, seens)?;
    own.lay(alloc, def, read, &mut rows)?;
    rows_of(alloc, rows)
}

/// The rows that were read, which stand in the order of their keys, with those of some own writes over them that are of their table.
pub fn merge_listed(
    alloc: Global,
    def: &TableDef,
    table: u32,
    read: &Read,
    writes: &[Write],
    seens: &[Seen],
) -> Result<List<Row>, NoMemory>
    requires of { read_table read.now ≡ table }
    requires sorted { T (is_sorted key_cmp (keyed def.now seens.now)) }
    ensures { IfOk result (λ rows. rows ≡ map (λ e. e.1) (lay_all def.now read.now (keyed def.now seens.now) (map left (listed writes.now)))) }
{
    let mut rows = by_key(alloc, def, seens)?;
    lay_listed(alloc, def, table, read, &mut rows, writes)?;
    rows_of(alloc, rows)
}
