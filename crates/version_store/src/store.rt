//! The plain store.

ghost use Rattle.row_sets.specs.Log.{history_of, room_of};

use crate::hits::late_at;
use crate::lifespans::{of_key, of_table};
use crate::rows::{row_of_key, rows_at, rows_lent};
use rel_base::{Key, List, NoMemory, Place, Read, Row, Seen, SeenRef, TableDef, Twin, Write};
use row_sets::entry::{LogEntry, push_all, write_at};
use row_sets::{HitRef, Lifespan, Versions, WriteRef};
use std::alloc::Global;
use std::marker::Model;

/// A plain store of committed versions: the list of the writes. Each answer walks the whole list, and that to `all_of` the rest of
/// the list for each version besides.
#[derive(Drop)]
pub struct PlainVersions {
    alloc: Global,
    tables: List<TableDef>,
    log: Vec<LogEntry>,
}

impl Model for PlainVersions {
    ghost use Rattle.std.specs.Prelude.{ℕ, List};
    ghost use Rattle.std.specs.Coded.{coded×, coded_ℕ, coded_list};
    ghost use Rattle.rel_base.specs.declared.schema.TableDef.{TableDef as Def};
    ghost use Rattle.rel_base.specs.contracts.schema.TableDef as def;
    ghost use Rattle.rel_base.specs.contracts.access.Placed as placed;
    ghost use Rattle.rel_base.specs.Tables.{Stamped};
    ghost use Rattle.version_store.specs.Kept.{IsKept};
    ghost use Rattle.row_sets.specs.Log.{history_of, room_of};

    ghost Value = { List Def × (List Stamped × ℕ) };

    ghost coded = { coded× (coded_list def.the_row.coded) (coded× (coded_list (coded× coded_ℕ placed.the_row.coded)) coded_ℕ) };

    ghost view = { λ store. (store.tables, (history_of store.log.items, room_of store.log)) };

    ghost invariant = { λ store. IsKept store.tables store.log.items };
}

impl Versions for PlainVersions {
    ghost tables = { λ store. store.0 };

    ghost history = { λ store. store.1.0 };

    ghost spare = { λ store. store.1.1 };

    fn new(alloc: Global, declared: &List<TableDef>) -> Result<Self, NoMemory> {
        Ok(PlainVersions {
            alloc,
            tables: declared.copy(alloc)?,
            log: Vec::new(alloc),
        })
    }

    fn count(&self) -> usize {
        self.log.len()
    }

    fn write_at(&self, number: usize) -> Option<WriteRef<'_>> {
        write_at(self.log.as_slice(), number)
    }

    fn visible(&self, height: u64, read: &Read) -> Result<List<Seen>, NoMemory> {
        rows_at(
            self.alloc,
            self.tables.as_slice(),
            self.log.as_slice(),
            read,
            height,
        )
    }

    fn row_at(&self, height: u64, table: u32, key: &Key) -> Option<SeenRef<'_>> {
        row_of_key(self.log.as_slice(), table, key, height)
    }

    fn rows_lent(&self, height: u64, read: &Read) -> Result<Vec<&Row>, NoMemory> {
        rows_lent(
            self.alloc,
            self.tables.as_slice(),
            self.log.as_slice(),
            read,
            height,
        )
    }

    /// It looks at nothing ahead.
    fn look_ahead(&self, _table: u32, _keys: &[Key]) -> usize {
        0
    }

    fn late_hit(&self, after: u64, upto: u64, read: &Read) -> Option<HitRef<'_>> {
        late_at(
            self.tables.as_slice(),
            self.log.as_slice(),
            read,
            after,
            upto,
        )
    }

    fn reserve(&mut self, writes: usize) -> Result<(), NoMemory> {
        self.log.reserve(writes)?;
        Ok(())
    }

    fn apply(&mut self, place: Place, writes: List<Write>) {
        push_all(&mut self.log, place, writes);
    }

    fn chain_of(&self, table: u32, key: &Key) -> Result<List<Lifespan>, NoMemory> {
        of_key(self.alloc, self.log.as_slice(), table, key)
    }

    fn all_of(&self, table: u32) -> Result<List<Lifespan>, NoMemory> {
        of_table(self.alloc, self.log.as_slice(), table)
    }
}
