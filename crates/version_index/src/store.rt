//! The store of committed versions.

ghost use Rattle.std.specs.Prelude.{◌≡◌, ◌<◌, ◌≤◌, ◌+◌, ◌++◌, [], All, IfOk, IsTrue, OnErr, OnOk, Some, length, map, slice_get};
ghost use Rattle.rel_base.specs.Among.{WriteFitsIn};
ghost use Rattle.row_sets.specs.Versions.{IsBefore, are_rising, stamped_at};
ghost use Rattle.version_index.specs.Found.{tail_in};
ghost use Rattle.version_index.specs.Index.{IsEmptyIndex, columns_in, index_columns};
ghost use Rattle.version_index.specs.Kept.{store_history, store_spare, store_tables, store_tail};
ghost use Rattle.version_index.specs.View.{IsView, history_in};

use crate::ahead::count_rows;
use crate::growth::{hold_log, note_tail};
use crate::index::TableIndex;
use crate::lifespans::{all_back, chain_back, oldest_first};
use crate::look_up::LookUp;
use crate::reading::{late_at, row_lent, rows_at, rows_lent};
use crate::view::{ReadAtHeight, TableView};
use rel_base::{Key, List, NoMemory, Place, Read, Row, Seen, SeenRef, TableDef, Twin, Write};
use row_sets::entry::{LogEntry, push_all, write_at};
use row_sets::hits::{Watch, def_of};
use row_sets::{HitRef, Lifespan, Versions, WriteRef};
use std::alloc::Global;
use std::marker::Model;
use std::mem::forget;

/// A store of committed versions with indexes. It keeps the committed writes in one log. For each table it keeps the numbers of the
/// writes on each key, and for each column by which spans are read the keys that have a row with each value, and the numbers of the
/// writes that touched the value.
///
/// The indexes grow only when room is taken: what was written since then is the tail of the log, which each read looks through
/// besides.
///
/// Contracts see the declarations of its tables, its history, how many writes it has room for, and how many are in the tail.
#[derive(Drop)]
pub struct IndexVersions {
    alloc: Global,
    tables: List<TableDef>,
    log: Vec<LogEntry>,
    /// The indexes of the tables. They tell of the first entries of the log, as many as `noted` says.
    indexes: Vec<TableIndex>,
    noted: usize,
}

impl Model for IndexVersions {
    ghost use Rattle.std.specs.Prelude.{◌-◌, ℕ, List, length};
    ghost use Rattle.std.specs.Coded.{coded×, coded_ℕ, coded_list};
    ghost use Rattle.rel_base.specs.declared.schema.TableDef.{TableDef as Def};
    ghost use Rattle.rel_base.specs.contracts.schema.TableDef as def;
    ghost use Rattle.rel_base.specs.contracts.access.Placed as placed;
    ghost use Rattle.rel_base.specs.Tables.{Stamped};
    ghost use Rattle.row_sets.specs.Log.{history_of};
    ghost use Rattle.row_sets.specs.Log.{room_of};
    ghost use Rattle.version_index.specs.Kept.{IsStore};

    ghost Value = { List Def × (List Stamped × (ℕ × ℕ)) };

    ghost coded = { coded× (coded_list def.the_row.coded) (coded× (coded_list (coded× coded_ℕ placed.the_row.coded)) (coded× coded_ℕ coded_ℕ)) };

    ghost view = { λ store. (store.tables, (history_of store.log.items, (room_of store.log, length store.log.items - store.noted))) };

    ghost invariant = { λ store. IsStore store.tables store.log.items store.indexes.items store.noted };
}

/// Indexes without a write, one for each table.
fn no_indexes(alloc: Global, defs: &[TableDef]) -> Result<Vec<TableIndex>, NoMemory>
    ensures columns { IfOk result (λ indexes. columns_in indexes.items ≡ map index_columns defs.now) }
    ensures empty { IfOk result (λ indexes. All IsEmptyIndex indexes.items) }
{
    let mut indexes = Vec::new(alloc);
    for def in defs {
        indexes.push(TableIndex::new(alloc, def)?)?;
    }
    Ok(indexes)
}

/// The log, as the index of a table sees it.
fn view_of<'a>(
    entries: &'a [LogEntry],
    indexes: &'a [TableIndex],
    noted: usize,
    table: u32,
) -> TableView<'a>
    requires { table < length indexes.now }
    ensures entries { result.entries.now ≡ entries.now }
    ensures noted { result.noted ≡ noted }
    ensures table { result.table ≡ table }
    ensures index { slice_get indexes.now table ≡ Some result.index.now }
{
    TableView {
        entries,
        noted,
        table,
        index: &indexes[table as usize],
    }
}

impl IndexVersions {
    /// Lets the store go without a walk through its memory. For the end of a process alone: the system takes the memory of the writes
    /// and of the indexes back at once then, which letting go of each write takes a while for. It would be lost to a process that goes
    /// on.
    pub fn leave(self) {
        let IndexVersions {
            alloc: _,
            tables,
            log,
            indexes,
            noted: _,
        } = self;
        drop(tables);
        forget(indexes);
        // The list itself is one block of memory, which is given back at once.
        log.into_iter().for_each(forget);
    }

    /// The log and the index of a table, for a look-up whose looks are counted.
    pub fn look_up(&self, table: u32) -> LookUp<'_>
        requires declared { table < length (store_tables self.now) }
        ensures view { IsView result.view }
        ensures table { result.view.table ≡ table }
        ensures history { history_in result.view ≡ store_history self.now }
        ensures tail { tail_in result.view ≡ store_tail self.now }
    {
        LookUp::new(view_of(
            self.log.as_slice(),
            self.indexes.as_slice(),
            self.noted,
            table,
        ))
    }
}

impl Versions for IndexVersions {
    ghost tables = { λ store. store.0 };

    ghost history = { λ store. store.1.0 };

    ghost spare = { λ store. store.1.1.0 };

    fn new(alloc: Global, declared: &List<TableDef>) -> Result<Self, NoMemory>
        ensures tables { IfOk result (λ made. store_tables made ≡ declared.now) }
        ensures empty { IfOk result (λ made. store_history made ≡ []) }
        ensures noted { IfOk result (λ made. store_tail made ≡ 0) }
    {
        let tables = declared.copy(alloc)?;
        let indexes = no_indexes(alloc, tables.as_slice())?;
        Ok(IndexVersions {
            alloc,
            tables,
            log: Vec::new(alloc),
            indexes,
            noted: 0,
        })
    }

    fn count(&self) -> usize {
        self.log.len()
    }

    fn write_at(&self, number: usize) -> Option<WriteRef<'_>> {
        write_at(self.log.as_slice(), number)
    }

    fn visible(&self, height: u64, read: &Read) -> Result<List<Seen>, NoMemory> {
        let def = def_of(self.tables.as_slice(), read);
        let view = view_of(
            self.log.as_slice(),
            self.indexes.as_slice(),
            self.noted,
            read.table(),
        );
        rows_at(self.alloc, &view, &ReadAtHeight { def, read, height })
    }

    fn row_at(&self, height: u64, table: u32, key: &Key) -> Option<SeenRef<'_>> {
        let view = view_of(
            self.log.as_slice(),
            self.indexes.as_slice(),
            self.noted,
            table,
        );
        row_lent(&view, key, height)
    }

    fn rows_lent(&self, height: u64, read: &Read) -> Result<Vec<&Row>, NoMemory> {
        let def = def_of(self.tables.as_slice(), read);
        let view = view_of(
            self.log.as_slice(),
            self.indexes.as_slice(),
            self.noted,
            read.table(),
        );
        rows_lent(self.alloc, &view, &ReadAtHeight { def, read, height })
    }

    fn look_ahead(&self, table: u32, keys: &[Key]) -> usize {
        match self.indexes.as_slice().get(table as usize) {
            None => 0,
            Some(index) => count_rows(self.alloc, self.log.as_slice(), &index.chains, keys),
        }
    }

    fn late_hit(&self, after: u64, upto: u64, read: &Read) -> Option<HitRef<'_>> {
        let def = def_of(self.tables.as_slice(), read);
        let view = view_of(
            self.log.as_slice(),
            self.indexes.as_slice(),
            self.noted,
            read.table(),
        );
        late_at(
            &view,
            &Watch {
                def,
                read,
                after,
                upto,
            },
        )
    }

    fn reserve(&mut self, writes: usize) -> Result<(), NoMemory>
        ensures tables { store_tables self.new ≡ store_tables self.old }
        ensures history { store_history self.new ≡ store_history self.old }
        ensures room { OnOk result (writes ≤ store_spare self.new) }
        ensures kept { OnErr result (store_spare self.new ≡ store_spare self.old) }
        ensures noted { OnOk result (store_tail self.new ≡ 0) }

        // Also where memory runs out, the tail is no longer than it was: what was noted stays noted.
        ensures tail { store_tail self.new ≤ store_tail self.old }
    {
        note_tail(
            self.alloc,
            &mut self.indexes,
            self.log.as_slice(),
            &mut self.noted,
        )?;
        hold_log(&mut self.log, writes)?;
        Ok(())
    }

    fn apply(&mut self, place: Place, writes: List<Write>)
        requires fit { All (WriteFitsIn (store_tables self.old)) writes }
        requires rise { IsTrue (are_rising writes) }
        requires later { All (IsBefore place) (store_history self.old) }
        requires room { length writes ≤ store_spare self.old }
        ensures tables { store_tables self.new ≡ store_tables self.old }
        ensures history { store_history self.new ≡ store_history self.old ++ stamped_at place writes }
        ensures room { store_spare self.new + length writes ≡ store_spare self.old }
        ensures tail { store_tail self.new ≡ store_tail self.old + length writes }
    {
        push_all(&mut self.log, place, writes);
    }

    fn chain_of(&self, table: u32, key: &Key) -> Result<List<Lifespan>, NoMemory> {
        let view = view_of(
            self.log.as_slice(),
            self.indexes.as_slice(),
            self.noted,
            table,
        );
        let slot = view.index.chains.slot(key);
        let versions = chain_back(self.alloc, &view, key, slot)?;
        Ok(oldest_first(versions))
    }

    fn all_of(&self, table: u32) -> Result<List<Lifespan>, NoMemory> {
        let versions = all_back(self.alloc, self.log.as_slice(), table)?;
        Ok(oldest_first(versions))
    }
}
