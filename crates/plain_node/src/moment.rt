//! The tables at a height of a store.

ghost use Rattle.rel_base.specs.Tables.{tables_at};

use direct_run::Snapshot;
use rel_base::{Key, List, NoMemory, Read, Row, Seen};
use row_sets::Versions;
use std::alloc::Global;

/// The tables of a store after the block of a height.
#[derive(Drop)]
pub struct Moment<'a, V: Versions> {
    pub versions: &'a V,
    pub height: u64,
}

impl<V: Versions> Snapshot for Moment<'_, V> {
    ghost declared = { λ moment. V.tables moment.versions.now };

    ghost tables = { λ moment. tables_at moment.height (V.history moment.versions.now) };

    fn rows(&self, _alloc: Global, read: &Read) -> Result<List<Seen>, NoMemory> {
        self.versions.visible(self.height, read)
    }

    #[inline(always)]
    fn row_at(&self, table: u32, key: &Key) -> Option<&Row> {
        let seen = self.versions.row_at(self.height, table, key)?;
        Some(seen.row)
    }

    fn rows_lent(&self, read: &Read) -> Result<Vec<&Row>, NoMemory> {
        self.versions.rows_lent(self.height, read)
    }
}
