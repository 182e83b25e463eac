//! Whether a read hits a committed write.

ghost use Rattle.std.specs.Prelude.{◌≡◌, IfSome, Some, slice_get};
ghost use Rattle.rel_base.specs.Access.{ReadFits, WriteFits, covers_some, read_table};
ghost use Rattle.rel_base.specs.Among.{ReadFitsIn};
ghost use Rattle.rel_base.specs.Schema.{RowFits};
ghost use Rattle.row_sets.specs.Log.{stamped_of};
ghost use Rattle.row_sets.specs.Watched.{is_watched};

use crate::entry::LogEntry;
use rel_base::{Read, Row, TableDef};

/// A read with the declaration of its table, and the heights between which the writes are that it may hit.
#[derive(Clone, Copy)]
pub struct Watch<'a> {
    pub def: &'a TableDef,
    pub read: &'a Read,
    pub after: u64,
    pub upto: u64,
}

/// The declaration of the table of a read.
pub fn def_of<'a>(defs: &'a [TableDef], read: &Read) -> &'a TableDef
    requires { ReadFitsIn defs.now read.now }
    ensures declared { slice_get defs.now (read_table read.now) ≡ Some result.now }
    ensures fits { ReadFits result.now read.now }
{
    &defs[read.table() as usize]
}

/// Whether a read hits a committed write in a block above `after` and up to `upto`.
pub fn is_hit(entry: &LogEntry, watch: &Watch<'_>) -> bool
    requires read_fits { ReadFits watch.now.def.now watch.now.read.now }
    requires write_fits { read_table watch.now.read.now ≡ entry.now.placed.write.table → WriteFits watch.now.def.now entry.now.placed.write }
    ensures { result ≡ is_watched watch.now (stamped_of entry.now) }
{
    watch.read.hits(watch.def, &entry.placed.write)
        && (entry.block > watch.after && entry.block <= watch.upto)
}

/// Whether a read covers a row that may be there.
pub fn covers_part(read: &Read, def: &TableDef, row: &Option<Row>) -> bool
    requires read_fits { ReadFits def.now read.now }
    requires row_fits { IfSome row.now (λ r. RowFits def.now r) }
    ensures { result ≡ covers_some def.now read.now row.now }
{
    match row {
        None => false,
        Some(row) => read.covers(def, row),
    }
}
