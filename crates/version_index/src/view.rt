//! The log, as the index of one table sees it.

ghost use Rattle.std.specs.Prelude.{◌<◌};

use crate::index::TableIndex;
use rel_base::{Read, TableDef};
use row_sets::entry::LogEntry;

/// The log, with the index of a table. The index tells of the first entries of the log, as many as are noted; those from there on are
/// the tail.
#[derive(Clone, Copy)]
pub struct TableView<'a> {
    pub entries: &'a [LogEntry],
    pub noted: usize,
    pub table: u32,
    pub index: &'a TableIndex,
}

/// A read at a height, with the declaration of its table.
#[derive(Clone, Copy)]
pub struct ReadAtHeight<'a> {
    pub def: &'a TableDef,
    pub read: &'a Read,
    pub height: u64,
}
