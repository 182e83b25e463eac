//! Places of reads and writes in the rows of a directory.

ghost use Rattle.std.specs.Prelude.{None, Some, ◌≡◌, ◌<◌, IfSome, cond};
ghost use Rattle.conflict_rules.specs.Marking.{is_column, named_place, one_place, read_place, table_place, value_place, whole_place, write_place};
ghost use Rattle.rel_base.specs.Row.{value_at};
ghost use Rattle.rel_base.specs.Value.{value_eq};

use crate::key_hash::{key_place, value_hash};
use rel_base::{Made, Read, Value, Write};

/// How many words a row has: a place for each hash of a key, one for each of the tables, by their last six bits, one for each
/// hash of a value, and the last.
pub const ROW: usize = 1345;

/// The place of transactions whose values are not marked.
pub const UNMARKED: u32 = 1344;

/// The place of a table.
pub fn table_place(table: u32) -> u32
    ensures place { result ≡ table_place table }
    ensures within { result < 1345 }
{
    1024 + table % 64
}

/// The place of a value of a table.
pub fn value_place(table: u32, value: &Value) -> u32
    ensures place { result ≡ value_place table value.now }
    ensures within { result < 1345 }
{
    1088 + value_hash(table, value)
}

/// The place of the value of a row in a column. A row that lacks the column counts as one with zero there, as it does where a span
/// covers it.
pub fn cell_place(table: u32, row: &[Value], column: u32) -> u32
    ensures place { result ≡ value_place table (value_at row.now column) }
    ensures within { result < 1345 }
{
    if column as usize >= row.len() {
        return value_place(table, &Value::Int(0));
    }
    value_place(table, &row[column as usize])
}

/// The place of a write, which is that of its key.
pub fn write_place(write: &Write) -> u32
    ensures place { result ≡ write_place write.now }
    ensures within { result < 1345 }
{
    key_place(write.table, &write.key)
}

/// The place of the whole of a read: of a point, that of its key, and of a span, that of its table.
pub fn whole_place(read: &Read) -> u32
    ensures place { result ≡ whole_place read.now }
    ensures within { result < 1345 }
{
    match read {
        Read::Point { table, key } => key_place(*table, key),
        Read::Span { table, .. } => table_place(*table),
    }
}

// The place of the value between two ends, where they are the same.
fn same_place(table: u32, low: &Value, high: &Value) -> Option<u32>
    ensures place { result ≡ cond (value_eq low.now high.now) (Some (value_place table low.now)) None }
    ensures within { IfSome result (λ place. place < 1345) }
{
    if low.cmp(high).is_eq() {
        Some(value_place(table, low))
    } else {
        None
    }
}

// The place of the one value that ends leave, if they leave one.
fn one_place(table: u32, low: &Option<Value>, high: &Option<Value>) -> Option<u32>
    ensures place { result ≡ one_place table low.now high.now }
    ensures within { IfSome result (λ place. place < 1345) }
{
    match low {
        None => None,
        Some(low) => match high {
            None => None,
            Some(high) => same_place(table, low, high),
        },
    }
}

// Whether values of a column are marked.
fn is_column(marked: Option<u32>, column: u32) -> bool
    ensures { result ≡ is_column marked column }
{
    match marked {
        None => false,
        Some(marked) => marked == column,
    }
}

/// The place of the one value of the marked column that a read names, if it names one.
pub fn named_place(marked: Option<u32>, read: &Read) -> Option<u32>
    ensures place { result ≡ named_place marked read.now }
    ensures within { IfSome result (λ place. place < 1345) }
{
    match read {
        Read::Point { .. } => None,
        Read::Span {
            table,
            column,
            low,
            high,
        } => {
            if is_column(marked, *column) {
                one_place(*table, low, high)
            } else {
                None
            }
        }
    }
}

/// The place of a read: that of the value that it names, and of its whole where it names none.
pub fn read_place(marked: Option<u32>, read: &Read) -> u32
    ensures place { result ≡ read_place marked read.now }
    ensures within { result < 1345 }
{
    match named_place(marked, read) {
        None => whole_place(read),
        Some(place) => place,
    }
}

// The column of a span of one value.
fn named_column(read: &Read) -> Option<u32> {
    match read {
        Read::Span {
            table: _,
            column,
            low: Some(low),
            high: Some(high),
        } => { if low == high { Some(*column) } else { None } }
        _ => None,
    }
}

/// The column of the first span of one value among some reads. Another column would do too, but for the time that it costs.
pub fn first_column(reads: &[Made]) -> Option<u32> {
    for made in reads {
        if let Some(column) = named_column(&made.read) {
            return Some(column);
        }
    }
    None
}
