//! The writes that a read hits.

ghost use Rattle.std.specs.Prelude.{◌≡◌, ◌<◌, ◌⊎◌, IfSome, Some, length, slice_get};
ghost use Rattle.std.specs.Option.{option_map};
ghost use Rattle.rel_base.specs.Access.{ReadFits, read_table};
ghost use Rattle.rel_base.specs.Among.{ReadFitsIn, WriteFitsIn};
ghost use Rattle.rel_base.specs.Late.{least_hit, lesser, stamp_cmp};
ghost use Rattle.rel_base.specs.Tables.{HistoryFits, Stamped, writes_between};
ghost use Rattle.row_sets.specs.Versions.{hit_by, hit_of};
ghost use Rattle.row_sets.specs.Log.{FitsTable, history_of, stamped_of};
ghost use Rattle.version_store.specs.Hits.{least_of, lesser_hit};
ghost use Rattle.version_store.specs.Log.{IsOfTable, write_of};

use rel_base::{Read, TableDef};
use row_sets::HitRef;
use row_sets::entry::{LogEntry, entry_at, place_at};
use row_sets::hits::{Watch, covers_part, def_of, is_hit};
use std::cmp::Ordering;

/// The order of two writes: by block, position and key.
fn compare(a: &LogEntry, b: &LogEntry) -> Ordering
    ensures { result ≡ stamp_cmp (stamped_of a.now) (stamped_of b.now) }
{
    let by_key = a.placed.write.key.cmp(&b.placed.write.key);
    let by_pos = a.placed.pos.cmp(&b.placed.pos);
    a.block.cmp(&b.block).then(by_pos.then(by_key))
}

/// The number of the lesser of a write and of another one that may be there, and of the first where they tie.
fn lesser_of(log: &[LogEntry], number: usize, other: Option<usize>) -> usize
    requires number { number < length log.now }
    requires other { IfSome other (λ n. n < length log.now) }
    ensures lesser { (stamped : Stamped) → slice_get (history_of log.now) number ≡ Some stamped → slice_get (history_of log.now) result ≡ Some (lesser stamp_cmp stamped (write_of (history_of log.now) other)) }
    ensures either { (result ≡ number) ⊎ (Some result ≡ other) }
{
    match other {
        None => number,
        Some(other) => {
            let first = entry_at(log, number);
            let second = entry_at(log, other);
            if compare(first, second).is_gt() {
                other
            } else {
                number
            }
        }
    }
}

/// The number of the least hit from a number on, by that of the least one after it.
fn least_with(
    log: &[LogEntry],
    watch: &Watch<'_>,
    number: usize,
    least: Option<usize>,
) -> Option<usize>
    requires read_fits { ReadFits watch.now.def.now watch.now.read.now }
    requires fits { FitsTable watch.now.def.now (read_table watch.now.read.now) (history_of log.now) }
    requires below { number < length log.now }
    requires on_table { IfSome least (IsOfTable log.now (read_table watch.now.read.now)) }
    ensures on_table { IfSome result (IsOfTable log.now (read_table watch.now.read.now)) }
    ensures least { (stamped : Stamped) → slice_get (history_of log.now) number ≡ Some stamped → write_of (history_of log.now) result ≡ lesser_hit watch.now stamped (write_of (history_of log.now) least) }
{
    if is_hit(entry_at(log, number), watch) {
        Some(lesser_of(log, number, least))
    } else {
        least
    }
}

/// The number of the least write, by block, position and key, in the blocks above `after` and up to `upto` that a read hits.
fn least_at(log: &[LogEntry], watch: &Watch<'_>) -> Option<usize>
    requires read_fits { ReadFits watch.now.def.now watch.now.read.now }
    requires fits { FitsTable watch.now.def.now (read_table watch.now.read.now) (history_of log.now) }
    ensures on_table { IfSome result (IsOfTable log.now (read_table watch.now.read.now)) }
    ensures least { write_of (history_of log.now) result ≡ least_of watch.now.def.now watch.now.read.now (writes_between watch.now.after watch.now.upto (history_of log.now)) }
{
    let mut least = None;
    let mut start = log.len();
    while start > 0 {
        least = least_with(log, watch, start - 1, least);
        start -= 1;
    }
    least
}

/// What is reported of a write that a read hits.
fn hit_ref<'a>(defs: &[TableDef], read: &Read, entry: &'a LogEntry) -> HitRef<'a>
    requires read_fits { ReadFitsIn defs.now read.now }
    requires on_table { entry.now.placed.write.table ≡ read_table read.now }
    requires write_fits { WriteFitsIn defs.now entry.now.placed.write }
    ensures { hit_of result ≡ hit_by defs.now read.now (stamped_of entry.now) }
{
    let def = def_of(defs, read);
    let stale = covers_part(read, def, &entry.placed.write.before);
    HitRef {
        place: place_at(entry),
        key: &entry.placed.write.key,
        stale,
    }
}

/// The least write, by block, position and key, of the blocks above `after` and up to `upto` that a read hits, or nothing
/// where it hits none.
pub fn late_at<'a>(
    defs: &[TableDef],
    log: &'a [LogEntry],
    read: &Read,
    after: u64,
    upto: u64,
) -> Option<HitRef<'a>>
    requires fits { HistoryFits defs.now (history_of log.now) }
    requires read_fits { ReadFitsIn defs.now read.now }
    ensures { option_map hit_of result ≡ option_map (hit_by defs.now read.now) (least_hit defs.now read.now (writes_between after upto (history_of log.now))) }
{
    let def = def_of(defs, read);
    let watch = Watch {
        def,
        read,
        after,
        upto,
    };
    match least_at(log, &watch) {
        None => None,
        Some(number) => Some(hit_ref(defs, read, entry_at(log, number))),
    }
}
