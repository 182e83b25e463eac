//! The rows of a span.

ghost use Rattle.std.specs.Prelude.{◌≡◌, ◌≤◌, All, Contains, IfOk, IfSome, List, None, OnOk, length, take, true};
ghost use Rattle.std.specs.List.Sorted.{IsStrictlySortedBy};
ghost use Rattle.std.specs.Option.{option_copied};
ghost use Rattle.rel_base.specs.Lent.{lent_rows, rows_of};
ghost use Rattle.rel_base.specs.Tables.{rows, tables_at};
ghost use Rattle.rel_base.specs.Value.{key_cmp};
ghost use Rattle.rel_base.specs.declared.access.Read.TheVariants as read;
ghost use Rattle.rel_base.specs.declared.value.Value.{Value as Cell};
ghost use Rattle.row_sets.specs.Log.{history_of};
ghost use Rattle.version_index.specs.Candidates.{Adds, IsCandidate, has_key, is_forward, only_value};
ghost use Rattle.version_index.specs.Columns.{IsColumn};
ghost use Rattle.version_index.specs.Log.{InOrder};
ghost use Rattle.version_index.specs.Rows.{IsValueOf, rows_of_keys};
ghost use Rattle.version_index.specs.Span.{HasCellAt, IsChangedAbove, IsChangedBetween, IsTouchedSince, IsWantedBy, are_rising, distinct, is_above, is_again, keys_in};
ghost use Rattle.version_index.specs.View.{IsAsked, IsView, history_in};
ghost use Rattle.version_index.specs.declared.chains.Chains.{Chains};

use crate::candidates::{Candidate, add_from, add_listed, add_living, end, is_in_order};
use crate::column::ColumnIndex;
use crate::index::TableIndex;
use crate::key_spans::add_by_key;
use crate::rows::{add_copy, add_lent, covered_of_key};
use crate::view::{ReadAtHeight, TableView};
use rel_base::{Key, List, NoMemory, Row, Seen, Value};
use row_sets::entry::{LogEntry, entry_at};
use std::alloc::Global;

/// The ends of a span, each of which may be absent.
#[derive(Clone, Copy)]
pub struct Ends<'a> {
    pub low: &'a Option<Value>,
    pub high: &'a Option<Value>,
}

/// The index by the values of a column of a table, where there is one.
pub fn column_of(columns: &[ColumnIndex], column: u32) -> Option<&ColumnIndex>
    ensures some { IfSome (option_copied result) (λ own. (own.column ≡ column) × Contains columns.now own) }
    ensures none { option_copied result ≡ None → All (λ own. own.column ≡ column → ⊥) columns.now }
{
    for own in columns {
        if own.column == column {
            return Some(own);
        }
    }
    None
}

/// The one value of a span, where it has one.
pub fn one_value<'a>(low: &'a Option<Value>, high: &Option<Value>) -> Option<&'a Value>
    ensures { option_copied result ≡ only_value low.now high.now }
{
    match (low, high) {
        (Some(low), Some(high)) if low == high => Some(low),
        _ => None,
    }
}

/// The number of the writes at the start of the log that are in no block above a height. Each look halves what is left.
fn search_above(entries: &[LogEntry], height: u64) -> usize
    requires in_order { InOrder (history_of entries.now) }
    ensures bound { result ≤ length entries.now }
    ensures low { All (λ stamped. stamped.0 ≤ height) (take result (history_of entries.now)) }
{
    let mut start = 0;
    let mut end = entries.len();
    while start < end {
        let middle = start + (end - start) / 2;
        if entry_at(entries, middle).block <= height {
            start = middle + 1;
        } else {
            end = middle;
        }
    }
    start
}

/// The number of the writes at the start of the log that are in no block above a height. Most reads name the last height, and then one
/// look tells it.
pub fn first_above(entries: &[LogEntry], height: u64) -> usize
    requires in_order { InOrder (history_of entries.now) }
    ensures bound { result ≤ length entries.now }
    ensures low { All (λ stamped. stamped.0 ≤ height) (take result (history_of entries.now)) }
{
    let end = entries.len();
    if end > 0 && entry_at(entries, end - 1).block <= height {
        return end;
    }
    search_above(entries, height)
}

/// Adds the keys of the writes on the table in blocks above a height, and of those of the tail.
pub fn add_above<'a>(
    view: &TableView<'a>,
    found: &mut Vec<Candidate<'a>>,
    height: u64,
) -> Result<(), NoMemory>
    requires { IsView view.now }
    ensures { OnOk result (Adds view.now.index.now.chains found.old.items found.new.items (IsChangedAbove view.now height)) }
{
    let start = first_above(view.entries, height);
    add_from(view, found, start.min(view.noted))
}

/// Adds the keys of the noted writes in blocks above a height that touched a value, and of those of the tail.
fn add_touching<'a>(
    view: &TableView<'a>,
    found: &mut Vec<Candidate<'a>>,
    column: &ColumnIndex,
    value: &Value,
    height: u64,
) -> Result<(), NoMemory>
    requires view { IsView view.now }
    requires column { IsColumn view.now.table (history_in view.now) view.now.noted view.now.index.now.chains column.now }
    ensures { OnOk result (Adds view.now.index.now.chains found.old.items found.new.items (IsTouchedSince view.now column.now.column value.now height)) }
{
    add_listed(view, found, column.numbers(value), height)?;
    add_from(view, found, view.noted)
}

/// Adds the keys of the noted writes in blocks above a height that touched a value between the ends of a span, which are in order, and of
/// those of the tail. Where there are more such values than writes above the height, it adds the keys of all these writes.
fn add_between<'a>(
    view: &TableView<'a>,
    found: &mut Vec<Candidate<'a>>,
    column: &ColumnIndex,
    low: &Option<Value>,
    high: &Option<Value>,
    height: u64,
) -> Result<(), NoMemory>
    requires view { IsView view.now }
    requires column { IsColumn view.now.table (history_in view.now) view.now.noted view.now.index.now.chains column.now }
    requires forward { is_forward low.now high.now ≡ true }
    ensures { OnOk result (Adds view.now.index.now.chains found.old.items found.new.items (IsChangedBetween view.now column.now.column low.now high.now height)) }
{
    let start = first_above(view.entries, height);
    let mut spare = view.entries.len() - start;
    for (_, place) in column.touched.places.range((end(low), end(high))) {
        if spare == 0 {
            return add_above(view, found, height);
        }
        spare -= 1;
        add_listed(view, found, column.touched.list(*place), height)?;
    }
    add_from(view, found, view.noted)
}

/// Adds the keys whose row after the block of a height may have a value of a column between the ends of a span, which are in order, by the
/// index of the column.
fn add_by_column<'a>(
    view: &TableView<'a>,
    found: &mut Vec<Candidate<'a>>,
    column: &ColumnIndex,
    ends: Ends<'_>,
    height: u64,
) -> Result<(), NoMemory>
    requires view { IsView view.now }
    requires column { IsColumn view.now.table (history_in view.now) view.now.noted view.now.index.now.chains column.now }
    requires forward { is_forward ends.low.now ends.high.now ≡ true }
    ensures { OnOk result (Adds view.now.index.now.chains found.old.items found.new.items (HasCellAt view.now column.now.column ends.entry.low.now ends.entry.high.now height)) }
{
    add_living(view, found, &column.living, ends.low, ends.high)?;
    match one_value(ends.low, ends.high) {
        None => add_between(view, found, column, ends.low, ends.high, height),
        Some(value) => add_touching(view, found, column, value, height),
    }
}

/// Whether a key is the last one.
fn is_last(last: Option<&Key>, key: &Key) -> bool
    ensures { result ≡ is_again (option_copied last.entry) key.now }
{
    match last {
        None => false,
        Some(last) => last.cmp(key).is_eq(),
    }
}

/// Whether a key stands after the last one.
fn is_next(last: Option<&Key>, key: &Key) -> bool
    ensures { result ≡ is_above (option_copied last.entry) key.now }
{
    match last {
        None => true,
        Some(last) => last.cmp(key).is_lt(),
    }
}

/// Whether each key stands after the one before it.
fn are_rising(found: &[Candidate<'_>]) -> bool
    ensures { result ≡ are_rising None (keys_in found.now) }
{
    let mut last = None;
    for (key, _) in found {
        if !is_next(last, *key) {
            return false;
        }
        last = Some(*key);
    }
    true
}

/// Keys in order, each once, of keys in order, of which some may stand there more than once.
fn once_each<'a>(alloc: Global, found: &[Candidate<'a>]) -> Result<Vec<Candidate<'a>>, NoMemory>
    ensures keys { IfOk result (λ kept. keys_in kept.items ≡ distinct None (keys_in found.now)) }
    ensures right { IfOk result (λ kept. (chains : Chains) → All (IsCandidate chains) found.now → All (IsCandidate chains) kept.items) }
{
    let mut kept = Vec::with_capacity(alloc, found.len())?;
    let mut last = None;
    for (key, slot) in found {
        if !is_last(last, *key) {
            kept.push((*key, *slot))?;
            last = Some(*key);
        }
    }
    Ok(kept)
}

/// Keys in order, each once. Mostly they are so as they were found, and then one look at each tells it.
fn in_order<'a>(
    alloc: Global,
    mut found: Vec<Candidate<'a>>,
) -> Result<Vec<Candidate<'a>>, NoMemory>
    ensures rise { IfOk result (λ kept. IsStrictlySortedBy key_cmp (keys_in kept.items)) }
    ensures all { IfOk result (λ kept. (key : List Cell) → has_key found.entry.items key ≡ true → has_key kept.items key ≡ true) }
    ensures right { IfOk result (λ kept. (chains : Chains) → All (IsCandidate chains) found.entry.items → All (IsCandidate chains) kept.items) }
{
    if are_rising(found.as_slice()) {
        return Ok(found);
    }
    found.sort()?;
    let kept = once_each(alloc, found.as_slice())?;
    Ok(kept)
}

/// The rows of keys after the block of a height that a read covers, in the order of the keys. The one value of the read may be given.
fn rows_of_found(
    alloc: Global,
    view: &TableView<'_>,
    look: &ReadAtHeight<'_>,
    value: Option<&Value>,
    found: &[Candidate<'_>],
) -> Result<List<Seen>, NoMemory>
    requires view { IsView view.now }
    requires look { IsAsked look.now.def.now look.now.read.now view.now }
    requires value { IsValueOf look.now.read.now (option_copied value) }
    requires found { All (IsCandidate view.now.index.now.chains) found.now }
    ensures { IfOk result (λ rows. rows ≡ rows_of_keys look.now.def.now look.now.read.now (tables_at look.now.height (history_in view.now)) view.now.table (keys_in found.now)) }
{
    let mut rows = List::from_vec(Vec::with_capacity(alloc, found.len())?);
    for (key, slot) in found {
        add_copy(
            alloc,
            &mut rows,
            covered_of_key(view, look, value, (*key, *slot)),
        )?;
    }
    Ok(rows)
}

/// The keys whose row after the block of a height may have a value of a column between the ends of a span, which are in order; the keys
/// are in order too, each once.
fn keys_between<'a>(
    alloc: Global,
    view: &TableView<'a>,
    column: u32,
    ends: Ends<'_>,
    height: u64,
) -> Result<Vec<Candidate<'a>>, NoMemory>
    requires view { IsView view.now }
    requires forward { is_forward ends.low.now ends.high.now ≡ true }
    ensures found { IfOk result (λ found. All (IsCandidate view.now.index.now.chains) found.items) }
    ensures rise { IfOk result (λ found. IsStrictlySortedBy key_cmp (keys_in found.items)) }
    ensures all { IfOk result (λ found. (key : List Cell) → IsWantedBy view.now column ends.entry.low.now ends.entry.high.now height key → has_key found.items key ≡ true) }
{
    let mut found = Vec::new(alloc);
    match column_of(view.index.columns.as_slice(), column) {
        None => add_by_key(alloc, view, &mut found, ends, height)?,
        Some(own) => add_by_column(view, &mut found, own, ends, height)?,
    }
    let kept = in_order(alloc, found)?;
    Ok(kept)
}

/// The keys whose row after the block of a height may have a value of a column between the ends of a span, in order, each once.
fn keys_of_span<'a>(
    alloc: Global,
    view: &TableView<'a>,
    column: u32,
    ends: Ends<'_>,
    height: u64,
) -> Result<Vec<Candidate<'a>>, NoMemory>
    requires { IsView view.now }
    ensures found { IfOk result (λ found. All (IsCandidate view.now.index.now.chains) found.items) }
    ensures rise { IfOk result (λ found. IsStrictlySortedBy key_cmp (keys_in found.items)) }
    ensures all { IfOk result (λ found. (key : List Cell) → IsWantedBy view.now column ends.entry.low.now ends.entry.high.now height key → has_key found.items key ≡ true) }
{
    if is_in_order(ends.low, ends.high) {
        keys_between(alloc, view, column, ends, height)
    } else {
        Ok(Vec::new(alloc))
    }
}

/// The rows after the block of a height whose value in a column lies between the ends of a span, in the order of their keys.
pub fn rows_of_span(
    alloc: Global,
    view: &TableView<'_>,
    look: &ReadAtHeight<'_>,
    column: u32,
    low: &Option<Value>,
    high: &Option<Value>,
) -> Result<List<Seen>, NoMemory>
    requires view { IsView view.now }
    requires look { IsAsked look.now.def.now look.now.read.now view.now }
    requires span { look.now.read.now ≡ read.Span view.now.table column low.now high.now }
    ensures { IfOk result (λ seen. seen ≡ rows look.now.def.now look.now.read.now (tables_at look.now.height (history_in view.now))) }
{
    let found = keys_of_span(alloc, view, column, Ends { low, high }, look.height)?;
    rows_of_found(alloc, view, look, one_value(low, high), found.as_slice())
}

/// The rows of keys after the block of a height that a read covers, in the order of the keys, lent by the log. The one value of the read
/// may be given.
fn found_lent<'a>(
    alloc: Global,
    view: &TableView<'a>,
    look: &ReadAtHeight<'_>,
    value: Option<&Value>,
    found: &[Candidate<'_>],
) -> Result<Vec<&'a Row>, NoMemory>
    requires view { IsView view.now }
    requires look { IsAsked look.now.def.now look.now.read.now view.now }
    requires value { IsValueOf look.now.read.now (option_copied value) }
    requires found { All (IsCandidate view.now.index.now.chains) found.now }
    ensures { IfOk result (λ lent. lent_rows lent.items ≡ rows_of (rows_of_keys look.now.def.now look.now.read.now (tables_at look.now.height (history_in view.now)) view.now.table (keys_in found.now))) }
{
    let mut rows = Vec::with_capacity(alloc, found.len())?;
    for (key, slot) in found {
        add_lent(&mut rows, covered_of_key(view, look, value, (*key, *slot)))?;
    }
    Ok(rows)
}

/// The rows after the block of a height whose value in a column lies between the ends of a span, in the order of their keys, lent by the
/// log.
pub fn span_lent<'a>(
    alloc: Global,
    view: &TableView<'a>,
    look: &ReadAtHeight<'_>,
    column: u32,
    low: &Option<Value>,
    high: &Option<Value>,
) -> Result<Vec<&'a Row>, NoMemory>
    requires view { IsView view.now }
    requires look { IsAsked look.now.def.now look.now.read.now view.now }
    requires span { look.now.read.now ≡ read.Span view.now.table column low.now high.now }
    ensures { IfOk result (λ lent. lent_rows lent.items ≡ rows_of (rows look.now.def.now look.now.read.now (tables_at look.now.height (history_in view.now)))) }
{
    let found = keys_of_span(alloc, view, column, Ends { low, high }, look.height)?;
    found_lent(alloc, view, look, one_value(low, high), found.as_slice())
}
