//! Spans of the key of a table, where it is one column: they go by the keys themselves.

ghost use Rattle.std.specs.Prelude.{◌≡◌, ◌∷◌, [], All, IfOk, List, None, OnOk, Some, true, ℕ};
ghost use Rattle.std.specs.BTreeMap.Range.{IsLeBy, IsLtBy};
ghost use Rattle.std.specs.Range.Bound.{IsForward};
ghost use Rattle.rel_base.specs.Value.{key_cmp};
ghost use Rattle.rel_base.specs.declared.access.Read.TheVariants as read;
ghost use Rattle.rel_base.specs.declared.value.Value.{Value as Cell};
ghost use Rattle.row_sets.specs.Watched.{is_watched};
ghost use Rattle.version_index.specs.Candidates.{Adds, StandsBetween, is_forward, key_end_of};
ghost use Rattle.version_index.specs.Chain.{IsFirst};
ghost use Rattle.version_index.specs.Chains.{slot_in, slot_of};
ghost use Rattle.version_index.specs.Hits.{IsNumberBetween, IsOnKeyBetween, Lowers};
ghost use Rattle.version_index.specs.Numbers.{passes_at};
ghost use Rattle.version_index.specs.Span.{HasKeyAt, IsLostBetween};
ghost use Rattle.version_index.specs.View.{IsAsked, IsView, history_in};

use crate::candidates::{Candidate, add_from, is_in_order};
use crate::hits::{first_above_that_hits, first_among, first_hit};
use crate::span::{Ends, add_above, first_above};
use crate::view::TableView;
use rel_base::{Key, NoMemory, Twin, Value};
use row_sets::hits::Watch;
use std::alloc::Global;
use std::collections::BTreeMap;
use std::ops::Bound;

/// The ends of a span of keys of one value.
#[derive(Drop)]
struct KeyEnds {
    low: Bound<Key>,
    high: Bound<Key>,
}

/// The key of one value.
fn key_of_value(alloc: Global, value: &Value) -> Result<Key, NoMemory>
    ensures { IfOk result (λ key. key ≡ value.now ∷ []) }
{
    let value = value.copy(alloc)?;
    Ok(Key::of(value))
}

/// The end of a span that may be there, as one of keys of one value.
fn key_end(alloc: Global, value: &Option<Value>) -> Result<Bound<Key>, NoMemory>
    ensures { IfOk result (λ end. end ≡ key_end_of value.now) }
{
    match value {
        None => Ok(Bound::Unbounded),
        Some(value) => Ok(Bound::Included(key_of_value(alloc, value)?)),
    }
}

/// The ends of a span, which are in order, as those of keys of one value.
fn key_ends(alloc: Global, low: &Option<Value>, high: &Option<Value>) -> Result<KeyEnds, NoMemory>
    requires { is_forward low.now high.now ≡ true }
    ensures low { IfOk result (λ ends. ends.low ≡ key_end_of low.now) }
    ensures high { IfOk result (λ ends. ends.high ≡ key_end_of high.now) }
    ensures forward { IfOk result (λ ends. IsForward (IsLeBy key_cmp) (IsLtBy key_cmp) ends.low ends.high) }
{
    let low = key_end(alloc, low)?;
    let high = key_end(alloc, high)?;
    Ok(KeyEnds { low, high })
}

/// Whether more keys of a map lie between two ends than a limit says. Either answer serves, since it only says which of two ways is the
/// shorter one.
fn has_more(slots: &BTreeMap<Key, usize>, ends: &KeyEnds, limit: usize) -> bool
    requires { IsForward (IsLeBy key_cmp) (IsLtBy key_cmp) ends.now.low ends.now.high }
{
    let mut keys = slots.range((ends.low.as_ref(), ends.high.as_ref()));
    keys.nth(limit).is_some()
}

/// Adds the keys of a map that lie between two ends.
fn add_keys<'a>(
    view: &TableView<'a>,
    found: &mut Vec<Candidate<'a>>,
    slots: &'a BTreeMap<Key, usize>,
    ends: &KeyEnds,
) -> Result<(), NoMemory>
    requires forward { IsForward (IsLeBy key_cmp) (IsLtBy key_cmp) ends.now.low ends.now.high }
    requires own { (key : List Cell) (slot : ℕ) → slot_in slots.now.entries key ≡ Some slot → slot_of view.now.index.now.chains key ≡ Some slot }
    ensures { OnOk result (Adds view.now.index.now.chains found.old.items found.new.items (StandsBetween slots.now.entries ends.now.low ends.now.high)) }
{
    for (key, slot) in slots.range((ends.low.as_ref(), ends.high.as_ref())) {
        found.push((key, Some(*slot)))?;
    }
    Ok(())
}

/// Adds the keys that may have lost their row since the block of a height and lie between two ends, and those of the tail: the keys
/// whose row was deleted. Where there are more of them than writes above the height, it adds the keys of all these writes.
fn add_lost<'a>(
    view: &TableView<'a>,
    found: &mut Vec<Candidate<'a>>,
    ends: &KeyEnds,
    height: u64,
) -> Result<(), NoMemory>
    requires view { IsView view.now }
    requires forward { IsForward (IsLeBy key_cmp) (IsLtBy key_cmp) ends.now.low ends.now.high }
    ensures { OnOk result (Adds view.now.index.now.chains found.old.items found.new.items (IsLostBetween view.now ends.now.low ends.now.high height)) }
{
    let spare = view.entries.len() - first_above(view.entries, height);
    if has_more(&view.index.chains.ended, ends, spare) {
        return add_above(view, found, height);
    }
    add_keys(view, found, &view.index.chains.ended, ends)?;
    add_from(view, found, view.noted)
}

/// Adds the keys of one value between the ends of a span, which are in order, that may have a row after the block of a height.
pub fn add_by_key<'a>(
    alloc: Global,
    view: &TableView<'a>,
    found: &mut Vec<Candidate<'a>>,
    ends: Ends<'_>,
    height: u64,
) -> Result<(), NoMemory>
    requires view { IsView view.now }
    requires forward { is_forward ends.low.now ends.high.now ≡ true }
    ensures { OnOk result (Adds view.now.index.now.chains found.old.items found.new.items (HasKeyAt view.now ends.entry.low.now ends.entry.high.now height)) }
{
    let keys = key_ends(alloc, ends.low, ends.high)?;
    add_keys(view, found, &view.index.chains.living, &keys)?;
    add_lost(view, found, &keys, height)
}

/// The first of the noted writes that a read hits, on the keys of a map that lie between two ends, or a number that was found, where it
/// is less.
fn first_on_keys(
    view: &TableView<'_>,
    watch: &Watch<'_>,
    slots: &BTreeMap<Key, usize>,
    ends: &KeyEnds,
    found: Option<usize>,
) -> Option<usize>
    requires view { IsView view.now }
    requires watch { IsAsked watch.now.def.now watch.now.read.now view.now }
    requires forward { IsForward (IsLeBy key_cmp) (IsLtBy key_cmp) ends.now.low ends.now.high }
    ensures { Lowers (passes_at (is_watched watch.now) (history_in view.now)) found result (IsNumberBetween view.now.index.now.chains slots.now.entries ends.now.low ends.now.high) }
{
    let mut first = found;
    for (_, slot) in slots.range((ends.low.as_ref(), ends.high.as_ref())) {
        first = first_among(view, watch, view.index.chains.numbers(Some(*slot)), first);
    }
    first
}

/// The first write that a read hits in the tail or on a key that lies between two ends. Where there are more such keys than writes above
/// the height, it goes by all these writes.
fn first_between_keys(view: &TableView<'_>, watch: &Watch<'_>, ends: &KeyEnds) -> Option<usize>
    requires view { IsView view.now }
    requires watch { IsAsked watch.now.def.now watch.now.read.now view.now }
    requires forward { IsForward (IsLeBy key_cmp) (IsLtBy key_cmp) ends.now.low ends.now.high }
    ensures { Lowers (passes_at (is_watched watch.now) (history_in view.now)) None result (IsOnKeyBetween view.now ends.now.low ends.now.high) }
{
    let chains = &view.index.chains;
    let spare = view.entries.len() - first_above(view.entries, watch.after);
    if has_more(&chains.living, ends, spare) || has_more(&chains.ended, ends, spare) {
        return first_above_that_hits(view, watch);
    }
    let first = first_hit(view.entries, watch, view.noted);
    let living = first_on_keys(view, watch, &chains.living, ends, first);
    first_on_keys(view, watch, &chains.ended, ends, living)
}

/// The number of the first write that a span of the key of a table hits, where the key is one column. Where memory is wanting for the
/// ends, it goes by all writes above the height.
pub fn first_by_key(
    view: &TableView<'_>,
    watch: &Watch<'_>,
    column: u32,
    low: &Option<Value>,
    high: &Option<Value>,
) -> Option<usize>
    requires view { IsView view.now }
    requires watch { IsAsked watch.now.def.now watch.now.read.now view.now }
    requires span { watch.now.read.now ≡ read.Span view.now.table column low.now high.now }
    requires none { All (λ own. own.column ≡ column → ⊥) view.now.index.now.columns.items }
    ensures { IsFirst (is_watched watch.now) (history_in view.now) result }
{
    if !is_in_order(low, high) {
        return None;
    }
    let alloc = *view.index.chains.numbers.allocator();
    match key_ends(alloc, low, high) {
        Err(_) => first_above_that_hits(view, watch),
        Ok(ends) => first_between_keys(view, watch, &ends),
    }
}
