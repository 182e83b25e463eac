//! Keys that may have a row that a span covers, each with its slot.

ghost use Rattle.std.specs.Prelude.{◌≡◌, ◌<◌, OnOk, length, true};
ghost use Rattle.std.specs.Range.Bound.{bound_map};
ghost use Rattle.version_index.specs.Candidates.{Adds, HasSlot, HasSlotAt, IsKeyOf, IsListedAbove, IsAtBetween, IsAtOne, IsOwnKeyOf, IsWrittenFrom, end_of, is_forward};
ghost use Rattle.version_index.specs.Numbers.{ArePassing};
ghost use Rattle.version_index.specs.View.{IsView};

use crate::living::Living;
use crate::view::TableView;
use rel_base::{Key, NoMemory, Value};
use row_sets::entry::entry_at;
use std::collections::BTreeSet;
use std::ops::Bound;

/// A key that may have a row, with its slot, where it has one.
pub type Candidate<'a> = (&'a Key, Option<usize>);

/// Adds the key of the write of a number, whose slot is given.
fn push_key<'a>(
    view: &TableView<'a>,
    found: &mut Vec<Candidate<'a>>,
    number: usize,
    slot: Option<usize>,
) -> Result<(), NoMemory>
    requires within { number < length view.now.entries.now }
    requires own { HasSlotAt view.now number slot }
    ensures { OnOk result (Adds view.now.index.now.chains found.old.items found.new.items (IsKeyOf view.now number)) }
{
    let key = &entry_at(view.entries, number).placed.write.key;
    found.push((key, slot))?;
    Ok(())
}

/// Adds the key of the write of a number.
fn add_key_of<'a>(
    view: &TableView<'a>,
    found: &mut Vec<Candidate<'a>>,
    number: usize,
) -> Result<(), NoMemory>
    requires { number < length view.now.entries.now }
    ensures { OnOk result (Adds view.now.index.now.chains found.old.items found.new.items (IsKeyOf view.now number)) }
{
    let slot = view
        .index
        .chains
        .slot(&entry_at(view.entries, number).placed.write.key);
    push_key(view, found, number, slot)
}

/// Adds the key of a slot.
fn add_slot<'a>(
    view: &TableView<'a>,
    found: &mut Vec<Candidate<'a>>,
    slot: usize,
) -> Result<(), NoMemory>
    requires { IsView view.now }
    ensures { OnOk result (Adds view.now.index.now.chains found.old.items found.new.items (HasSlot view.now slot)) }
{
    match view.index.chains.last(slot) {
        None => Ok(()),
        Some(number) => push_key(view, found, number, Some(slot)),
    }
}

/// Adds the keys of some slots.
fn add_slots<'a>(
    view: &TableView<'a>,
    found: &mut Vec<Candidate<'a>>,
    slots: &BTreeSet<usize>,
) -> Result<(), NoMemory>
    requires { IsView view.now }
    ensures { OnOk result (Adds view.now.index.now.chains found.old.items found.new.items (IsAtOne view.now slots.now)) }
{
    for slot in slots.iter() {
        add_slot(view, found, *slot)?;
    }
    Ok(())
}

/// Adds the keys of some slots. Room for all of them is taken at once.
fn add_all_slots<'a>(
    view: &TableView<'a>,
    found: &mut Vec<Candidate<'a>>,
    slots: &BTreeSet<usize>,
) -> Result<(), NoMemory>
    requires { IsView view.now }
    ensures { OnOk result (Adds view.now.index.now.chains found.old.items found.new.items (IsAtOne view.now slots.now)) }
{
    found.reserve(slots.len())?;
    add_slots(view, found, slots)
}

/// The end of a span that may be there.
pub fn end(value: &Option<Value>) -> Bound<&Value>
    ensures { bound_map (λ v. v.now) result ≡ end_of value.now }
{
    match value {
        None => Bound::Unbounded,
        Some(value) => Bound::Included(value),
    }
}

/// Whether no end of a span is above the other.
pub fn is_in_order(low: &Option<Value>, high: &Option<Value>) -> bool
    ensures { result ≡ is_forward low.now high.now }
{
    match (low, high) {
        (Some(low), Some(high)) => low <= high,
        _ => true,
    }
}

/// Adds the keys of the slots at a value between the ends of a span, which is in order.
pub fn add_living<'a>(
    view: &TableView<'a>,
    found: &mut Vec<Candidate<'a>>,
    living: &Living,
    low: &Option<Value>,
    high: &Option<Value>,
) -> Result<(), NoMemory>
    requires view { IsView view.now }
    requires forward { is_forward low.now high.now ≡ true }
    ensures { OnOk result (Adds view.now.index.now.chains found.old.items found.new.items (IsAtBetween view.now living.now.entries low.now high.now)) }
{
    for (_, slots) in living.range((end(low), end(high))) {
        add_all_slots(view, found, slots)?;
    }
    Ok(())
}

/// Adds the key of the write of a number, where it is on the table.
fn add_own<'a>(
    view: &TableView<'a>,
    found: &mut Vec<Candidate<'a>>,
    number: usize,
) -> Result<(), NoMemory>
    requires { number < length view.now.entries.now }
    ensures { OnOk result (Adds view.now.index.now.chains found.old.items found.new.items (IsOwnKeyOf view.now number)) }
{
    if entry_at(view.entries, number).placed.write.table == view.table {
        add_key_of(view, found, number)
    } else {
        Ok(())
    }
}

/// Adds the keys of the writes on the table from a number on.
pub fn add_from<'a>(
    view: &TableView<'a>,
    found: &mut Vec<Candidate<'a>>,
    start: usize,
) -> Result<(), NoMemory>
    ensures { OnOk result (Adds view.now.index.now.chains found.old.items found.new.items (IsWrittenFrom view.now start)) }
{
    for number in start..view.entries.len() {
        add_own(view, found, number)?;
    }
    Ok(())
}

/// Adds the keys of noted writes in blocks above a height, by the rising numbers of the writes.
pub fn add_listed<'a>(
    view: &TableView<'a>,
    found: &mut Vec<Candidate<'a>>,
    numbers: &[usize],
    height: u64,
) -> Result<(), NoMemory>
    requires view { IsView view.now }
    requires numbers { ArePassing view.now.noted numbers.now }
    ensures { OnOk result (Adds view.now.index.now.chains found.old.items found.new.items (IsListedAbove view.now numbers.now height)) }
{
    let mut left = numbers;
    while let Some((number, earlier)) = left.split_last() {
        if entry_at(view.entries, *number).block <= height {
            return Ok(());
        }
        add_key_of(view, found, *number)?;
        left = earlier;
    }
    Ok(())
}
