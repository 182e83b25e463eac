//! Walks along the writes on one key, from the last one back.

ghost use Rattle.std.specs.Prelude.{◌≡◌, ◌≤◌, ◌<◌, IfSome, List, Some, cond, length, take};
ghost use Rattle.std.specs.Option.{option_map};
ghost use Rattle.rel_base.specs.declared.value.Value.{Value as Cell};
ghost use Rattle.version_index.specs.Chain.{IsFirst, IsLast, IsLastFrom, is_late, is_on, is_seen};
ghost use Rattle.version_index.specs.Chains.{slot_of};
ghost use Rattle.version_index.specs.View.{IsBack, IsView, history_in, noted_below};

use crate::finding::last_seen;
use crate::look_up::LookUp;
use crate::steps::Steps;
use crate::view::TableView;
use rel_base::Key;
use row_sets::entry::{entry_at, is_on_key};
use std::marker::Brand;
use std::sync::ledger::{Blank, Ledger};

/// A write on a key: its number, and those of the noted writes on the key before it.
#[derive(Clone, Copy)]
pub struct Back<'a> {
    pub number: usize,
    pub left: &'a [usize],
}

/// The number of the last write on a key in the tail, below a number.
fn last_in_tail(view: &TableView<'_>, key: &Key, below: usize) -> Option<usize>
    requires { below ≤ length view.now.entries.now }
    ensures last { IsLastFrom (is_on (view.now.table, key.now)) view.now.noted (take below (history_in view.now)) result }
    ensures in_tail { IfSome result (λ number. view.now.noted ≤ number) }
{
    let mut end = below;
    while end > view.noted {
        if is_on_key(entry_at(view.entries, end - 1), view.table, key) {
            return Some(end - 1);
        }
        end -= 1;
    }
    None
}

/// The last of some noted writes.
fn last_noted(numbers: &[usize]) -> Option<Back<'_>>
    ensures { IsBack numbers.now result }
{
    match numbers.split_last() {
        None => None,
        Some((number, left)) => Some(Back {
            number: *number,
            left,
        }),
    }
}

/// The last write on a key below a number. The noted ones below that number are given.
pub fn last_before<'a>(
    view: &TableView<'a>,
    key: &Key,
    left: &'a [usize],
    end: usize,
) -> Option<Back<'a>>
    requires within { end ≤ length view.now.entries.now }
    requires left { left.now ≡ noted_below view.now key.now end }
    ensures last { IsLast (is_on (view.now.table, key.now)) (take end (history_in view.now)) (option_map (λ back. back.number) result) }
    ensures left { IfSome result (λ back. back.left.now ≡ noted_below view.now key.now back.number) }
{
    match last_in_tail(view, key, end) {
        None => last_noted(left),
        Some(number) => Some(Back { number, left }),
    }
}

/// The last write on a key, whose slot is given.
pub fn last_on<'a>(view: &TableView<'a>, key: &Key, slot: Option<usize>) -> Option<Back<'a>>
    requires view { IsView view.now }
    requires slot { slot ≡ slot_of view.now.index.now.chains key.now }
    ensures last { IsLast (is_on (view.now.table, key.now)) (history_in view.now) (option_map (λ back. back.number) result) }
    ensures left { IfSome result (λ back. back.left.now ≡ noted_below view.now key.now back.number) }
{
    let numbers = view.index.chains.numbers(slot);
    last_before(view, key, numbers, view.entries.len())
}

/// The number of the last write on a key in a block up to a height. Its steps are not counted.
fn last_uncounted<L: Ledger>(
    view: &TableView<'_>,
    key: &Key,
    slot: Option<usize>,
    height: u64,
    blank: Blank,
) -> Option<usize>
    requires view { IsView view.now }
    requires slot { slot ≡ slot_of view.now.index.now.chains key.now }
    requires name { blank.name ≡ L.name }
    requires parts { blank.parts ≡ L.parts }
    requires some { 0 < L.parts }
    ensures { IsLast (is_seen (view.now.table, key.now) height) (history_in view.now) result }
{
    let mut steps = Steps::<L>::new(blank);
    match last_seen(&LookUp::new(*view), key, slot, height, &mut steps) {
        None => None,
        Some(probed) => Some(probed.number),
    }
}

/// The number of the last write on the key of a slot, where there is no tail to look through.
fn last_if_all_noted(view: &TableView<'_>, slot: Option<usize>) -> Option<usize>
    requires { IsView view.now }
    ensures { (key : List Cell) → slot ≡ slot_of view.now.index.now.chains key → IfSome result (λ number. IsLast (is_on (view.now.table, key)) (history_in view.now) (Some number)) }
{
    if view.noted < view.entries.len() {
        return None;
    }
    match slot {
        None => None,
        Some(slot) => view.index.chains.last(slot),
    }
}

/// The number of the last write on a key in a block up to a height. The tail is looked through, and then the noted writes.
fn last_by_walk(view: &TableView<'_>, key: &Key, slot: Option<usize>, height: u64) -> Option<usize>
    requires view { IsView view.now }
    requires slot { slot ≡ slot_of view.now.index.now.chains key.now }
    ensures { IsLast (is_seen (view.now.table, key.now) height) (history_in view.now) result }
{
    // The last write is what most reads want, so that the others are searched only where it is above the height.
    if let Some(back) = last_on(view, key, slot) {
        if entry_at(view.entries, back.number).block <= height {
            return Some(back.number);
        }
    }
    last_uncounted::<Brand>(view, key, slot, height, Blank::new(1))
}

/// The number of the last write on a key in a block up to a height. Where there is no tail, the last write of all is looked at first,
/// with no call.
pub fn last_up_to(
    view: &TableView<'_>,
    key: &Key,
    slot: Option<usize>,
    height: u64,
) -> Option<usize>
    requires view { IsView view.now }
    requires slot { slot ≡ slot_of view.now.index.now.chains key.now }
    ensures { IsLast (is_seen (view.now.table, key.now) height) (history_in view.now) result }
{
    if let Some(number) = last_if_all_noted(view, slot) {
        if entry_at(view.entries, number).block <= height {
            return Some(number);
        }
    }
    last_by_walk(view, key, slot, height)
}

/// A number where a test passed, and else what was found after it.
pub fn first_of(passes: bool, number: usize, first: Option<usize>) -> Option<usize>
    ensures { result ≡ cond passes (Some number) first }
{
    if passes { Some(number) } else { first }
}

/// The number of the first write on a key in a block above `after` and up to `upto`. It goes no further back than the first write
/// above `after`.
pub fn first_late(
    view: &TableView<'_>,
    key: &Key,
    slot: Option<usize>,
    after: u64,
    upto: u64,
) -> Option<usize>
    requires view { IsView view.now }
    requires slot { slot ≡ slot_of view.now.index.now.chains key.now }
    ensures { IsFirst (is_late (view.now.table, key.now) after upto) (history_in view.now) result }
{
    let mut place = last_on(view, key, slot);
    let mut first = None;
    while let Some(back) = place {
        let block = entry_at(view.entries, back.number).block;
        if block <= after {
            return first;
        }
        first = first_of(block <= upto, back.number, first);
        place = last_before(view, key, back.left, back.number);
    }
    first
}
