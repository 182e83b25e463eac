//! The version of a key that is visible at a height, in few steps.

ghost use Rattle.std.specs.Prelude.{◌≡◌, ◌≤◌, ◌<◌, ◌+◌, ◌*◌, ◌-◌, ◌^◌, ℕ, All, IfSome, false, length, take, true};
ghost use Rattle.row_sets.specs.Log.{history_of};
ghost use Rattle.version_index.specs.Chain.{IsLast, IsLastFrom, is_seen};
ghost use Rattle.version_index.specs.Chains.{lists_of, numbers_at, slot_of};
ghost use Rattle.version_index.specs.Found.{IsProbed, IsVersion, count_on, is_low, number_of, tail_in};
ghost use Rattle.version_index.specs.Numbers.{passes_at};
ghost use Rattle.version_index.specs.View.{IsView, history_in};

use crate::look_up::{LookUp, Probed};
use crate::steps::Steps;
use rel_base::Key;
use std::sync::ledger::Ledger;

/// How many of the writes on the key of a slot are in no block above a height. They are the first ones, so each look halves what is
/// left.
fn count_low<L: Ledger>(
    look_up: &LookUp<'_>,
    slot: Option<usize>,
    height: u64,
    steps: &mut Steps<L>,
) -> usize
    requires within { All (λ number. number < length look_up.now.view.entries.now) (numbers_at (lists_of look_up.now.view.index.now.chains) slot) }
    requires falling { (i j : ℕ) → i ≤ j → passes_at (is_low (history_of look_up.now.view.entries.now) height) (numbers_at (lists_of look_up.now.view.index.now.chains) slot) j ≡ true → passes_at (is_low (history_of look_up.now.view.entries.now) height) (numbers_at (lists_of look_up.now.view.index.now.chains) slot) i ≡ true }
    ensures within { result ≤ length (numbers_at (lists_of look_up.now.view.index.now.chains) slot) }
    ensures low { (i : ℕ) → i < result → passes_at (is_low (history_of look_up.now.view.entries.now) height) (numbers_at (lists_of look_up.now.view.index.now.chains) slot) i ≡ true }
    ensures high { (i : ℕ) → result ≤ i → passes_at (is_low (history_of look_up.now.view.entries.now) height) (numbers_at (lists_of look_up.now.view.index.now.chains) slot) i ≡ false }
    ensures on { steps.old ≤ steps.new }
    ensures cost { 2 ^ (steps.new - steps.old) ≤ 2 * length (numbers_at (lists_of look_up.now.view.index.now.chains) slot) + 1 }
{
    let mut low = 0;
    let mut high = look_up.count(slot);
    while low < high {
        let middle = low + (high - low) / 2;
        let probed = look_up.probe(slot, middle, steps);
        if probed.entry.block <= height {
            low = middle + 1;
        } else {
            high = middle;
        }
    }
    low
}

/// The last of the noted writes on a key, whose slot is given, in a block up to a height.
fn seen_noted<'a, L: Ledger>(
    look_up: &LookUp<'a>,
    key: &Key,
    slot: Option<usize>,
    height: u64,
    steps: &mut Steps<L>,
) -> Option<Probed<'a>>
    requires view { IsView look_up.now.view }
    requires slot { slot ≡ slot_of look_up.now.view.index.now.chains key.now }
    ensures last { IsLast (is_seen (look_up.now.view.table, key.now) height) (take look_up.now.view.noted (history_in look_up.now.view)) (number_of result) }
    ensures entry { IfSome result (IsProbed look_up.now.view) }
    ensures on { steps.old ≤ steps.new }
    ensures cost { 2 ^ (steps.new - steps.old) ≤ 4 * count_on look_up.now.view.table (history_in look_up.now.view) + 2 }
{
    let count = count_low(look_up, slot, height, steps);
    if count == 0 {
        return None;
    }
    Some(look_up.probe(slot, count - 1, steps))
}

/// The last write on a key in the tail, in a block up to a height.
fn seen_in_tail<'a, L: Ledger>(
    look_up: &LookUp<'a>,
    key: &Key,
    height: u64,
    steps: &mut Steps<L>,
) -> Option<Probed<'a>>
    ensures last { IsLastFrom (is_seen (look_up.now.view.table, key.now) height) look_up.now.view.noted (history_in look_up.now.view) (number_of result) }
    ensures entry { IfSome result (IsProbed look_up.now.view) }
    ensures on { steps.old ≤ steps.new }
    ensures cost { steps.new ≤ steps.old + tail_in look_up.now.view }
{
    let mut end = look_up.end();
    while end > look_up.noted() {
        let probed = look_up.probe_at(end - 1, steps);
        if probed.is_seen(look_up.table(), key, height) {
            return Some(probed);
        }
        end -= 1;
    }
    None
}

/// The last write on a key, whose slot is given, in a block up to a height. The tail is looked through first.
pub fn last_seen<'a, L: Ledger>(
    look_up: &LookUp<'a>,
    key: &Key,
    slot: Option<usize>,
    height: u64,
    steps: &mut Steps<L>,
) -> Option<Probed<'a>>
    requires view { IsView look_up.now.view }
    requires slot { slot ≡ slot_of look_up.now.view.index.now.chains key.now }
    ensures last { IsLast (is_seen (look_up.now.view.table, key.now) height) (history_in look_up.now.view) (number_of result) }
    ensures entry { IfSome result (IsProbed look_up.now.view) }
    ensures on { steps.old ≤ steps.new }
    ensures cost { 2 ^ (steps.new - steps.old - tail_in look_up.now.view) ≤ 4 * count_on look_up.now.view.table (history_in look_up.now.view) + 2 }
{
    match seen_in_tail(look_up, key, height, steps) {
        None => seen_noted(look_up, key, slot, height, steps),
        Some(probed) => Some(probed),
    }
}

impl LookUp<'_> {
    /// The number of the version of a key that is visible at a height: of the last write on the key in a block up to the height, where
    /// it left a row. Numbers count the writes of the history from 0.
    ///
    /// A step is one look at a number of a write on the key, with its entry in the log, or at one entry of the tail. Where `n` writes of
    /// the history are on the table and the tail is empty, as it is after `reserve`, the `k` steps of a call have `2 ^ k <= 4 n + 2`.
    /// Each write of the tail may cost one step more. The list of the numbers is looked up by the key in the two `BTreeMap`s of the keys
    /// first: that is one look-up of the standard library in each, and no step.
    ///
    /// The store is not at hand here, and the log and the lists are private to the module of the look-up. So nothing is known of a write
    /// but by a step.
    pub fn find<L: Ledger>(&self, key: &Key, height: u64, steps: &mut Steps<L>) -> Option<usize>
        requires { IsView self.now.view }
        ensures version { IsVersion (self.now.view.table, key.now) height (history_in self.now.view) result }
        ensures on { steps.old ≤ steps.new }
        ensures cost { 2 ^ (steps.new - steps.old - tail_in self.now.view) ≤ 4 * count_on self.now.view.table (history_in self.now.view) + 2 }
        ensures noted { tail_in self.now.view ≡ 0 → 2 ^ (steps.new - steps.old) ≤ 4 * count_on self.now.view.table (history_in self.now.view) + 2 }
    {
        match last_seen(self, key, self.slot(key), height, steps) {
            None => None,
            Some(probed) => probed.version(),
        }
    }
}
