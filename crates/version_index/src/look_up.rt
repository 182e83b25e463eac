//! The log and the index of a table, as a look-up of a version sees them whose looks are counted.
//!
//! A step is one look at a number of a write on the key, with its entry, or at one entry of the tail. Where they stand is private
//! here, so whoever looks a version up gets at none of them but by a step.

ghost use Rattle.std.specs.Prelude.{◌≡◌, ◌<◌, ◌+◌, All, None, Some, cond, is_some, length, slice_get};
ghost use Rattle.row_sets.specs.Log.{stamped_of};
ghost use Rattle.version_index.specs.Chain.{is_seen};
ghost use Rattle.version_index.specs.Chains.{lists_of, numbers_at, slot_of};

use crate::steps::Steps;
use crate::view::TableView;
use rel_base::Key;
use row_sets::entry::{LogEntry, entry_at, is_on_key};
use std::sync::ledger::Ledger;

/// The log, with the index of a table, for a look-up whose looks are counted.
#[derive(Clone, Copy)]
pub struct LookUp<'a> {
    view: TableView<'a>,
}

/// A write that was looked at, in one step: its number, and its entry in the log.
#[derive(Clone, Copy)]
pub struct Probed<'a> {
    pub number: usize,
    pub entry: &'a LogEntry,
}

impl Probed<'_> {
    /// The number of the write, where it left a row.
    pub fn version(&self) -> Option<usize>
        ensures { result ≡ cond (is_some self.now.entry.now.placed.write.after) (Some self.now.number) None }
    {
        match &self.entry.placed.write.after {
            None => None,
            Some(_) => Some(self.number),
        }
    }

    /// Whether the write is on a key of a table, in a block up to a height.
    pub fn is_seen(&self, table: u32, key: &Key, height: u64) -> bool
        ensures { result ≡ is_seen (table, key.now) height (stamped_of self.now.entry.now) }
    {
        is_on_key(self.entry, table, key) && self.entry.block <= height
    }
}

impl<'a> LookUp<'a> {
    /// A look-up in the log by the index of a table.
    pub fn new(view: TableView<'a>) -> LookUp<'a>
        ensures { result.view ≡ view.entry }
    {
        LookUp { view }
    }

    /// The slot of a key, where it was ever written.
    pub fn slot(&self, key: &Key) -> Option<usize>
        ensures { result ≡ slot_of self.now.view.index.now.chains key.now }
    {
        self.view.index.chains.slot(key)
    }

    /// How many of the noted writes are on the key of a slot that may be there.
    pub fn count(&self, slot: Option<usize>) -> usize
        ensures { result ≡ length (numbers_at (lists_of self.now.view.index.now.chains) slot) }
    {
        self.view.index.chains.numbers(slot).len()
    }

    /// One look at a noted write on the key of a slot, in one step.
    pub fn probe<L: Ledger>(
        &self,
        slot: Option<usize>,
        at: usize,
        steps: &mut Steps<L>,
    ) -> Probed<'a>
        requires at { at < length (numbers_at (lists_of self.now.view.index.now.chains) slot) }
        requires within { All (λ number. number < length self.now.view.entries.now) (numbers_at (lists_of self.now.view.index.now.chains) slot) }
        ensures number { slice_get (numbers_at (lists_of self.now.view.index.now.chains) slot) at ≡ Some result.number }
        ensures entry { slice_get self.now.view.entries.now result.number ≡ Some result.entry.now }
        ensures step { steps.new ≡ steps.old + 1 }
    {
        let number = self.view.index.chains.numbers(slot)[at];
        self.probe_at(number, steps)
    }

    /// How many entries the log has.
    pub fn end(&self) -> usize
        ensures { result ≡ length self.now.view.entries.now }
    {
        self.view.entries.len()
    }

    /// How many of them are noted; the others are the tail.
    pub fn noted(&self) -> usize
        ensures { result ≡ self.now.view.noted }
    {
        self.view.noted
    }

    /// The number of the table.
    pub fn table(&self) -> u32
        ensures { result ≡ self.now.view.table }
    {
        self.view.table
    }

    /// One look at the write of a number, in one step.
    pub fn probe_at<L: Ledger>(&self, number: usize, steps: &mut Steps<L>) -> Probed<'a>
        requires { number < length self.now.view.entries.now }
        ensures number { result.number ≡ number }
        ensures entry { slice_get self.now.view.entries.now number ≡ Some result.entry.now }
        ensures step { steps.new ≡ steps.old + 1 }
    {
        steps.tick();
        Probed {
            number,
            entry: entry_at(self.view.entries, number),
        }
    }
}
