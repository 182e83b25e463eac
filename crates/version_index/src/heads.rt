//! The next write on each key of a table, for a walk back over its writes.

ghost use Rattle.std.specs.Prelude.{◌≡◌, ℕ, List, [], Some, cond, OnOk, IsTrue};
ghost use Rattle.std.specs.Ordering.{eq_by_cmp};
ghost use Rattle.rel_base.specs.Value.{key_cmp};
ghost use Rattle.rel_base.specs.declared.value.Value.{Value as Cell};
ghost use Rattle.row_sets.specs.Log.{stamped_of};
ghost use Rattle.version_index.specs.Chain.{is_on};
ghost use Rattle.version_index.specs.Heads.{head_of, holds_key};

use rel_base::{Key, NoMemory, Twin};
use row_sets::entry::LogEntry;
use std::alloc::Global;
use std::collections::BTreeMap;
use std::marker::Model;

/// An ordered map from the keys of a table to the number of the last write on each. A key may be held before its first write.
#[derive(Drop)]
pub struct Heads {
    last: BTreeMap<Key, Option<usize>>,
}

impl Model for Heads {
    ghost use Rattle.std.specs.Prelude.{ℕ, List, Option};
    ghost use Rattle.std.specs.BTreeMap.{IsOrdered};
    ghost use Rattle.std.specs.Coded.{coded×, coded_ℕ, coded_list, coded_option};
    ghost use Rattle.rel_base.specs.Value.{key_cmp};
    ghost use Rattle.rel_base.specs.declared.value.Value.{Value as Cell};
    ghost use Rattle.rel_base.specs.contracts.value.Value as cell;

    ghost Value = { List (List Cell × Option ℕ) };

    ghost coded = { coded_list (coded× (coded_list cell.the_row.coded) (coded_option coded_ℕ)) };

    ghost view = { λ heads. heads.last.entries };

    ghost invariant = { λ heads. IsOrdered key_cmp heads.last };
}

impl Heads {
    /// No keys.
    pub fn new(alloc: Global) -> Heads
        ensures { result ≡ [] }
    {
        Heads {
            last: BTreeMap::new(alloc),
        }
    }

    /// The number of the last write on a key.
    pub fn last(&self, key: &Key) -> Option<usize>
        ensures { result ≡ head_of self.now key.now }
    {
        match self.last.get(key) {
            None => None,
            Some(head) => *head,
        }
    }

    /// Holds a key, so that a write on it can be noted without memory.
    pub fn hold(&mut self, alloc: Global, key: &Key) -> Result<(), NoMemory>
        ensures held { OnOk result (IsTrue (holds_key self.new key.now)) }
        ensures same { (q : List Cell) → head_of self.new q ≡ head_of self.old q }
        ensures kept { (q : List Cell) → IsTrue (holds_key self.old q) → IsTrue (holds_key self.new q) }
    {
        if self.last.contains_key(key) {
            return Ok(());
        }
        let key = key.copy(alloc)?;
        self.last.insert(key, None)?;
        Ok(())
    }

    /// Notes the last write on a key that is held.
    pub fn set(&mut self, key: &Key, number: usize)
        requires { IsTrue (holds_key self.old key.now) }
        ensures set { (q : List Cell) → head_of self.new q ≡ cond (eq_by_cmp key_cmp q key.now) (Some number) (head_of self.old q) }
        ensures kept { (q : List Cell) → IsTrue (holds_key self.old q) → IsTrue (holds_key self.new q) }
    {
        if let Some(head) = self.last.get_mut(key) {
            *head = Some(number);
        }
    }

    /// Notes the write of an entry as the last one on its key, where it is on the table.
    pub fn note(
        &mut self,
        alloc: Global,
        table: u32,
        entry: &LogEntry,
        number: usize,
    ) -> Result<(), NoMemory>
        ensures { OnOk result ((q : List Cell) → head_of self.new q ≡ cond (is_on (table, q) (stamped_of entry.now)) (Some number) (head_of self.old q)) }
    {
        let write = &entry.placed.write;
        if write.table != table {
            return Ok(());
        }
        self.hold(alloc, &write.key)?;
        self.set(&write.key, number);
        Ok(())
    }
}
