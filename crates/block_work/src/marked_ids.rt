//! Ids with a value each, behind marks.

ghost use Rattle.std.specs.Prelude.{◌≡◌, ◌<◌, [], IsTrue, List, None, OnErr, OnOk, Some, cond, is_some, length, ℕ};
ghost use Rattle.std.specs.BTreeMap.{is_at};
ghost use Rattle.std.specs.Cmp.Lexicographic.{slice_cmp};
ghost use Rattle.std.specs.Ordering.{nat_cmp};
ghost use Rattle.block_work.specs.Marks.{AreMarked, value_of};

use crate::id_marks::IdMarks;
use rel_base::{Id, NoMemory};
use std::alloc::Global;
use std::collections::BTreeMap;
use std::marker::Model;

/// Ids with a value each: an ordered map, behind marks that tell of most ids without a value that they have none. So a look-up of such
/// an id mostly takes one look into memory, and any other a number of steps that grows as the logarithm.
///
/// Contracts see the ids and their values.
#[derive(Drop)]
pub struct MarkedIds<V> {
    alloc: Global,
    values: BTreeMap<Id, V>,
    marks: IdMarks,
}

impl<V> Model for MarkedIds<V> {
    ghost use Rattle.std.specs.Prelude.{ℕ, List};
    ghost use Rattle.std.specs.BTreeMap.{IsOrdered};
    ghost use Rattle.std.specs.Cmp.Lexicographic.{slice_cmp};
    ghost use Rattle.std.specs.Ordering.{nat_cmp};
    ghost use Rattle.block_work.specs.Marks.{AreMarked};

    ghost Value = { List (List ℕ × V) };

    ghost view = { λ ids. ids.values.entries };

    ghost invariant = { λ ids. IsOrdered (slice_cmp nat_cmp) ids.values × AreMarked ids.values.entries ids.marks.words.items };
}

/// Sets the marks of the ids of a map.
fn mark_all<V>(marks: &mut IdMarks, values: &BTreeMap<Id, V>)
    requires { 0 < length marks.old.words.items }
    ensures marked { AreMarked values.now.entries marks.new.words.items }
    ensures len { length marks.new.words.items ≡ length marks.old.words.items }
{
    for id in values.keys() {
        marks.put(id);
    }
}

/// Takes room for the mark of one more id. Where there is too little, all marks are set anew.
fn hold_mark<V>(
    marks: &mut IdMarks,
    alloc: Global,
    values: &BTreeMap<Id, V>,
) -> Result<(), NoMemory>
    requires old { AreMarked values.now.entries marks.old.words.items }
    ensures new { AreMarked values.now.entries marks.new.words.items }
    ensures room { OnOk result (0 < length marks.new.words.items) }
{
    if marks.are_enough(values.len()) {
        return Ok(());
    }
    let mut made = IdMarks::for_ids(alloc, values.len())?;
    mark_all(&mut made, values);
    *marks = made;
    Ok(())
}

impl<V: Copy> MarkedIds<V> {
    /// No ids.
    pub fn new(alloc: Global) -> MarkedIds<V>
        ensures { result ≡ [] }
    {
        MarkedIds {
            alloc,
            values: BTreeMap::new(alloc),
            marks: IdMarks::new(alloc),
        }
    }

    /// The value of an id.
    pub fn get(&self, id: &Id) -> Option<V>
        ensures { result ≡ value_of self.now id.now }
    {
        if self.marks.has(id) {
            self.values.get(id).copied()
        } else {
            None
        }
    }

    /// Gives an id a value. Where memory is wanting, the values are those that were there.
    pub fn insert(&mut self, id: Id, value: V) -> Result<(), NoMemory>
        ensures set { OnOk result ((other : List ℕ) → value_of self.new other ≡ cond (is_at (slice_cmp nat_cmp id) other) (Some value) (value_of self.old other)) }
        ensures same { OnErr result (self.new ≡ self.old) }
    {
        hold_mark(&mut self.marks, self.alloc, &self.values)?;
        self.marks.put(&id);
        self.values.insert(id, value)?;
        Ok(())
    }

    /// Gives an id that has a value another one, and answers the one before. Takes no memory.
    pub fn replace(&mut self, id: &Id, value: V) -> Option<V>
        requires { IsTrue (is_some (value_of self.old id.now)) }
        ensures was { result ≡ value_of self.old id.now }
        ensures set { (other : List ℕ) → value_of self.new other ≡ cond (is_at (slice_cmp nat_cmp id.now) other) (Some value) (value_of self.old other) }
    {
        match self.values.get_mut(id) {
            None => None,
            Some(held) => {
                let before = *held;
                *held = value;
                Some(before)
            }
        }
    }

    /// Takes the value of an id away. Takes no memory.
    pub fn remove(&mut self, id: &Id)
        ensures { (other : List ℕ) → value_of self.new other ≡ cond (is_at (slice_cmp nat_cmp id.now) other) None (value_of self.old other) }
    {
        let _ = self.values.remove(id);
    }
}
