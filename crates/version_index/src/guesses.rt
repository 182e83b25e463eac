//! Guesses at the slots of keys, each of which costs one look into memory, and marks that tell of most keys without a slot that they
//! have none.

ghost use Rattle.std.specs.Prelude.{◌≡◌, ◌<◌, ℕ, List, Some, is_some, length, slice_get, true};
ghost use Rattle.rel_base.specs.declared.value.Value.{Value as Cell};
ghost use Rattle.version_index.specs.Chains.{AreIn, slot_in};
ghost use Rattle.version_index.specs.Hashing.{allows, key_hash, mark_of, may_be_in, place_of};

use crate::key_hash::hash_of;
use rel_base::{Key, NoMemory};
use std::alloc::Global;
use std::collections::BTreeMap;

/// How many places there are at the least, once there is one.
const FEWEST: usize = 64;

/// The mark of a place to which no key leads.
const NONE: u8 = 0;

/// The mark of a place to which keys with different marks lead.
const SEVERAL: u8 = 255;

/// Guesses at the slots of keys, and marks of the keys that were put in. Both stand at a place that a hash of the key tells.
///
/// The guess is the slot of the last one of the keys that lead to a place. So it may be wrong, and no promise is made of it: whoever
/// takes it looks whether it is right.
///
/// The mark is that of all keys that lead to a place, or says that these have several. So a key whose place has another mark was not
/// put in.
#[derive(Drop)]
pub struct Guesses {
    /// From 1, with 0 for no guess.
    slots: Vec<u32>,
    pub marks: Vec<u8>,
}

/// The place of a hash among some: its upper half is taken as a part of one, of which the places are the whole.
#[tactic(auto, unfolding(crate::specs::Hashing::place_of))]
fn place_of(hash: u64, places: usize) -> usize
    ensures { result ≡ place_of hash places }
{
    ((hash >> 32).wrapping_mul(places as u64) >> 32) as usize
}

/// The mark of a hash, from 1 to 128.
#[tactic(auto, unfolding(crate::specs::Hashing::mark_of))]
fn mark_of(hash: u64) -> u8
    ensures { result ≡ mark_of hash }
{
    ((hash >> 24) % 128 + 1) as u8
}

/// The mark of a place with a key more.
fn joined(own: u8, mark: u8) -> u8
    ensures own { allows (Some result) mark ≡ true }
    ensures kept { (m : ℕ) → 0 < m → allows (Some own) m ≡ true → allows (Some result) m ≡ true }
{
    if own == NONE || own == mark {
        mark
    } else {
        SEVERAL
    }
}

/// Adds a mark at a place.
fn join_at(marks: &mut Vec<u8>, place: usize, mark: u8)
    ensures own { allows (slice_get marks.new.items place) mark ≡ true }
    ensures kept { (p m : ℕ) → 0 < m → allows (slice_get marks.old.items p) m ≡ true → allows (slice_get marks.new.items p) m ≡ true }
    ensures count { length marks.new.items ≡ length marks.old.items }
{
    if place < marks.len() {
        marks[place] = joined(marks[place], mark);
    }
}

/// Takes a slot as the guess at a place, where it is a small number.
fn guess_at(slots: &mut Vec<u32>, place: usize, slot: usize) {
    if place < slots.len() {
        slots[place] = u32::try_from(slot.saturating_add(1)).unwrap_or(0);
    }
}

/// So many guesses, none of them made.
fn no_guesses(alloc: Global, count: usize) -> Result<Vec<u32>, NoMemory> {
    let slots = vec![in alloc; 0; count]?;
    Ok(slots)
}

/// The marks of so many places to which no key leads.
fn no_marks(alloc: Global, count: usize) -> Result<Vec<u8>, NoMemory> {
    let marks = vec![in alloc; 0; count]?;
    Ok(marks)
}

impl Guesses {
    /// No guesses.
    pub fn new(alloc: Global) -> Guesses {
        Guesses {
            slots: Vec::new(alloc),
            marks: Vec::new(alloc),
        }
    }

    /// Places for the guesses at four times so many keys, or at a few.
    fn for_keys(alloc: Global, count: usize) -> Result<Guesses, NoMemory> {
        let places = count.saturating_mul(4).max(FEWEST);
        let slots = no_guesses(alloc, places)?;
        let marks = no_marks(alloc, places)?;
        Ok(Guesses { slots, marks })
    }

    /// Whether there are more than two places for each of so many keys, so that most guesses are right.
    fn are_enough(&self, count: usize) -> bool {
        count < self.slots.len() / 2
    }

    /// The guess at the slot of a key, by its hash.
    pub fn get(&self, hash: u64) -> Option<usize> {
        let slots = self.slots.as_slice();
        match slots.get(place_of(hash, slots.len())) {
            None | Some(0) => None,
            Some(slot) => Some((*slot - 1) as usize),
        }
    }

    /// Whether a key may have been put in, by its hash. A key that was put in may have been.
    pub fn may_be_in(&self, hash: u64) -> bool
        ensures { result ≡ may_be_in self.now.marks.items hash }
    {
        let marks = self.marks.as_slice();
        match marks.get(place_of(hash, marks.len())) {
            None => true,
            Some(own) => *own == SEVERAL || *own == mark_of(hash),
        }
    }

    /// Puts a key in, by its hash, with its slot as the guess at it.
    pub fn put(&mut self, hash: u64, slot: usize)
        ensures own { may_be_in self.new.marks.items hash ≡ true }
        ensures kept { (h : ℕ) → may_be_in self.old.marks.items h ≡ true → may_be_in self.new.marks.items h ≡ true }
    {
        let place = place_of(hash, self.marks.len());
        join_at(&mut self.marks, place, mark_of(hash));
        guess_at(&mut self.slots, place, slot);
    }

    /// Puts in the keys of a map with their slots.
    fn put_all(&mut self, slots: &BTreeMap<Key, usize>)
        ensures all { (k : List Cell) → is_some (slot_in slots.now.entries k) ≡ true → may_be_in self.new.marks.items (key_hash k) ≡ true }
        ensures kept { (h : ℕ) → may_be_in self.old.marks.items h ≡ true → may_be_in self.new.marks.items h ≡ true }
    {
        for (key, slot) in slots.iter() {
            self.put(hash_of(key), *slot);
        }
    }
}

/// Has places enough for one more key beside those of two maps. Where there are too few, all guesses and marks are made anew.
pub fn hold_guess(
    guesses: &mut Guesses,
    alloc: Global,
    count: usize,
    living: &BTreeMap<Key, usize>,
    ended: &BTreeMap<Key, usize>,
) -> Result<(), NoMemory>
    ensures { AreIn living.now.entries ended.now.entries guesses.old.marks.items → AreIn living.now.entries ended.now.entries guesses.new.marks.items }
{
    if guesses.are_enough(count) {
        return Ok(());
    }
    *guesses = Guesses::for_keys(alloc, count)?;
    guesses.put_all(living);
    guesses.put_all(ended);
    Ok(())
}
