//! The writes on each key of a table.

ghost use Rattle.std.specs.Prelude.{◌≡◌, ◌<◌, ◌+◌, ◌++◌, ◌∷◌, [], All, IfOk, IfSome, List, None, OnErr, OnOk, Option, Some, cond, false, is_some, length, map, slice_get, true};
ghost use Rattle.std.specs.Option.{option_map};
ghost use Rattle.std.specs.Vec.{vec_len, vec_capacity};
ghost use Rattle.rel_base.specs.Value.{key_eq};
ghost use Rattle.rel_base.specs.declared.value.Value.{Value as Cell};
ghost use Rattle.version_index.specs.Hashing.{key_hash};
ghost use Rattle.version_index.specs.Chains.{AreAllIn, AreApart, AreLasts, IsNoted, IsPlaced, IsSame, lists_of, lives_in, numbers_at, slot_by, slot_in, slot_of};
ghost use Rattle.version_index.specs.Numbers.{last_in};

use crate::guesses::{Guesses, hold_guess};
use crate::key_hash::hash_of;
use crate::lists::{hold_room, list_at, one_number, push_at};
use rel_base::{Key, NoMemory, Twin};
use std::alloc::Global;
use std::collections::BTreeMap;

/// The writes on each key of a table. Each key that was ever written has a slot, numbered from 0 in the order of the first writes.
#[derive(Drop)]
pub struct Chains {
    /// The slots of the keys that have a row.
    pub living: BTreeMap<Key, usize>,
    /// The slots of the keys whose row was deleted.
    pub ended: BTreeMap<Key, usize>,
    /// For each slot the numbers of the writes on its key, rising.
    pub numbers: Vec<Vec<usize>>,
    /// For each slot the last of these numbers once more, since most reads want no other: they stand close together.
    pub lasts: Vec<usize>,
    /// Guesses at the slots of the keys, of which nothing is promised, and marks of all keys that have one.
    pub guesses: Guesses,
}

/// Where a key that was ever written stands: at a slot, and among the keys with a row or among those whose row was deleted.
#[derive(Clone, Copy)]
pub struct KeySlot {
    pub slot: usize,
    pub lives: bool,
}

/// Where a key stands whose slot may be there, among the keys with a row or not.
fn spot_in(slot: Option<usize>, lives: bool) -> Option<KeySlot>
    ensures slot { option_map (λ spot. spot.slot) result ≡ slot }
    ensures lives { IfSome result (λ spot. spot.lives ≡ lives) }
{
    match slot {
        None => None,
        Some(slot) => Some(KeySlot { slot, lives }),
    }
}

/// The slot of a key that may stand somewhere.
pub fn slot_at(spot: Option<KeySlot>) -> Option<usize>
    ensures { result ≡ option_map (λ spot. spot.slot) spot }
{
    match spot {
        None => None,
        Some(spot) => Some(spot.slot),
    }
}

/// The slot of a key in one of the maps.
fn find_slot(slots: &BTreeMap<Key, usize>, key: &Key) -> Option<usize>
    ensures { result ≡ slot_in slots.now.entries key.now }
{
    slots.get(key).copied()
}

/// Puts a key into a map at its slot.
fn put_key(
    slots: &mut BTreeMap<Key, usize>,
    alloc: Global,
    key: &Key,
    slot: usize,
) -> Result<(), NoMemory>
    ensures put { OnOk result ((k : List Cell) → slot_in slots.new.entries k ≡ cond (key_eq k key.now) (Some slot) (slot_in slots.old.entries k)) }
    ensures same { OnErr result (slots.new.entries ≡ slots.old.entries) }
{
    let key = key.copy(alloc)?;
    let _ = slots.insert(key, slot)?;
    Ok(())
}

/// Takes a key out of a map.
fn take_key(slots: &mut BTreeMap<Key, usize>, key: &Key)
    ensures { (k : List Cell) → slot_in slots.new.entries k ≡ cond (key_eq k key.now) None (slot_in slots.old.entries k) }
{
    let _ = slots.remove(key);
}

/// Has a key at its slot in one map and no more in the other. Where memory is wanting, both maps stay as they are.
fn move_key(
    into: &mut BTreeMap<Key, usize>,
    from: &mut BTreeMap<Key, usize>,
    alloc: Global,
    key: &Key,
    slot: usize,
) -> Result<(), NoMemory>
    ensures put { OnOk result ((k : List Cell) → slot_in into.new.entries k ≡ cond (key_eq k key.now) (Some slot) (slot_in into.old.entries k)) }
    ensures taken { OnOk result ((k : List Cell) → slot_in from.new.entries k ≡ cond (key_eq k key.now) None (slot_in from.old.entries k)) }
    ensures same_into { OnErr result (into.new.entries ≡ into.old.entries) }
    ensures same_from { OnErr result (from.new.entries ≡ from.old.entries) }
{
    put_key(into, alloc, key, slot)?;
    take_key(from, key);
    Ok(())
}

/// Has a key at its slot in the map of the keys with a row, where it has one, and else in that of the keys whose row was deleted.
fn settle_key(
    living: &mut BTreeMap<Key, usize>,
    ended: &mut BTreeMap<Key, usize>,
    alloc: Global,
    key: &Key,
    slot: usize,
    lives: bool,
) -> Result<(), NoMemory>
    ensures placed { OnOk result (IsPlaced key.now slot lives living.old.entries ended.old.entries living.new.entries ended.new.entries) }
    ensures same_living { OnErr result (living.new.entries ≡ living.old.entries) }
    ensures same_ended { OnErr result (ended.new.entries ≡ ended.old.entries) }
{
    if lives {
        move_key(living, ended, alloc, key, slot)
    } else {
        move_key(ended, living, alloc, key, slot)
    }
}

/// Has a key that stands in one of the maps in the one where it belongs after a write. A key that belongs where it stands is not
/// looked up.
fn place_key(
    living: &mut BTreeMap<Key, usize>,
    ended: &mut BTreeMap<Key, usize>,
    alloc: Global,
    key: &Key,
    spot: KeySlot,
    lives: bool,
) -> Result<(), NoMemory>
    requires own { slot_by living.old.entries ended.old.entries key.now ≡ Some spot.slot }
    requires lived { spot.lives ≡ is_some (slot_in living.old.entries key.now) }
    ensures placed { OnOk result (IsPlaced key.now spot.slot lives living.old.entries ended.old.entries living.new.entries ended.new.entries) }
    ensures same_living { OnErr result (living.new.entries ≡ living.old.entries) }
    ensures same_ended { OnErr result (ended.new.entries ≡ ended.old.entries) }
{
    if spot.lives == lives {
        return Ok(());
    }
    settle_key(living, ended, alloc, key, spot.slot, lives)
}

impl Chains {
    /// No writes.
    pub fn new(alloc: Global) -> Chains
        ensures living { result.living.entries ≡ [] }
        ensures ended { result.ended.entries ≡ [] }
        ensures numbers { result.numbers.items ≡ [] }
        ensures lasts { result.lasts.items ≡ [] }
    {
        Chains {
            living: BTreeMap::new(alloc),
            ended: BTreeMap::new(alloc),
            numbers: Vec::new(alloc),
            lasts: Vec::new(alloc),
            guesses: Guesses::new(alloc),
        }
    }

    /// The number of slots.
    pub fn count(&self) -> usize
        ensures { result ≡ length (lists_of self.now) }
    {
        self.numbers.as_slice().len()
    }

    /// Where a key stands, where it was ever written.
    pub fn spot(&self, key: &Key) -> Option<KeySlot>
        ensures slot { option_map (λ spot. spot.slot) result ≡ slot_of self.now key.now }
        ensures lives { IfSome result (λ spot. spot.lives ≡ lives_in self.now key.now) }
    {
        match find_slot(&self.living, key) {
            None => spot_in(find_slot(&self.ended, key), false),
            Some(slot) => Some(KeySlot { slot, lives: true }),
        }
    }

    /// Where a key stands, where it was ever written. The maps are not asked where the marks tell, by the hash of the key, that it
    /// was not.
    pub fn spot_if_in(&self, key: &Key, hash: u64) -> Option<KeySlot>
        requires hash { hash ≡ key_hash key.now }
        requires known { AreAllIn self.now }
        ensures slot { option_map (λ spot. spot.slot) result ≡ slot_of self.now key.now }
        ensures lives { IfSome result (λ spot. spot.lives ≡ lives_in self.now key.now) }
    {
        if self.guesses.may_be_in(hash) {
            self.spot(key)
        } else {
            None
        }
    }

    /// The slot of a key, where it was ever written.
    pub fn slot(&self, key: &Key) -> Option<usize>
        ensures { result ≡ slot_of self.now key.now }
    {
        slot_at(self.spot(key))
    }

    /// The numbers of the writes on the key of a slot that may be there.
    pub fn numbers(&self, slot: Option<usize>) -> &[usize]
        ensures { result.now ≡ numbers_at (lists_of self.now) slot }
    {
        match slot {
            None => &[],
            Some(slot) => list_at(self.numbers.as_slice(), slot),
        }
    }

    /// The number of the last write on the key of a slot, where there is such a slot.
    pub fn last(&self, slot: usize) -> Option<usize>
        ensures { AreLasts self.now.lasts.items (lists_of self.now) → result ≡ last_in (numbers_at (lists_of self.now) (Some slot)) }
    {
        match self.lasts.as_slice().get(slot) {
            None => None,
            Some(number) => Some(*number),
        }
    }

    /// The number of the last write on the key of a slot that may be there.
    pub fn last_at(&self, slot: Option<usize>) -> Option<usize>
        ensures { AreLasts self.now.lasts.items (lists_of self.now) → result ≡ last_in (numbers_at (lists_of self.now) slot) }
    {
        match slot {
            None => None,
            Some(slot) => self.last(slot),
        }
    }

    /// Notes the first write on a key. Where memory is wanting, all stays as it was.
    fn note_first(
        &mut self,
        alloc: Global,
        key: &Key,
        lives: bool,
        number: usize,
    ) -> Result<(), NoMemory>
        requires new { slot_of self.old key.now ≡ None }
        requires apart { AreApart self.old.living.entries self.old.ended.entries }
        ensures noted { OnOk result (IsNoted key.now lives number self.old self.new) }
        ensures same { OnErr result (IsSame self.old self.new) }
    {
        hold_guess(
            &mut self.guesses,
            alloc,
            self.numbers.len(),
            &self.living,
            &self.ended,
        )?;
        self.numbers.reserve(1)?;
        self.lasts.reserve(1)?;
        let numbers = one_number(alloc, number)?;
        let slot = self.numbers.len();
        settle_key(&mut self.living, &mut self.ended, alloc, key, slot, lives)?;
        self.numbers.push_reserved(numbers);
        self.lasts.push_reserved(number);
        self.guesses.put(hash_of(key), slot);
        Ok(())
    }

    /// Notes one more write on a key that stands somewhere. Where memory is wanting, all stays as it was.
    fn note_next(
        &mut self,
        alloc: Global,
        key: &Key,
        spot: KeySlot,
        lives: bool,
        number: usize,
    ) -> Result<(), NoMemory>
        requires own { slot_of self.old key.now ≡ Some spot.slot }
        requires lived { spot.lives ≡ lives_in self.old key.now }
        requires within { spot.slot < length self.old.numbers.items }
        requires lasts { AreLasts self.old.lasts.items (lists_of self.old) }
        requires apart { AreApart self.old.living.entries self.old.ended.entries }
        ensures noted { OnOk result (IsNoted key.now lives number self.old self.new) }
        ensures same { OnErr result (IsSame self.old self.new) }
    {
        hold_room(&mut self.numbers, spot.slot)?;
        place_key(&mut self.living, &mut self.ended, alloc, key, spot, lives)?;
        push_at(&mut self.numbers, spot.slot, number);
        self.lasts[spot.slot] = number;
        Ok(())
    }

    /// Notes a write on a key, which is given with where it stands, and whether the write left a row. Where memory is wanting, all
    /// stays as it was.
    pub fn note(
        &mut self,
        alloc: Global,
        key: &Key,
        spot: Option<KeySlot>,
        lives: bool,
        number: usize,
    ) -> Result<(), NoMemory>
        requires own { option_map (λ spot. spot.slot) spot ≡ slot_of self.old key.now }
        requires lived { IfSome spot (λ spot. spot.lives ≡ lives_in self.old key.now) }
        requires within { IfSome spot (λ spot. spot.slot < length (lists_of self.old)) }
        requires lasts { AreLasts self.old.lasts.items (lists_of self.old) }
        requires apart { AreApart self.old.living.entries self.old.ended.entries }
        ensures noted { OnOk result (IsNoted key.now lives number self.old self.new) }
        ensures same { OnErr result (IsSame self.old self.new) }
    {
        match spot {
            None => self.note_first(alloc, key, lives, number),
            Some(spot) => self.note_next(alloc, key, spot, lives, number),
        }
    }
}
