//! The numbers of the writes that touched a value, for each value of a column.
//!
//! Each value has a place, at which its list stands. Whoever has a guess at the place looks whether the value stands there, and is
//! spared a walk through the map where it does. So nothing is promised of guesses.

ghost use Rattle.std.specs.Prelude.{◌≡◌, ◌<◌, ◌++◌, ◌∷◌, [], None, OnErr, OnOk, Some, cond, false, length, slice_get, true, ℕ};
ghost use Rattle.rel_base.specs.Value.{value_eq};
ghost use Rattle.rel_base.specs.declared.value.Value.{Value as Cell};
ghost use Rattle.version_index.specs.Chains.{HasRoomForNumber, lists_in};
ghost use Rattle.version_index.specs.Columns.{AreListed, HasRoomAt, list_of, place_in, place_of, touched_at};

use crate::lists::{hold_room, list_at, push_at};
use rel_base::{NoMemory, Twin, Value};
use std::alloc::Global;
use std::collections::BTreeMap;

/// For each value the numbers of the writes that touched it, rising.
#[derive(Drop)]
pub struct Touched {
    /// The place of each value.
    pub places: BTreeMap<Value, usize>,
    /// The value of each place.
    pub values: Vec<Value>,
    /// The numbers of each place.
    pub lists: Vec<Vec<usize>>,
    /// The place that is looked at first, which may be any.
    pub near: usize,
}

/// Whether a value stands at a place.
fn is_at(values: &[Value], place: usize, value: &Value) -> bool
    ensures { result ≡ true → slice_get values.now place ≡ Some value.now }
{
    match values.get(place) {
        None => false,
        Some(other) => value == other,
    }
}

/// The place of a value in the map.
fn find_place(places: &BTreeMap<Value, usize>, value: &Value) -> Option<usize>
    ensures { result ≡ place_in places.now.entries value.now }
{
    places.get(value).copied()
}

/// Gives a value a place in the map.
fn put_place(
    places: &mut BTreeMap<Value, usize>,
    alloc: Global,
    value: &Value,
    place: usize,
) -> Result<(), NoMemory>
    ensures put { OnOk result ((v : Cell) → place_in places.new.entries v ≡ cond (value_eq v value.now) (Some place) (place_in places.old.entries v)) }
    ensures same { OnErr result (places.new.entries ≡ places.old.entries) }
{
    let value = value.copy(alloc)?;
    let _ = places.insert(value, place)?;
    Ok(())
}

/// Adds a value and its list at the next place, which the map tells.
fn list_value(touched: &mut Touched, alloc: Global, value: &Value) -> Result<(), NoMemory>
    requires listed { AreListed touched.old }
    requires new { place_of touched.old value.now ≡ None }
    ensures listed { AreListed touched.new }
    ensures same { (v : Cell) → touched_at touched.new v ≡ touched_at touched.old v }
    ensures room { OnOk result (HasRoomAt touched.new value.now) }
    ensures kept { (v : Cell) → HasRoomAt touched.old v → HasRoomAt touched.new v }
{
    touched.values.reserve(1)?;
    touched.lists.reserve(1)?;
    let numbers = Vec::with_capacity(alloc, 3)?;
    let own = value.copy(alloc)?;
    let place = touched.values.len();
    put_place(&mut touched.places, alloc, value, place)?;
    touched.values.push_reserved(own);
    touched.lists.push_reserved(numbers);
    touched.near = place;
    Ok(())
}

/// Takes room for one more number at a place.
fn hold_at(touched: &mut Touched, place: usize) -> Result<(), NoMemory>
    requires { place < length touched.old.lists.items }
    ensures places { touched.new.places ≡ touched.old.places }
    ensures values { touched.new.values ≡ touched.old.values }
    ensures same { lists_in touched.new.lists.items ≡ lists_in touched.old.lists.items }
    ensures room { OnOk result (HasRoomForNumber touched.new.lists.items place) }
    ensures kept { (p : ℕ) → HasRoomForNumber touched.old.lists.items p → HasRoomForNumber touched.new.lists.items p }
{
    touched.near = place;
    hold_room(&mut touched.lists, place)
}

/// Takes room for one more number at a value.
pub fn hold_number(touched: &mut Touched, alloc: Global, value: &Value) -> Result<(), NoMemory>
    requires listed { AreListed touched.old }
    ensures listed { AreListed touched.new }
    ensures same { (v : Cell) → touched_at touched.new v ≡ touched_at touched.old v }
    ensures room { OnOk result (HasRoomAt touched.new value.now) }
    ensures kept { (v : Cell) → HasRoomAt touched.old v → HasRoomAt touched.new v }
{
    match touched.place(value) {
        None => list_value(touched, alloc, value),
        Some(place) => hold_at(touched, place),
    }
}

/// Adds a number at a value, where there is room for it.
pub fn touch(touched: &mut Touched, value: &Value, number: usize)
    requires listed { AreListed touched.old }
    requires room { HasRoomAt touched.old value.now }
    ensures listed { AreListed touched.new }
    ensures touched { (v : Cell) → touched_at touched.new v ≡ cond (value_eq v value.now) (touched_at touched.old v ++ number ∷ []) (touched_at touched.old v) }
    ensures kept { (v : Cell) → value_eq v value.now ≡ false → HasRoomAt touched.old v → HasRoomAt touched.new v }
{
    if let Some(place) = touched.place(value) {
        push_at(&mut touched.lists, place, number);
    }
}

impl Touched {
    /// No values.
    pub fn new(alloc: Global) -> Touched
        ensures places { result.places.entries ≡ [] }
        ensures values { result.values.items ≡ [] }
        ensures lists { result.lists.items ≡ [] }
    {
        Touched {
            places: BTreeMap::new(alloc),
            values: Vec::new(alloc),
            lists: Vec::new(alloc),
            near: 0,
        }
    }

    /// The place of a value, where it has one. A guess is looked at before the map.
    fn place(&self, value: &Value) -> Option<usize>
        requires { AreListed self.now }
        ensures { result ≡ place_of self.now value.now }
    {
        if is_at(self.values.as_slice(), self.near, value) {
            Some(self.near)
        } else {
            find_place(&self.places, value)
        }
    }

    /// The numbers at a place.
    pub fn list(&self, place: usize) -> &[usize]
        ensures { result.now ≡ list_of self.now place }
    {
        list_at(self.lists.as_slice(), place)
    }

    /// The numbers of the writes that touched a value.
    pub fn numbers(&self, value: &Value) -> &[usize]
        ensures { result.now ≡ touched_at self.now value.now }
    {
        match find_place(&self.places, value) {
            None => &[],
            Some(place) => self.list(place),
        }
    }
}
