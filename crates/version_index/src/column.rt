//! An index by the values of a column.

ghost use Rattle.std.specs.Prelude.{◌≡◌, ◌&&◌, ◌||◌, ◌==◌, ◌++◌, ◌∷◌, [], OnOk, cond, false, not, true, ℕ};
ghost use Rattle.std.specs.Option.{option_copied};
ghost use Rattle.rel_base.specs.declared.value.Value.{Value as Cell};
ghost use Rattle.version_index.specs.Columns.{AreListed, HasRoomAt, IsHeld, IsNotedIn, IsReady, IsRoomy, IsSameColumn, cell, has, has_same, has_slot, touched_at};

use crate::living::{Living, hold_slot, take_slot};
use crate::touched::{Touched, hold_number, touch};
use rel_base::{NoMemory, Row, Value, Write};
use std::alloc::Global;
use std::collections::BTreeMap;

/// An index by the values of a column.
#[derive(Drop)]
pub struct ColumnIndex {
    /// The number of the column.
    pub column: u32,
    /// For each value at least the slots of the keys that have a row with it.
    pub living: Living,
    /// For each value the numbers of the writes that found it, or have it in their row before or their row after.
    pub touched: Touched,
    /// For each slot the place of the last value of its key, of which nothing is promised.
    near: Vec<u32>,
}

/// The value in a column of a row that may be there, where the row has the column.
fn value_in(row: Option<&Row>, column: u32) -> Option<&Value>
    ensures { option_copied result ≡ cell column (option_copied row.entry) }
{
    match row {
        None => None,
        Some(row) => row.get(column as usize),
    }
}

/// Whether a value that may be there is a value.
fn is_value(other: Option<&Value>, value: &Value) -> bool
    ensures { result ≡ has value.now (option_copied other.entry) }
{
    match other {
        None => false,
        Some(other) => value == other,
    }
}

/// Whether a value is there that another is one with.
fn is_same(value: Option<&Value>, other: Option<&Value>) -> bool
    ensures { result ≡ has_same (option_copied value.entry) (option_copied other.entry) }
{
    match value {
        None => false,
        Some(value) => is_value(other, value),
    }
}

/// A value that may be there, where it is another than one that may be there.
fn unless<'a>(value: Option<&'a Value>, other: Option<&Value>) -> Option<&'a Value>
    ensures { (v : Cell) → has v (option_copied result) ≡ (has v (option_copied value.entry) && not (has v (option_copied other.entry))) }
{
    if is_same(value, other) { None } else { value }
}

/// Takes room for one more number at a value that may be there.
fn hold_value(touched: &mut Touched, alloc: Global, value: Option<&Value>) -> Result<(), NoMemory>
    requires listed { AreListed touched.old }
    ensures listed { AreListed touched.new }
    ensures same { (v : Cell) → touched_at touched.new v ≡ touched_at touched.old v }
    ensures room { OnOk result (IsRoomy touched.new (option_copied value.entry)) }
    ensures kept { (v : Cell) → HasRoomAt touched.old v → HasRoomAt touched.new v }
{
    match value {
        None => Ok(()),
        Some(value) => hold_number(touched, alloc, value),
    }
}

/// Takes room for one more number at each of three values, once where some of them are one.
fn hold_values(
    touched: &mut Touched,
    alloc: Global,
    found: Option<&Value>,
    before: Option<&Value>,
    other: Option<&Value>,
) -> Result<(), NoMemory>
    requires listed { AreListed touched.old }
    ensures listed { AreListed touched.new }
    ensures same { (v : Cell) → touched_at touched.new v ≡ touched_at touched.old v }
    ensures found { OnOk result (IsRoomy touched.new (option_copied found.entry)) }
    ensures before { OnOk result (IsRoomy touched.new (option_copied before.entry)) }
    ensures other { OnOk result (IsRoomy touched.new (option_copied other.entry)) }
{
    hold_value(touched, alloc, found)?;
    hold_value(touched, alloc, unless(before, found))?;
    hold_value(touched, alloc, unless(other, before))
}

/// Adds a number at a value that may be there, where there is room for it.
fn touch_value(touched: &mut Touched, value: Option<&Value>, number: usize)
    requires listed { AreListed touched.old }
    requires room { IsRoomy touched.old (option_copied value) }
    ensures listed { AreListed touched.new }
    ensures touched { (v : Cell) → touched_at touched.new v ≡ cond (has v (option_copied value.entry)) (touched_at touched.old v ++ number ∷ []) (touched_at touched.old v) }
    ensures kept { (v : Cell) → has v (option_copied value.entry) ≡ false → HasRoomAt touched.old v → HasRoomAt touched.new v }
{
    if let Some(value) = value {
        touch(touched, value, number);
    }
}

/// Adds a number at each of three values, where there is room for it. Of the last one is passed whether it is another than the first.
fn touch_values(
    touched: &mut Touched,
    found: Option<&Value>,
    before: Option<&Value>,
    other: Option<&Value>,
    number: usize,
)
    requires listed { AreListed touched.old }
    requires found { IsRoomy touched.old (option_copied found) }
    requires before { IsRoomy touched.old (option_copied before) }
    requires other { IsRoomy touched.old (option_copied other) }
    requires apart { (v : Cell) → has v (option_copied other) ≡ true → has v (option_copied found) ≡ false }
    ensures listed { AreListed touched.new }
    ensures touched { (v : Cell) → touched_at touched.new v
        ≡ cond (has v (option_copied found.entry) || has v (option_copied before.entry) || has v (option_copied other.entry)) (touched_at touched.old v ++ number ∷ []) (touched_at touched.old v) }
{
    touch_value(touched, found, number);
    touch_value(touched, unless(before, found), number);
    touch_value(touched, unless(other, before), number);
}

/// Puts a slot in at a value that may be there.
fn hold_at(
    living: &mut Living,
    alloc: Global,
    value: Option<&Value>,
    slot: usize,
) -> Result<(), NoMemory>
    ensures held { OnOk result (IsHeld living.new.entries (option_copied value.entry) slot) }
    ensures kept { (v : Cell) (s : ℕ) → has_slot living.old.entries v s ≡ true → has_slot living.new.entries v s ≡ true }
{
    match value {
        None => Ok(()),
        Some(value) => hold_slot(living, alloc, value, slot),
    }
}

/// Takes a slot out at a value that may be there.
fn leave(living: &mut Living, value: Option<&Value>, slot: usize)
    ensures { (v : Cell) (s : ℕ) → has_slot living.new.entries v s ≡ cond (has v (option_copied value.entry) && s == slot) false (has_slot living.old.entries v s) }
{
    if let Some(value) = value {
        take_slot(living, value, slot);
    }
}

/// The value that a key had, where it has it no more. What is passed besides is the value that it has now, and the same again where it
/// is another one.
fn gone<'a>(
    found: Option<&'a Value>,
    after: Option<&Value>,
    other: Option<&Value>,
) -> Option<&'a Value>
    requires { (v : Cell) → has v (option_copied other) ≡ (has v (option_copied after) && not (has v (option_copied found))) }
    ensures { (v : Cell) → has v (option_copied after.entry) ≡ true → has v (option_copied result) ≡ false }
{
    match (after, other) {
        (Some(_), None) => None,
        _ => found,
    }
}

/// The place that a slot remembers.
fn near_of(near: &[u32], slot: usize) -> usize {
    match near.get(slot) {
        None => 0,
        Some(place) => *place as usize,
    }
}

/// Has a slot remember a place, where that is a small number. It takes memory for the next slot.
fn keep_near(near: &mut Vec<u32>, slot: usize, place: usize) -> Result<(), NoMemory> {
    if slot == near.len() {
        near.push(0)?;
    }
    if slot < near.len() {
        near[slot] = u32::try_from(place).unwrap_or(0);
    }
    Ok(())
}

impl ColumnIndex {
    /// No values.
    pub fn new(alloc: Global, column: u32) -> ColumnIndex
        ensures column { result.column ≡ column }
        ensures living { result.living.entries ≡ [] }
        ensures places { result.touched.places.entries ≡ [] }
        ensures values { result.touched.values.items ≡ [] }
        ensures lists { result.touched.lists.items ≡ [] }
    {
        ColumnIndex {
            column,
            living: BTreeMap::new(alloc),
            touched: Touched::new(alloc),
            near: Vec::new(alloc),
        }
    }

    /// The numbers of the writes that touched a value.
    pub fn numbers(&self, value: &Value) -> &[usize]
        ensures { result.now ≡ touched_at self.now.touched value.now }
    {
        self.touched.numbers(value)
    }

    /// Takes the memory that a write on the key of a slot needs, which found a row. What the index tells stays as it is, but for the slot,
    /// which is put in at its new value already.
    pub fn hold(
        &mut self,
        alloc: Global,
        slot: usize,
        found: Option<&Row>,
        write: &Write,
    ) -> Result<(), NoMemory>
        requires listed { AreListed self.old.touched }
        ensures same { IsSameColumn self.old self.new }
        ensures ready { OnOk result (IsReady slot (option_copied found.entry) write.now self.new) }
    {
        let found = value_in(found, self.column);
        let before = value_in(write.before.as_ref(), self.column);
        let after = value_in(write.after.as_ref(), self.column);
        let other = unless(after, found);
        self.touched.near = near_of(self.near.as_slice(), slot);
        hold_values(&mut self.touched, alloc, found, before, other)?;
        keep_near(&mut self.near, slot, self.touched.near)?;
        hold_at(&mut self.living, alloc, other, slot)
    }

    /// Notes the write of a number on the key of a slot, which found a row. Takes no memory.
    pub fn note(&mut self, slot: usize, found: Option<&Row>, write: &Write, number: usize)
        requires { IsReady slot (option_copied found) write.now self.old }
        ensures { IsNotedIn slot (option_copied found.entry) write.now number self.old self.new }
    {
        let found = value_in(found, self.column);
        let before = value_in(write.before.as_ref(), self.column);
        let after = value_in(write.after.as_ref(), self.column);
        let other = unless(after, found);
        self.touched.near = near_of(self.near.as_slice(), slot);
        touch_values(&mut self.touched, found, before, other, number);
        leave(&mut self.living, gone(found, after, other), slot);
    }
}
