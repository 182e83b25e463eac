//! The slots of the keys that have a row with a value, for each value of a column.
//!
//! A slot is put in at a value before its key has a row with it, since that takes memory. Where memory runs out between the two, the slot
//! stays there. So what is promised is that none is missing.

ghost use Rattle.std.specs.Prelude.{◌≡◌, ◌==◌, ◌&&◌, IfOk, IsTrue, OnOk, Some, cond, false, true, ℕ};
ghost use Rattle.rel_base.specs.Value.{value_eq};
ghost use Rattle.rel_base.specs.declared.value.Value.{Value as Cell};
ghost use Rattle.version_index.specs.Columns.{has_in, has_slot};

use rel_base::{NoMemory, Twin, Value};
use std::alloc::Global;
use std::collections::{BTreeMap, BTreeSet};

/// For each value its slots.
pub type Living = BTreeMap<Value, BTreeSet<usize>>;

/// Puts a slot in.
fn put_slot(slots: &mut BTreeSet<usize>, slot: usize) -> Result<(), NoMemory>
    ensures put { OnOk result (has_in (Some slots.new) slot ≡ true) }
    ensures kept { (s : ℕ) → has_in (Some slots.old) s ≡ true → has_in (Some slots.new) s ≡ true }
{
    let _ = slots.insert(slot)?;
    Ok(())
}

/// One slot.
fn one_slot(alloc: Global, slot: usize) -> Result<BTreeSet<usize>, NoMemory>
    ensures { IfOk result (λ slots. has_in (Some slots) slot ≡ true) }
{
    let mut slots = BTreeSet::new(alloc);
    put_slot(&mut slots, slot)?;
    Ok(slots)
}

/// Puts a slot in at a value.
pub fn hold_slot(
    living: &mut Living,
    alloc: Global,
    value: &Value,
    slot: usize,
) -> Result<(), NoMemory>
    ensures held { OnOk result (has_slot living.new.entries value.now slot ≡ true) }
    ensures kept { (v : Cell) (s : ℕ) → has_slot living.old.entries v s ≡ true → has_slot living.new.entries v s ≡ true }
{
    if let Some(slots) = living.get_mut(value) {
        return put_slot(slots, slot);
    }
    let slots = one_slot(alloc, slot)?;
    let value = value.copy(alloc)?;
    let _ = living.insert(value, slots)?;
    Ok(())
}

/// Takes a slot out. It answers whether none is left.
fn take_out(slots: &mut BTreeSet<usize>, slot: usize) -> bool
    ensures taken { (s : ℕ) → has_in (Some slots.new) s ≡ cond (s == slot) false (has_in (Some slots.old) s) }
    ensures empty { IsTrue result → (s : ℕ) → has_in (Some slots.new) s ≡ false }
{
    let _ = slots.remove(&slot);
    slots.is_empty()
}

/// Takes a slot out at a value. It answers whether no slot is left at the value.
fn take_at(living: &mut Living, value: &Value, slot: usize) -> bool
    ensures taken { (v : Cell) (s : ℕ) → has_slot living.new.entries v s ≡ cond (value_eq v value.now && s == slot) false (has_slot living.old.entries v s) }
    ensures empty { IsTrue result → (s : ℕ) → has_slot living.new.entries value.now s ≡ false }
{
    match living.get_mut(value) {
        None => false,
        Some(slots) => take_out(slots, slot),
    }
}

/// Takes out a value at which no slot is left.
fn drop_value(living: &mut Living, value: &Value)
    requires { (s : ℕ) → has_slot living.old.entries value.now s ≡ false }
    ensures { (v : Cell) (s : ℕ) → has_slot living.new.entries v s ≡ has_slot living.old.entries v s }
{
    let _ = living.remove(value);
}

/// Takes a slot out at a value, and the value with its last slot.
pub fn take_slot(living: &mut Living, value: &Value, slot: usize)
    ensures { (v : Cell) (s : ℕ) → has_slot living.new.entries v s ≡ cond (value_eq v value.now && s == slot) false (has_slot living.old.entries v s) }
{
    if take_at(living, value, slot) {
        drop_value(living, value);
    }
}
