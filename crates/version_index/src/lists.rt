//! Lists of numbers, one for each slot.

ghost use Rattle.std.specs.Prelude.{◌≡◌, ◌<◌, ◌++◌, ◌∷◌, [], IfOk, OnOk, Some, length, slice_get, slice_set, ℕ};
ghost use Rattle.version_index.specs.Chains.{HasRoomForNumber, list_or_none, lists_in, numbers_at};

use rel_base::NoMemory;
use std::alloc::Global;

/// A list of one number. Three take no more memory than one, since that is the least that is given.
pub fn one_number(alloc: Global, number: usize) -> Result<Vec<usize>, NoMemory>
    ensures { IfOk result (λ numbers. numbers.items ≡ number ∷ []) }
{
    let mut numbers = Vec::with_capacity(alloc, 3)?;
    numbers.push_reserved(number);
    Ok(numbers)
}

/// The list of a slot, and no numbers where there is no such slot.
pub fn list_at(lists: &[Vec<usize>], slot: usize) -> &[usize]
    ensures { result.now ≡ list_or_none (slice_get (lists_in lists.now) slot) }
{
    match lists.get(slot) {
        None => &[],
        Some(numbers) => numbers.as_slice(),
    }
}

/// Takes room for one more number in the list of a slot. The lists stay as they are.
pub fn hold_room(lists: &mut Vec<Vec<usize>>, slot: usize) -> Result<(), NoMemory>
    requires { slot < length lists.old.items }
    ensures same { lists_in lists.new.items ≡ lists_in lists.old.items }
    ensures room { OnOk result (HasRoomForNumber lists.new.items slot) }
    ensures kept { (s : ℕ) → HasRoomForNumber lists.old.items s → HasRoomForNumber lists.new.items s }
{
    lists[slot].reserve(1)?;
    Ok(())
}

/// Adds a number to the list of a slot, which has room for it.
pub fn push_at(lists: &mut Vec<Vec<usize>>, slot: usize, number: usize)
    requires { HasRoomForNumber lists.old.items slot }
    ensures kept { (s : ℕ) → (s ≡ slot → ⊥) → HasRoomForNumber lists.old.items s → HasRoomForNumber lists.new.items s }
    ensures pushed { lists_in lists.new.items ≡ slice_set (lists_in lists.old.items) slot (numbers_at (lists_in lists.old.items) (Some slot) ++ number ∷ []) }
{
    lists[slot].push_reserved(number);
}
