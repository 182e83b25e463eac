//! Room that is taken ahead.

ghost use Rattle.std.specs.Prelude.{◌≡◌, []};

use std::alloc::Global;

/// No items, with room for so many where there is memory for it. Where there is none, room is taken as items come.
pub fn room_for<T: Drop>(alloc: Global, count: usize) -> Vec<T>
    ensures { result.items ≡ [] }
{
    match Vec::with_capacity(alloc, count) {
        Ok(items) => items,
        Err(_) => Vec::new(alloc),
    }
}
