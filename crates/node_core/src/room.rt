//! A journal with room kept for what must not fail.

ghost use Rattle.std.specs.Prelude.{◌≡◌, ◌+◌, ◌≤◌, OnErr, OnOk, vec_capacity, vec_len};

use node_model::Entry;
use rel_base::NoMemory;

/// Takes room for some entries and then for the releases of the jobs that are held.
pub fn make_room(journal: &mut Vec<Entry>, entries: usize, held: usize) -> Result<(), NoMemory>
    ensures items { journal.new.items ≡ journal.old.items }
    ensures len { vec_len journal.new ≡ vec_len journal.old }
    ensures room { OnOk result (vec_len journal.new + entries + held ≤ vec_capacity journal.new) }
    ensures capacity { vec_capacity journal.old ≤ vec_capacity journal.new }
{
    match entries.checked_add(held) {
        None => Err(NoMemory),
        Some(more) => {
            journal.reserve(more)?;
            Ok(())
        }
    }
}
