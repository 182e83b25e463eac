//! Where a key stands, by a guess at its slot.

ghost use Rattle.std.specs.Prelude.{◌≡◌, IfSome, Some, is_some, true};
ghost use Rattle.std.specs.Option.{option_map};
ghost use Rattle.rel_base.specs.Value.{key_eq};
ghost use Rattle.version_index.specs.Chains.{AreChainsOf, lives_in, slot_of};
ghost use Rattle.version_index.specs.View.{IsView};

use crate::chains::{Chains, KeySlot, slot_at};
use crate::key_hash::hash_of;
use crate::view::TableView;
use rel_base::{Key, Write};
use row_sets::entry::{LogEntry, entry_at};

/// Where a key stands, where the last write on the key of a slot is on it.
fn spot_by(write: &Write, key: &Key, slot: usize) -> Option<KeySlot>
    ensures slot { IfSome result (λ spot. spot.slot ≡ slot) }
    ensures own { IfSome result (λ spot. key_eq key.now write.now.key ≡ true) }
    ensures lives { IfSome result (λ spot. spot.lives ≡ is_some write.now.after) }
{
    if key.cmp(&write.key).is_eq() {
        Some(KeySlot {
            slot,
            lives: write.after.is_some(),
        })
    } else {
        None
    }
}

/// Where a key stands, where a slot is its own.
fn spot_at(entries: &[LogEntry], chains: &Chains, key: &Key, slot: usize) -> Option<KeySlot>
    requires { AreChainsOf entries.now chains.now }
    ensures slot { IfSome result (λ spot. slot_of chains.now key.now ≡ Some spot.slot) }
    ensures lives { IfSome result (λ spot. spot.lives ≡ lives_in chains.now key.now) }
{
    match chains.last(slot) {
        None => None,
        Some(number) => spot_by(&entry_at(entries, number).placed.write, key, slot),
    }
}

/// Where a key stands, where the guess at its slot is right.
#[inline(always)]
fn guessed_spot(entries: &[LogEntry], chains: &Chains, key: &Key, hash: u64) -> Option<KeySlot>
    requires { AreChainsOf entries.now chains.now }
    ensures slot { IfSome result (λ spot. slot_of chains.now key.now ≡ Some spot.slot) }
    ensures lives { IfSome result (λ spot. spot.lives ≡ lives_in chains.now key.now) }
{
    match chains.guesses.get(hash) {
        None => None,
        Some(slot) => spot_at(entries, chains, key, slot),
    }
}

/// Where a key stands, where it was ever written: by a guess, and where that is wrong by the maps, unless the marks tell that it was
/// never written. The guess tells it in fewer looks into memory, and most of what it looks at is read next.
#[inline(always)]
pub fn spot_of(entries: &[LogEntry], chains: &Chains, key: &Key) -> Option<KeySlot>
    requires { AreChainsOf entries.now chains.now }
    ensures slot { option_map (λ spot. spot.slot) result ≡ slot_of chains.now key.now }
    ensures lives { IfSome result (λ spot. spot.lives ≡ lives_in chains.now key.now) }
{
    let hash = hash_of(key);
    match guessed_spot(entries, chains, key, hash) {
        None => chains.spot_if_in(key, hash),
        Some(spot) => Some(spot),
    }
}

/// The slot of a key, where it was ever written, by a guess first.
pub fn slot_near(view: &TableView<'_>, key: &Key) -> Option<usize>
    requires { IsView view.now }
    ensures { result ≡ slot_of view.now.index.now.chains key.now }
{
    slot_at(spot_of(view.entries, &view.index.chains, key))
}
