//! The keys that a transaction wrote.

ghost use Rattle.std.specs.Prelude.{◌≡◌, ◌∷◌, [], IfOk, OnOk};
ghost use Rattle.std.specs.List.{filter};
ghost use Rattle.provenance.specs.Chosen.{is_writer, put_keys};
ghost use Rattle.provenance.specs.Versions.{history_of};
ghost use Rattle.row_sets.specs.Versions.{write_of};

use crate::author::is_place_of;
use node_model::KeptResult;
use rel_base::{Id, Key, NoMemory, Place, Twin};
use row_sets::{Versions, WriteRef};
use std::alloc::Global;
use std::collections::BTreeSet;

/// Puts the key of a write among keys, where the transaction that committed under an id wrote it.
fn put_key(
    alloc: Global,
    blocks: &[KeptResult],
    id: &Id,
    write: WriteRef<'_>,
    keys: &mut BTreeSet<(u32, Key)>,
) -> Result<(), NoMemory>
    ensures { OnOk result (keys.new.keys ≡ put_keys keys.old.keys (filter (is_writer blocks.now id.now) (write_of write.entry ∷ []))) }
{
    let place = Place {
        block: write.block,
        pos: write.placed.pos,
    };
    if is_place_of(blocks, id, Some(place)) {
        let key = write.placed.write.key.copy(alloc)?;
        let _ = keys.insert((write.placed.write.table, key))?;
    }
    Ok(())
}

/// The tables and keys that the transaction that committed under an id wrote, in order.
pub fn keys_by<V: Versions>(
    alloc: Global,
    versions: &V,
    blocks: &[KeptResult],
    id: &Id,
) -> Result<BTreeSet<(u32, Key)>, NoMemory>
    requires history { V.history versions.now ≡ history_of blocks.now }
    ensures { IfOk result (λ keys. keys.keys ≡ put_keys [] (filter (is_writer blocks.now id.now) (history_of blocks.now))) }
{
    let mut keys = BTreeSet::new(alloc);
    for number in 0..versions.count() {
        if let Some(write) = versions.write_at(number) {
            put_key(alloc, blocks, id, write, &mut keys)?;
        }
    }
    Ok(keys)
}
