//! The transactions of the results of blocks, by their places.

ghost use Rattle.std.specs.Prelude.{◌≡◌, IfOk, IfSome, IsSome, Some};
ghost use Rattle.std.specs.Option.{option_copied, option_map};
ghost use Rattle.provenance.specs.Answer.{committed_as, is_place_of};
ghost use Rattle.provenance.specs.Versions.{id_of, item_of, told_at};

use node_model::{KeptResult, Outcome, Told};
use rel_base::{Id, NoMemory, Place, Twin};
use std::alloc::Global;

/// The item of a number, where the first is 1.
fn item_of<T>(items: &[T], number: u64) -> Option<&T>
    ensures { option_copied result ≡ item_of items.now number }
{
    match number.checked_sub(1) {
        None => None,
        Some(index) => items.get(index as usize),
    }
}

/// The transaction at a place.
fn told_at(blocks: &[KeptResult], place: Place) -> Option<&Told>
    ensures { option_copied result ≡ told_at blocks.now place }
{
    match item_of(blocks, place.block) {
        None => None,
        Some(block) => item_of(block.outcomes().as_slice(), u64::from(place.pos)),
    }
}

/// The id of the transaction at a place where there is one.
pub fn id_at(alloc: Global, blocks: &[KeptResult], place: Place) -> Result<Id, NoMemory>
    requires { IsSome (told_at blocks.now place) }
    ensures { IfOk result (λ id. id ≡ id_of (told_at blocks.now place)) }
{
    match told_at(blocks, place) {
        Some(told) => told.id.copy(alloc),
        None => unreachable!(),
    }
}

/// The id of the transaction at a place, where there is a place.
pub fn id_at_some(
    alloc: Global,
    blocks: &[KeptResult],
    place: Option<Place>,
) -> Result<Option<Id>, NoMemory>
    requires { IfSome place (λ place. IsSome (told_at blocks.now place)) }
    ensures { IfOk result (λ id. id ≡ option_map (λ place. id_of (told_at blocks.now place)) place) }
{
    match place {
        None => Ok(None),
        Some(place) => Ok(Some(id_at(alloc, blocks, place)?)),
    }
}

/// Whether a transaction committed under an id.
fn committed_as(told: &Told, id: &Id) -> bool
    ensures { result ≡ committed_as id.now (Some told.now) }
{
    told.id.as_str() == id.as_str() && matches!(told.outcome, Outcome::Committed)
}

/// Whether a place is that of the transaction that committed under an id.
pub fn is_place_of(blocks: &[KeptResult], id: &Id, place: Option<Place>) -> bool
    ensures { result ≡ is_place_of blocks.now id.now place }
{
    let Some(place) = place else {
        return false;
    };
    match told_at(blocks, place) {
        None => false,
        Some(told) => committed_as(told, id),
    }
}
