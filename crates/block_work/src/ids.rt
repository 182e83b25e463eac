//! The ids of a chain.

ghost use Rattle.std.specs.Prelude.{◌≡◌, List, None, OnErr, OnOk, ℕ};
ghost use Rattle.block_work.specs.Ids.{AddsPlace, Forgets, SamePlaces, place_of_id, without};

use crate::marked_ids::MarkedIds;
use node_model::Told;
use rel_base::{Id, NoMemory, Place};
use std::alloc::Global;

/// The ids of a chain, each with the place where it first stands.
#[derive(Drop)]
pub struct IdIndex {
    places: MarkedIds<Place>,
}

impl IdIndex {
    /// No ids.
    pub fn new(alloc: Global) -> IdIndex
        ensures { (id : List ℕ) → place_of_id result id ≡ None }
    {
        IdIndex {
            places: MarkedIds::new(alloc),
        }
    }

    /// Where an id first stands; nothing for an id that does not stand in the chain.
    pub fn find(&self, id: &Id) -> Option<Place>
        ensures { result ≡ place_of_id self.now id.now }
    {
        self.places.get(id)
    }

    /// Notes the place of an id, unless it has one. Where memory is wanting, each id has the place that it had.
    pub fn insert(&mut self, id: Id, place: Place) -> Result<(), NoMemory>
        ensures added { OnOk result (AddsPlace self.old self.new id place) }
        ensures same { OnErr result (SamePlaces self.old self.new) }
    {
        if self.find(&id).is_some() {
            return Ok(());
        }
        self.places.insert(id, place)
    }

    // Takes an id out where it first stands in the block of a number.
    fn forget_id(&mut self, number: u64, id: &Id)
        ensures { (other : List ℕ) → place_of_id self.new other ≡ without number id.now (place_of_id self.old) other }
    {
        if let Some(place) = self.find(id) {
            if place.block == number {
                self.places.remove(id);
            }
        }
    }

    /// Takes the ids of some outcomes out, where they first stand in the block of a number. Takes no memory.
    pub fn forget(&mut self, number: u64, outcomes: &[Told])
        ensures { Forgets self.old self.new number outcomes.now }
    {
        for told in outcomes {
            self.forget_id(number, &told.id);
        }
    }
}
