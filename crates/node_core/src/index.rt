//! Jobs by the ids of their transactions.

ghost use Rattle.std.specs.Prelude.{◌≡◌, ◌<◌, ◌≤◌, ◌+◌, ◌++◌, ◌∷◌, All, List, OnOk, Some, [], cond, length, slice_get, vec_capacity, vec_len, ℕ};
ghost use Rattle.std.specs.Str.{bytes_eq};
ghost use Rattle.node_core.specs.ById.{HasEntry, HasRoom, Indexes, KeepsHeld, SameJobs, newest_of, tx_ids};

use block_work::MarkedIds;
use proc_syntax::Tx;
use rel_base::{Id, NoMemory, Twin};
use std::alloc::Global;
use std::sync::Arc;

/// The newest job of each id, and for each job the one before it with the same id; 0 stands for none. So the jobs of an id are found in a
/// number of steps that grows as the logarithm. An id may be held before it has a job.
#[derive(Drop)]
pub struct JobIndex {
    newest: MarkedIds<u64>,
    older: Vec<u64>,
    alloc: Global,
}

impl JobIndex {
    /// No jobs.
    pub fn new(alloc: Global) -> JobIndex
        ensures { Indexes result [] }
    {
        JobIndex {
            newest: MarkedIds::new(alloc),
            older: Vec::new(alloc),
            alloc,
        }
    }

    /// The number of the newest job with an id, or 0.
    pub fn newest(&self, id: &Id) -> u64
        ensures { result ≡ newest_of self.now id.now }
    {
        match self.newest.get(id) {
            None => 0,
            Some(number) => number,
        }
    }

    /// The number of the job with the same id before the one at a place from 0, or 0.
    pub fn older(&self, place: usize) -> u64
        requires { place < length self.now.older.items }
        ensures { slice_get self.now.older.items place ≡ Some result }
    {
        self.older[place]
    }

    /// Takes room for more jobs.
    pub fn reserve(&mut self, more: usize) -> Result<(), NoMemory>
        ensures room { OnOk result (vec_len self.new.older + more ≤ vec_capacity self.new.older) }
        ensures same { SameJobs self.old self.new }
    {
        self.older.reserve(more)?;
        Ok(())
    }

    /// Holds an id, so that a job of it can be noted without memory.
    pub fn hold(&mut self, id: &Id) -> Result<(), NoMemory>
        ensures held { OnOk result (HasEntry self.new id.now) }
        ensures kept { KeepsHeld self.old self.new }
        ensures newest { (other : List ℕ) → newest_of self.new other ≡ newest_of self.old other }
        ensures older { self.new.older ≡ self.old.older }
    {
        if self.newest.get(id).is_some() {
            return Ok(());
        }
        let id = id.copy(self.alloc)?;
        self.newest.insert(id, 0)?;
        Ok(())
    }

    // Notes the newest job of an id that is held, and answers the one before it.
    fn set(&mut self, id: &Id, number: u64) -> u64
        requires { HasEntry self.old id.now }
        ensures was { result ≡ newest_of self.old id.now }
        ensures set { (other : List ℕ) → newest_of self.new other ≡ cond (bytes_eq other id.now) number (newest_of self.old other) }
        ensures kept { KeepsHeld self.old self.new }
        ensures older { self.new.older ≡ self.old.older }
    {
        match self.newest.replace(id, number) {
            None => 0,
            Some(before) => before,
        }
    }

    /// Notes one more job, of an id for which there is room. Takes no memory.
    pub fn note(&mut self, id: &Id)
        requires { HasRoom self.old (id.now ∷ []) }
        ensures noted { (ids : List (List ℕ)) → Indexes self.old ids → Indexes self.new (ids ++ id.now ∷ []) }
        ensures room { (ids : List (List ℕ)) → HasRoom self.old (id.now ∷ ids) → HasRoom self.new ids }
    {
        let number = self.older.len() as u64 + 1;
        let older = self.set(id, number);
        self.older.push_reserved(older);
    }
}

/// Holds the ids of transactions.
pub fn hold_all(index: &mut JobIndex, txs: &[Arc<Tx>]) -> Result<(), NoMemory>
    ensures held { OnOk result (All (HasEntry index.new) (tx_ids txs.now)) }
    ensures newest { (other : List ℕ) → newest_of index.new other ≡ newest_of index.old other }
    ensures older { index.new.older ≡ index.old.older }
{
    for tx in txs {
        index.hold(&tx.id)?;
    }
    Ok(())
}
