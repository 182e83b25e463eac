// What is left of each client's transactions.
ghost use Rattle.std.specs.Prelude.{◌≡◌, ◌-◌, ◌<◌, ◌≤◌, [], ◌∷◌, length, slice_index_or, slice_set, IfOk};
ghost use Rattle.proc_syntax.specs.declared.call.Tx.{Tx};

use proc_syntax::Tx;
use rel_base::{List, NoMemory};
use std::alloc::Global;
use std::marker::Model;
use std::vec::IntoIter;

/// What is left of each client's transactions. Contracts see it as a list of these for each client.
#[derive(Drop)]
pub struct Remaining {
    lists: Vec<IntoIter<Tx>>,
}

impl Model for Remaining {
    ghost use Rattle.std.specs.Prelude.{List, map};
    ghost use Rattle.std.specs.Vec.Iter.{into_iter_items};
    ghost use Rattle.proc_syntax.specs.declared.call.Tx.{Tx};

    ghost Value = { List (List Tx) };

    ghost view = { λ r. map into_iter_items r.lists.items };
}

impl Remaining {
    /// All that the clients have.
    pub fn new(alloc: Global, clients: List<List<Tx>>) -> Result<Remaining, NoMemory>
        ensures all { IfOk result (λ remaining. remaining ≡ clients) }
    {
        let mut lists = Vec::with_capacity(alloc, clients.len())?;
        for client in clients.into_vec() {
            lists.push(client.into_vec().into_iter())?;
        }
        Ok(Remaining { lists })
    }

    /// Takes the next transaction of the client of this number, from 1.
    pub fn next_of(&mut self, client: u32) -> Tx
        requires client { (1 ≤ client) × (client ≤ length self.old) }
        requires some { 0 < length (slice_index_or self.old (client - 1) []) }
        ensures taken { (rest : List Tx) × (slice_index_or self.old (client - 1) [] ≡ result ∷ rest) × (self.new ≡ slice_set self.old (client - 1) rest) }
    {
        match self.lists[client as usize - 1].next() {
            Some(tx) => tx,
            None => unreachable!(),
        }
    }
}
