//! A read that a run asks, on the heap.

ghost use Rattle.std.specs.Prelude.{◌≡◌, [], IfOk};
ghost use Rattle.proc_run.specs.Got.{as_made};

use crate::plan::Pending;
use rel_base::{List, Made, NoMemory, Read, Seen, SeenRows};
use std::alloc::Global;
use std::marker::Model;

/// A read, and its rows once it has them.
#[derive(Drop)]
pub struct Got {
    pub read: Read,
    pub rows: List<Seen>,
}

/// A read, its rows once it has them, and what is done with them.
#[derive(Drop)]
pub struct Asked {
    pub made: Got,
    pub pending: Pending,
}

/// A read that a run asks, on the heap, so that plans and phases are small and a run hands it on as a pointer. Contracts see the read
/// with what belongs to it.
#[derive(Drop)]
pub struct HeldAsked {
    held: Box<Asked>,
}

impl Model for HeldAsked {
    ghost use Rattle.proc_run.specs.declared.asked.Asked.{Asked as Content};
    ghost use Rattle.proc_run.specs.contracts.asked.Asked as content_code;

    ghost Value = { Content };

    ghost coded = { content_code.the_row.coded };

    ghost view = { λ asked. asked.held.value };
}

impl HeldAsked {
    /// A read that has no rows yet.
    pub fn new(alloc: Global, read: Read, pending: Pending) -> Result<HeldAsked, NoMemory>
        ensures { IfOk result (λ asked. asked ≡ record { made = record { read = read; rows = [] }; pending = pending }) }
    {
        let rows = List::new(alloc);
        let made = Got { read, rows };
        Ok(HeldAsked {
            held: Box::new(alloc, Asked { made, pending })?,
        })
    }

    /// The read with its rows. Takes no memory.
    pub fn with_rows(self, rows: List<Seen>) -> HeldAsked
        ensures { result ≡ record { made = record { read = self.made.read; rows = rows }; pending = self.pending } }
    {
        let HeldAsked { mut held } = self;
        held.made.rows = rows;
        HeldAsked { held }
    }

    /// The read, with what belongs to it.
    pub fn get(&self) -> &Asked
        ensures { result.now ≡ self.now }
    {
        &self.held
    }

    /// The read as it was made. Its rows are let go.
    pub fn into_made(self) -> Made
        ensures { result ≡ as_made self.made }
    {
        let HeldAsked { held } = self;
        let Asked { made, pending: _ } = Box::into_inner(held);
        let Got { read, rows } = made;
        Made {
            read,
            rows: SeenRows::of(&rows),
        }
    }
}
