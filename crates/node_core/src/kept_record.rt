//! What is recorded of a run, on the heap.

ghost use Rattle.std.specs.Prelude.{◌≡◌};

use crate::jobs::Record;
use proc_syntax::run::{Ending, Ran};
use rel_base::{List, NoMemory};
use std::alloc::Global;
use std::marker::Model;

/// What is recorded of the run of a job, on the heap: a job keeps it only until its transaction is decided, and its row is small without
/// it. Contracts see the record.
#[derive(Drop)]
pub struct KeptRecord {
    held: Box<Record>,
}

impl Model for KeptRecord {
    ghost use Rattle.node_core.specs.declared.jobs.Record.{Record as Recorded};
    ghost use Rattle.node_core.specs.contracts.jobs.Record as record_code;

    ghost Value = { Recorded };

    ghost coded = { record_code.the_row.coded };

    ghost view = { λ kept. kept.held.value };
}

/// The record of a run that has not begun.
fn no_record(alloc: Global) -> Record {
    let ran = Ran {
        reads: List::new(alloc),
        writes: List::new(alloc),
        ending: Ending::Good,
    };
    Record { ran, cut: false }
}

impl KeptRecord {
    /// Room for a record.
    pub fn room(alloc: Global) -> Result<KeptRecord, NoMemory> {
        Ok(KeptRecord {
            held: Box::new(alloc, no_record(alloc))?,
        })
    }

    /// The record in the place of what was there. Takes no memory.
    pub fn with(self, recorded: Record) -> KeptRecord
        ensures { result ≡ recorded }
    {
        let KeptRecord { mut held } = self;
        *held = recorded;
        KeptRecord { held }
    }

    /// The record.
    pub fn get(&self) -> &Record
        ensures { result.now ≡ self.now }
    {
        &self.held
    }

    /// The record, out of its place on the heap.
    pub fn into_record(self) -> Record
        ensures { result ≡ self }
    {
        let KeptRecord { held } = self;
        Box::into_inner(held)
    }
}
