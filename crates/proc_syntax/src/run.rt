//! What a run of a call has on its way, and what it gives at its end.

ghost use Rattle.std.specs.Prelude.{◌≡◌};
ghost use Rattle.proc_syntax.specs.Run.{ending_of};

use crate::fault::Fault;
use rel_base::{List, Made, Name, NoMemory, Row, Twin, Value, Write};
use std::alloc::Global;

/// The number of steps that a run may take.
pub const MOST_RUN_STEPS: u32 = 100_000;

/// What a name stands for in a run: a value, or a row of a table, by the table's number.
#[derive(Drop)]
pub enum Binding {
    Plain(Value),
    Held { table: u32, row: Row },
}

/// A name of a run, and what it stands for.
#[derive(Drop)]
pub struct Variable {
    pub name: Name,
    pub binding: Binding,
}

/// Why a run stops before its end.
#[derive(Drop)]
pub enum Stop {
    /// A fault of the transaction.
    Fault(Fault),
    /// The procedure is not well typed: it uses a name that stands for nothing, or a value of the wrong kind.
    IllTyped,
}

/// How a run ends.
#[derive(Drop)]
pub enum Ending {
    /// With its writes.
    Good,
    /// In a fault, and without writes.
    Faulted(Fault),
    /// Without writes, since the procedure or the call is not well typed.
    IllTyped,
}

impl Ending {
    /// How a run ends that stopped.
    pub fn of(stop: Stop) -> Ending
        ensures { result ≡ ending_of stop }
    {
        match stop {
            Stop::Fault(fault) => Ending::Faulted(fault),
            Stop::IllTyped => Ending::IllTyped,
        }
    }
}

/// What a run gives: its reads in the order in which they were made, each with its rows, its net writes in the order of their
/// tables and keys, and its end.
#[derive(Drop)]
pub struct Ran {
    pub reads: List<Made>,
    pub writes: List<Write>,
    pub ending: Ending,
}

impl Twin for Ending {
    fn copy(&self, alloc: Global) -> Result<Self, NoMemory> {
        match self {
            Ending::Good => Ok(Ending::Good),
            Ending::Faulted(fault) => Ok(Ending::Faulted(fault.copy(alloc)?)),
            Ending::IllTyped => Ok(Ending::IllTyped),
        }
    }
}
