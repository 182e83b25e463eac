//! Outcomes of transactions, each abort with its cause.

ghost use Rattle.std.specs.Prelude.{◌≡◌, IfOk};
ghost use Rattle.node_model.specs.declared.outcome.Outcome.TheVariants as outcome;

use crate::danger::Danger;
use proc_syntax::Fault;
use rel_base::{Boxed, Key, NoMemory, Place, Twin};
use std::alloc::Global;

/// What became of a transaction: the first of these that applies, in this order but for `Committed`, which is last.
///
/// A node keeps an outcome for each transaction of its chain. So what an abort names stands on the heap, and one that commits takes no more
/// than its kind.
#[derive(Drop)]
pub enum Outcome {
    /// Its net writes are part of the tables from the end of its block on.
    Committed,
    /// Its id stands earlier in the chain.
    DuplicateId,
    /// It names a height that is not below its block's number.
    FutureHeight,
    /// No procedure has the name.
    UnknownProcedure,
    /// The number or the kinds of the arguments differ from the parameters.
    BadArguments,
    /// A read of its run is hit by a write committed after its snapshot and before its block.
    Late(Boxed<Late>),
    /// Its run ended in a fault.
    Fault(Boxed<Fault>),
    /// A transaction that committed earlier in the block wrote a key that it writes.
    WriteConflict(Boxed<Clash>),
    /// With some of the transactions that committed earlier in the block it would make two edges in a row as a cycle has them, or
    /// with exact isolation a cycle.
    Danger(Boxed<Danger>),
}

/// The first late read of a transaction, and the least write that hits it.
#[derive(Drop)]
pub struct Late {
    /// Whether the read covers the row before of that write; if not, the row is a phantom.
    pub stale: bool,
    /// The number of the read in its run, from 1.
    pub read: u32,
    /// Where the write stands.
    pub place: Place,
    pub table: u32,
    pub key: Key,
}

/// The least position in the block that wrote a key of the transaction, and the least such key.
#[derive(Drop)]
pub struct Clash {
    pub with: u32,
    pub table: u32,
    pub key: Key,
}

impl Outcome {
    /// The outcome of a late read.
    pub fn of_late(alloc: Global, late: Late) -> Result<Outcome, NoMemory>
        ensures { IfOk result (λ made. made ≡ outcome.Late late) }
    {
        Ok(Outcome::Late(Boxed::new(alloc, late)?))
    }

    /// The outcome of a run that ended in a fault.
    pub fn of_fault(alloc: Global, fault: Fault) -> Result<Outcome, NoMemory>
        ensures { IfOk result (λ made. made ≡ outcome.Fault fault) }
    {
        Ok(Outcome::Fault(Boxed::new(alloc, fault)?))
    }

    /// The outcome of a write conflict.
    pub fn of_clash(alloc: Global, clash: Clash) -> Result<Outcome, NoMemory>
        ensures { IfOk result (λ made. made ≡ outcome.WriteConflict clash) }
    {
        Ok(Outcome::WriteConflict(Boxed::new(alloc, clash)?))
    }

    /// The outcome of a danger.
    pub fn of_danger(alloc: Global, danger: Danger) -> Result<Outcome, NoMemory>
        ensures { IfOk result (λ made. made ≡ outcome.Danger danger) }
    {
        Ok(Outcome::Danger(Boxed::new(alloc, danger)?))
    }
}

impl Twin for Late {
    fn copy(&self, alloc: Global) -> Result<Self, NoMemory> {
        Ok(Late {
            stale: self.stale,
            read: self.read,
            place: self.place,
            table: self.table,
            key: self.key.copy(alloc)?,
        })
    }
}

impl Twin for Clash {
    fn copy(&self, alloc: Global) -> Result<Self, NoMemory> {
        Ok(Clash {
            with: self.with,
            table: self.table,
            key: self.key.copy(alloc)?,
        })
    }
}

impl Twin for Outcome {
    fn copy(&self, alloc: Global) -> Result<Self, NoMemory> {
        match self {
            Outcome::Committed => Ok(Outcome::Committed),
            Outcome::DuplicateId => Ok(Outcome::DuplicateId),
            Outcome::FutureHeight => Ok(Outcome::FutureHeight),
            Outcome::UnknownProcedure => Ok(Outcome::UnknownProcedure),
            Outcome::BadArguments => Ok(Outcome::BadArguments),
            Outcome::Late(late) => Outcome::of_late(alloc, late.get().copy(alloc)?),
            Outcome::Fault(fault) => Outcome::of_fault(alloc, fault.get().copy(alloc)?),
            Outcome::WriteConflict(clash) => Outcome::of_clash(alloc, clash.get().copy(alloc)?),
            Outcome::Danger(danger) => Outcome::of_danger(alloc, danger.get().copy(alloc)?),
        }
    }
}
