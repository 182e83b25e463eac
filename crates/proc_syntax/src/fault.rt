//! The faults of runs.

use rel_base::{NoMemory, Str, Twin};
use std::alloc::Global;

/// Why a run ended without its writes.
#[derive(Drop)]
pub enum Fault {
    /// A number outside 64 bits.
    Overflow,
    /// A division or a remainder by 0.
    ZeroDivide,
    /// An insert of a key that has a row.
    DuplicateKey,
    /// An update or a delete of a key that has no row.
    NoRow,
    /// A joined text of more than 255 bytes.
    TextTooLong,
    /// More than 100,000 steps.
    Steps,
    /// A statement `fail`, with its text.
    Failed(Str),
}

impl Twin for Fault {
    fn copy(&self, alloc: Global) -> Result<Self, NoMemory> {
        match self {
            Fault::Overflow => Ok(Fault::Overflow),
            Fault::ZeroDivide => Ok(Fault::ZeroDivide),
            Fault::DuplicateKey => Ok(Fault::DuplicateKey),
            Fault::NoRow => Ok(Fault::NoRow),
            Fault::TextTooLong => Ok(Fault::TextTooLong),
            Fault::Steps => Ok(Fault::Steps),
            Fault::Failed(text) => Ok(Fault::Failed(text.copy(alloc)?)),
        }
    }
}
