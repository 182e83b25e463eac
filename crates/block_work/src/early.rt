//! The causes of an abort that are known without a run.

ghost use Rattle.std.specs.Prelude.{◌≡◌, IfSome};
ghost use Rattle.block_work.specs.Causes.{IsCause, early_by};

use node_model::Outcome;
use proc_check::Checked;
use proc_syntax::{CallFault, Tx};

/// The first cause for which a transaction of the block of a number is aborted without a run, where it is known whether its id stands
/// earlier in the chain. Takes no memory.
pub fn early_cause(app: &Checked, known: bool, number: u64, tx: &Tx) -> Option<Outcome>
    ensures first { result ≡ early_by known app.now.app number tx.now }
    ensures aborts { IfSome result IsCause }
{
    if known {
        return Some(Outcome::DuplicateId);
    }
    if tx.height >= number {
        return Some(Outcome::FutureHeight);
    }
    match app.call_fault(tx) {
        None => None,
        Some(CallFault::UnknownProcedure) => Some(Outcome::UnknownProcedure),
        Some(CallFault::BadArguments) => Some(Outcome::BadArguments),
    }
}
