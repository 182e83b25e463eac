// The lock's table.
ghost use Rattle.std.specs.Prelude.{◌≡◌};

use crate::rule::{TurnTable, View};
use atomic_table::Table;
use rel_base::Storied;
use std::alloc::Global;
use std::snapshot::Snapshot;

/// A lock round a value with a base and a story. Threads share it by reference, each with a pass of its own.
#[derive(Drop)]
pub struct TurnLock<S: Storied> {
    pub(crate) table: Table<Option<S>, View<S::Base, S::Entry>, Snapshot<S>, TurnTable, Global>,
    ghost sized: { (table.shared.table_id.words ≡ 2) × (table.shared.table_id.slots ≡ 1) },
}
