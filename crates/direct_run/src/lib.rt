//! The run of a call straight through: by recursion over its code, with rows that the tables lend for the whole run. `run_directly` gives
//! the run of the call on the tables, or tells that memory ran out. The trait `Snapshot` is that of tables as they are at some moment, of
//! which `row_at` lends the row of a key and `rows_lent` the rows of a read.
//!
//! Only tested: that calls succeed with memory enough.
#![tactic(auto)]

pub mod beginning;
pub mod direct;
pub mod doing;
pub mod looking;
pub mod performing;
pub mod reading;
pub mod scope;
pub mod snapshot;
pub mod state;
pub mod sums;
pub mod writing;

pub use direct::run_directly;
pub use snapshot::Snapshot;
