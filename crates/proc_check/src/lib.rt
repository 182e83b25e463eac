//! The check of an application: names, kinds and counts, once for each text. `check` gives exactly the first fault of the walk, for the
//! whole language. `Checked` is well typed and holds its code, with at most 64 tables of at most 32 columns. A call of it that can begin
//! never ends ill typed (`checked_runs_are_typed`).
//!
//! Only tested: faults in print: the cases of `tests/`.
#![tactic(auto)]

pub mod blocks;
pub mod checked;
pub mod expressions;
pub mod fault;
pub mod laws;
pub mod named;
pub mod procedures;
pub mod scope;
pub mod statements;
pub mod tables;

pub use checked::{Checked, check};
pub use fault::{Bad, BadKind, CheckFault};
