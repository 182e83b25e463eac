//! Procedures with their names resolved once, so that a run meets the numbers of variables, tables and columns, and looks nothing up by a
//! name. `resolve` gives the code of an application. A run of the code is the run of the application (`code_runs_are_runs`), for every
//! application, well typed or not.
#![tactic(auto)]

pub mod calls;
pub mod gather;
pub mod laws;
pub mod numbering;
pub mod places;
pub mod quick;
pub mod resolving;
pub mod slots;
pub mod statements;
pub mod terms;
pub mod tree;
pub mod values;

pub use resolving::resolve;
pub use tree::{Action, AppCode, Param, ProcCode, Setting, Term};
