//! A node that threads share: a node core behind a turn lock, where every call is one turn. The answer of a call and its entry are those of
//! the core's step in the journal that it finds, which begins with what the pass had seen (`turn`, `later`). Each caller has a pass, whose
//! number is its actor; pass 0 is the processor's, and it alone delivers, commits and seals. Whatever the others do between two turns of a
//! pass, it finds the jobs that it holds as it left them (`turns_find_own`).
#![tactic(auto)]

pub mod arriving;
pub mod held_jobs;
pub mod held_node;
pub mod laws;
pub mod ordering;
pub mod shared;
pub mod telling;

pub use shared::{NodePass, SharedNode};
