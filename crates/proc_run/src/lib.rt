//! A machine that runs a call of a procedure: it gives itself back at each read, and goes on with the rows that the read gets. Fed with the
//! rows of some tables, `next` asks for the reads of the run on those tables, in order, `finish` gives that run, and `cut` the reads so
//! far. After a call that ran out of memory it is as before.
#![tactic(auto)]

pub mod asked;
pub mod assigning;
pub mod going;
pub mod machine;
pub mod path;
pub mod plan;
pub mod resume;
pub mod start;
pub mod state;
pub mod stepping;
pub mod turn;
pub mod variables;
pub mod visiting;

pub use machine::Machine;
pub use state::Want;
