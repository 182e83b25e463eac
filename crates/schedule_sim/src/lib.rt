//! Schedules: what the actors of a node do, step by step; and a node that does it. `ScheduleReader` gives, over any pieces, the steps of a
//! schedule, or exactly its first bad line, and a schedule has one text. `simulate` gives what the definition of the schedule comes to,
//! with its journal, and `Short` exactly where not all blocks are sealed. The results are the fold of the blocks whatever the schedule, and
//! the journal is legal and delivers the blocks (`folds`, `legal`, `delivers`).
//!
//! Only tested: that calls succeed with memory enough.
#![tactic(auto)]

mod hands;
mod held_jobs;
pub mod laws;
mod parse;
mod read;
mod schedule_reader;
mod simulation;
pub mod step;
mod whole_schedule;

pub use parse::{MOST_SCHEDULE_STEPS, ScheduleFault};
pub use read::MOST_ACTORS;
pub use schedule_reader::{ScheduleReader, parse_schedule};
pub use simulation::SimFault;
pub use step::{Schedule, Step};
pub use whole_schedule::simulate;
