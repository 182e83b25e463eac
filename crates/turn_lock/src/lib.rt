//! A lock round a value whose story only grows. A caller holds a `Pass`, which remembers the story as its caller last saw it. A turn is a
//! `take`, any work on the value, and a `give`: `take` answers a value whose story continues what the pass has seen, and `give` lets all
//! others see what was added. So each caller knows, whatever the schedule, that it finds a continuation of what it saw, and that the
//! entries of its own are exactly those that it made.
//!
//! Only tested: threads, in the runs of shared nodes (`node_tests`, `tests/check_journals.py`).
#![tactic(auto)]

mod lock;
mod pass;
mod rule;
mod turns;

pub use lock::TurnLock;
pub use pass::Pass;
