//! Why every schedule of a node seals the same blocks: laws of the definitions, with no code. Whatever the order of a node's events, it
//! seals the fold of the blocks that were delivered (`schedules_fold`), so two schedules that deliver the same blocks seal the same
//! (`schedules_agree`). What is decided by a run that was cut short is what the whole run decides (`records_decide`). What others do leaves
//! an actor the jobs that it holds (`others_leave`).
#![tactic(auto)]

pub mod laws;
