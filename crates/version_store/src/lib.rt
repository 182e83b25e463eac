//! A plain store of committed versions: one list of the writes, which every answer walks. It meets the contract of `Versions`, and is a
//! reference for stores that answer faster. No program takes it.
//!
//! Only tested: speed; that calls succeed with memory enough, by one insert of `node_tests`.
#![tactic(auto)]

pub mod hits;
pub mod lifespans;
pub mod rows;
pub mod store;

pub use store::PlainVersions;
