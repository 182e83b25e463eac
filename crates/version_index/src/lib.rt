//! A store of committed versions with indexes: the writes in one log, and for each table the writes on each key and the keys that have each
//! value of a column. It meets the contract of `Versions`. `find` of a store's look-up gives the version of a key that is visible at a
//! height. It takes `k` steps with 2^k <= 4n + 2 where `n` writes are on the table and all are noted; each write that is not yet noted, of
//! any table, may cost one step more.
//!
//! Only tested: speed, but for the steps of `find`; what the standard library's maps cost where they look up a key; how often a guess at
//! the slot of a key (`guesses.rt`) or at the place of a value (`touched.rt`) is right, where a wrong one costs time alone.
#![tactic(auto)]

pub mod ahead;
pub mod candidates;
pub mod chains;
pub mod column;
pub mod finding;
pub mod growth;
pub mod guesses;
pub mod guessing;
pub mod heads;
pub mod hits;
pub mod index;
pub mod key_hash;
pub mod key_spans;
pub mod keyed;
pub mod lifespans;
pub mod lists;
pub mod living;
pub mod look_up;
pub mod reading;
pub mod rows;
pub mod span;
pub mod steps;
pub mod store;
pub mod touched;
pub mod view;

pub use steps::Steps;
pub use store::IndexVersions;
