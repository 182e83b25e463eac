//! Sets of rows that grow by writes: the trait `Versions` of stores of committed versions, the log that they keep, and a transaction's own
//! writes. Of a store `visible` are the rows of a read at a height, and `row_at` and `rows_lent` lend them; `late_hit` is the least write
//! that hits a read; after `reserve`, `apply` takes no memory. `chain_of` and `all_of` are the versions of a key and of a table, and
//! `block_from` gives the writes of a block from a number on. Of an `Overlay` `look` and `merge` are the rows that a transaction sees, and
//! `net` its net writes.
//!
//! Only tested: that calls succeed with memory enough.
#![tactic(auto)]

pub mod block_writes;
pub mod by_table;
pub mod cover;
pub mod entry;
pub mod few_writes;
pub mod hits;
pub mod listed;
pub mod merge;
pub mod net;
pub mod overlay;
pub mod table_writes;
pub mod versions;

pub use block_writes::block_from;
pub use entry::LogEntry;
pub use hits::Watch;
pub use overlay::Overlay;
pub use table_writes::OwnWrite;
pub use versions::{HitRef, Lifespan, Versions, WriteRef};
