//! Read-only queries at a height. `ask` gives, over any store of versions whose blocks are at most the last sealed one, the answer of the
//! definition of a query; `TooHigh`, `TooMany` and `Overflow` come exactly where the definition has them, in this order. Its rows are those
//! of the tuples, or of the groups of tuples, sorted stably by the items that the query names. `plan` gives the access of each source,
//! exactly.
//!
//! Only tested: worked answers and drawn ones (`tests/cases/asks-on-firms`, `tests/check_queries.py`); how sources are read, in
//! `parse_tests`.
#![tactic(auto)]

pub mod access;
pub mod cell;
pub mod compare;
pub mod fault;
pub mod group;
pub mod order;
pub mod query;
pub mod select;
pub mod steps;
pub mod tally;
pub mod walk;

pub use access::Access;
pub use fault::AskFault;
pub use query::ask;
pub use select::{Col, Comparison, Field, Item, Relation, Select, Side};
pub use steps::plan;
