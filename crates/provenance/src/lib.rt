//! Provenance: queries that ask who made the versions of rows and who ended them. `parse_query` gives the query of a text of any length,
//! `BadQuery` exactly outside the grammar. `answer` gives, over any store of versions and the results of its blocks, exactly the versions
//! that the query selects, in their order, and each refusal exactly. Each write stands at the place of a transaction where numbers and
//! positions are in order, as in the results of a fold (`laws.rt`).
//!
//! Only tested: that calls succeed with memory enough.
#![tactic(auto)]

pub mod author;
pub mod chosen;
pub mod keys;
pub mod laws;
pub mod parse;
pub mod query;
pub mod select;

pub use parse::parse_query;
pub use query::{Query, QueryFault};
pub use select::answer;
