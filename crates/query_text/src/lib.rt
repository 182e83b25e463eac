//! The texts of queries: their grammar, and the walk that resolves the names in them. `parse_select` gives the query that these make of a
//! text over declared tables, or its first fault (`meant`), and what is read may be asked (`over`). A token stands at the place of a syntax
//! fault that no continuation of those before it allows (`refused`). Those before it go on to a query, of which each list may have one
//! element more (`viable`).
//!
//! Only tested: 120 texts with the kinds of their faults (`tests/cases/faults-of-queries`).
#![tactic(auto)]

mod columns;
mod comparisons;
mod fault_names;
mod items;
mod keyword;
mod lists;
mod names;
mod parse;
mod query;
mod scope;
mod selected;
mod tree;
mod walk;

pub use fault_names::fault_name;
pub use parse::parse_select;
