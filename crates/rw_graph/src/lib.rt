//! Edges between the transactions of a block, kept as bits, and the danger of a transaction among those that committed before it: two edges
//! in a row, or a cycle. `edges_of` gives the edges between a transaction and those that committed before it, by position. In an `EdgeSet`
//! `add` adds the edges of one position and no other, and takes no memory after `reserve`. `danger` is the definition's for the two forms,
//! and `cycle` the least path of the definition, `None` exactly where there is no path.
//!
//! Only tested: that calls succeed with memory enough, by the cases of `tests/` and by tests of edge sets (`graph_tests`).
#![tactic(auto)]

pub mod bits;
pub mod cycles;
pub mod dangers;
pub mod edge_rows;
pub mod edge_search;
pub mod edge_set;
pub mod edges;
pub mod laws;
pub mod room;
pub mod word;

pub use bits::Bits;
pub use cycles::cycle;
pub use dangers::danger;
pub use edge_search::{edges_of, touches};
pub use edge_set::EdgeSet;
pub use edges::Edges;
pub use room::room_for;
