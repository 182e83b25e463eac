//! The serial order of the committed transactions of a block, and a test of such orders. `order` gives the order of the definition, which
//! is a serial order of each edge set without a cycle. `check_order` is true exactly for serial orders.
//!
//! Only tested: that calls succeed with memory enough, by the cases of `tests/` and by tests of edge sets (`graph_tests`).
#![tactic(auto)]

pub mod check;
pub mod left;
pub mod placing;

pub use check::check_order;
pub use placing::order;
