//! What is decided of a transaction by its run.

use node_model::Outcome;
use rw_graph::Edges;

/// What is decided of a transaction by its run: that it commits, with its edges to and from those that committed before it in its block,
/// or that it is aborted for a cause.
#[derive(Drop)]
pub enum Verdict {
    Commits(Edges),
    Aborts(Outcome),
}
