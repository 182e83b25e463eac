//! Tests of the edges within a block. The calls `add`, `out_row` and `into_row` of `EdgeSet`, by a set of edges that was written down by
//! hand. The order of 1,024 positions of which each has an edge to the next, and of as many with an edge to the one before. `danger`, by a
//! look at each pair of positions, in all eight sets of edges from a later to an earlier of three positions, for all 64 sets of edges that
//! the next transaction may have out and in.
#![tactic(auto)]

#[cfg(test)]
mod building;
#[cfg(test)]
mod chains;
#[cfg(test)]
mod dangers;
#[cfg(test)]
mod rows;
