//! Tests of the node that threads share. An insert step by step with two passes of a shared node over a plain list of versions, with its
//! journal; a look at what a claimed job reads; two payments whose reads a gate makes alternate, in the threads of two executors, with the
//! arrivals and reads in the journal. Sixteen executors of which each holds a job at once; a job that its executor gives up, since a block
//! settles its id meanwhile. Two nodes that go on while a third is held before its first block; a call that arrives and is claimed before
//! its block comes, both with the results of one thread.
#![tactic(auto)]

#[cfg(test)]
mod calls;
#[cfg(test)]
mod clusters;
#[cfg(test)]
mod folding;
#[cfg(test)]
mod gating;
#[cfg(test)]
mod held_jobs;
#[cfg(test)]
mod holding;
#[cfg(test)]
mod journals;
#[cfg(test)]
mod looking;
#[cfg(test)]
mod one_held;
#[cfg(test)]
mod opening;
#[cfg(test)]
mod side_by_side;
#[cfg(test)]
mod stepping;
#[cfg(test)]
mod waiting;
