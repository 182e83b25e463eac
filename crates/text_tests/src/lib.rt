//! Tests of files and codes: the code of a block with each kind of outcome and of write, and its digest, by another program; that calls
//! which the program does not make succeed with memory enough; that a member is called one (`explain` of `merkle_proof`); shelves and sinks
//! that fail in mid-stream.
#![tactic(auto)]

#[cfg(test)]
mod digests;
#[cfg(test)]
mod explaining;
#[cfg(test)]
mod files;
#[cfg(test)]
mod shelves;
