//! SHA-256 in which the words of four message blocks are made at once, one block in each lane of a vector. `Hasher` holds a message, to
//! which `update` adds bytes, however long it gets, and `finalize` gives its SHA-256 by the kit's definition (`sha256`). No call takes
//! memory. No half of a vector waits for the other, as it would where the words of one block stand in lanes.
//!
//! Only tested: hashes of known texts by other programs: the chains and digests of `tests/cases`.
#![tactic(auto)]

mod blocks;
mod consts;
mod hasher;
mod rounds;
mod words;

pub use hasher::Hasher;
