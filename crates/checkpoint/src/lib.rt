//! Checkpoints: the digests of a chain's blocks, or the heads of their writes, as a file, and where the files of several peers differ.
//! `read_digests` gives the digests of a file, or exactly the first line that no such file has there; `write_digests` gives the file of
//! digests or of heads. `majority` is the digest that more than half of all peers have at a height; `compare` gives for each peer the least
//! height at which it differs from that, and the least height at which two peers differ. Folds over lists of blocks that are the same up to
//! a height have the same digests up to it (`folds_agree`).
//!
//! Only tested: worked peers and files with faults: the cases of `tests/`; drawn ones (`tests/check_proofs.py`).
#![tactic(auto)]

mod comparing;
mod files;
pub mod laws;
mod printed;

pub use comparing::{Compared, compare, majority};
pub use files::{DigestFault, MOST_DIGESTS, read_digests, write_digests};
pub use printed::print_compared;
