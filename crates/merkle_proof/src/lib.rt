//! A Merkle tree over the writes of a block, in the shape of RFC 6962, and proofs of at most 32 steps that a write stands in it. `prove`
//! gives a proof of the write at an index, and `verify` is true exactly where the path has the length that number and index give and leads
//! to the head (`head_of`). What is proved is verified; of what is verified `explain` shows that the write stands at its index, or two
//! inputs that differ and have one SHA-256 (`laws.rt`). `read_proof` gives the write and the proof of a proof file, or exactly the first
//! line that no such file has there; `write_proof` gives the file of both, which is read back.
//!
//! Only tested: heads, proofs and proof files of one, two, three and five writes, as another program made them
//! (`tests/cases/proofs-of-known-writes`); of a proof file with one byte changed none shows its write (`tests/check_proofs.py`).
#![tactic(auto)]

mod climb;
mod collision;
mod explaining;
mod hashes;
pub mod laws;
pub mod proof;
mod proof_files;
mod proving;
mod root;
mod verifying;
mod writing;

pub use explaining::{Verdict, explain};
pub use proof::Proof;
pub use proof_files::{MOST_STEPS, ProofFault, read_proof};
pub use proving::prove;
pub use root::head_of;
pub use verifying::verify;
pub use writing::write_proof;
