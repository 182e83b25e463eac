//! The result of a block as bytes, and the digest by which nodes compare a whole chain of results. `encode` and `digest_of` give the code
//! and the digest of the definition, and `digest_of_lent` the digest of a result whose writes stand with their transactions. `decode` gives
//! the block whose code is the whole of the bytes, `Bad` exactly where there is none. Codes are one to one, and none begins another
//! (`laws.rt`).
//!
//! Only tested: that calls succeed with memory enough.
#![tactic(auto)]

pub mod digest;
mod items;
pub mod laws;
pub mod lent;
pub mod positions;
pub mod read_block;
pub mod read_outcome;
pub mod write_block;
pub mod write_outcome;

pub use digest::{digest_of, digest_of_lent};
pub use lent::{LentResult, count_writes};
pub use positions::MOST_OUTCOMES;
pub use read_block::decode;
pub use write_block::encode;
