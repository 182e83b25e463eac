//! Bytes and hashes as lower-case hexadecimal digits. `push_digits` and `hash_digits` give the digits of bytes and of a hash, `read_bytes`
//! and `read_hash` what such digits spell, exactly. What is written is read back, and what is read has one spelling (`laws.rt`).
//!
//! Only tested: that calls succeed with memory enough, by the cases of `tests/`.
#![tactic(auto)]

mod bytes;
mod hash;
pub mod laws;

pub use bytes::{push_digits, read_bytes};
pub use hash::{hash_digits, read_hash};
