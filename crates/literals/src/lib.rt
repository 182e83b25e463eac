//! How values are spelled: numbers, texts and byte strings, read from the start of some bytes and written at their end. Readers and
//! printers equal the grammar. What is printed is read back, and what is read has one spelling (`laws.rt`).
#![tactic(auto)]

pub mod bytes;
pub mod laws;
pub mod number;
mod part;
pub mod text;

pub use bytes::{push_bytes, read_bytes};
pub use number::{push_int, push_number, read_number};
pub use rel_base::ReadFault as LiteralFault;
pub use text::{push_text, read_text};
