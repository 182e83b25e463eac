//! One code in bytes for each value, row and write, so that nodes can compare what they hold by digests. Each `put_` call writes the code
//! of a thing at the end of some bytes. Each `read_` call reads the thing whose code stands at the start of some bytes and answers what
//! follows, a `get_` call answers the length of the code instead, and both answer `Bad` exactly where no code stands there. Codes are one
//! to one, and none begins another (`laws.rt`).
//!
//! Only tested: that calls succeed with memory enough.
#![tactic(auto)]

pub mod laws;
pub mod number;
pub mod row;
pub mod short;
pub mod value;
pub mod write;

pub use number::{put_u32, put_u64, read_u32, read_u64};
pub use rel_base::ReadFault as CodeFault;
pub use row::{MOST_VALUES, get_row, put_row, read_key, read_row};
pub use short::{put_blob, put_text, read_blob, read_text};
pub use value::{get_value, put_value, read_value};
pub use write::{get_write, put_write, put_write_at, read_write};
