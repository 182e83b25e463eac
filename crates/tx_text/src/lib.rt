//! Values and transactions as lines of text, read and written. `read_tx` and `read_value` are exact to the grammar, and what is written is
//! read back. `ArrivalReader` gives, over any pieces, the transactions of an arrival file, or its first line with a fault, which stays.
//! After a call that ran out of memory it is as before.
#![tactic(auto)]

pub mod arrival_reader;
pub mod arrivals;
pub mod field;
pub mod held;
pub mod laws;
pub mod line;
pub mod split;
pub mod value;

pub use arrival_reader::{ArrivalReader, read_arrivals};
pub use arrivals::{ArrivalFault, MOST_ARRIVALS};
pub use line::{MOST_LINE_BYTES, push_tx, read_tx, write_tx};
pub use literals::LiteralFault as LineFault;
pub use split::split_line;
pub use value::{push_value, read_value, write_value};
