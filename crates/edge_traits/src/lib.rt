//! The outside as a program meets it: shelves of named files and sinks of bytes, in memory and over the system, and calls that read or
//! write a whole. Those in memory equal their definitions, also the slow ones (`slow`), of which a call gives or takes at most so many
//! bytes; a call fails exactly where a count of faults rose. `read_whole` gives the whole file in pieces of at most 65,536 bytes, and asks
//! for no byte after its limit and one more. `write_whole` writes all bytes, or a prefix of them where a write failed, after which none is
//! tried.
//!
//! Only tested: `DirShelf` and `StdSink` on real files.
#![tactic(auto)]

pub mod mem_shelf;
pub mod mem_sink;
pub mod shelf;
pub mod sink;
pub mod system;
pub mod whole;

pub use mem_shelf::{MemShelf, SureShelf};
pub use mem_sink::{MemSink, NullSink};
pub use shelf::{Shelf, ShelfFailed};
pub use sink::{Sink, SinkFailed};
pub use system::{DirShelf, StdSink};
pub use whole::{FetchFault, make_buffer, read_whole, write_whole};
