//! The causes of aborts that lie between transactions: late reads, and writes of one key in one block. A directory of what the committed
//! transactions of a block read and wrote finds the write conflict and the edges of a transaction. `late`, `write_conflict` and the
//! directory's `conflict` and `edges` equal their definitions over the committed transactions. `add` makes a `Directory` that of one
//! transaction more, and takes no memory after `reserve`.
#![tactic(auto)]

pub mod clash;
pub mod directory;
pub mod key_hash;
pub mod late_reads;
pub mod lookup;
pub mod marking;
pub mod overtaken;
pub mod places;
pub mod walk;

pub use clash::{ClashRef, first_conflict, first_shared, write_conflict};
pub use directory::Directory;
pub use late_reads::late;
pub use overtaken::LateRef;
