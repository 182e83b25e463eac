//! An ordering service: clients submit their transactions at once, each in a thread of its own, into one bounded queue, and these are put
//! into blocks. The transactions of the blocks are a merge of the clients' lists, each of them once and those of one client in its order
//! (`order_all`). That holds for every order of the threads' steps, and also where threads can't be started, whose work the caller then
//! does. `ordered_draft` gives the draft of such blocks, which is read back as these with no fault.
//!
//! Only tested: that clients do submit at once (`order_tests`). That who sleeps is woken is said by no contract.
#![tactic(auto)]

mod bins;
mod caller;
mod dealing;
mod drafting;
mod filling;
pub mod laws;
mod ordering;
mod pace;
mod protocol;
mod remaining;
mod sending;
mod settling;
mod shared;
mod steps;
mod taking;
mod threads;
mod ticket;
mod waiting;
mod work;

pub use drafting::draft;
pub use ordering::{Ordered, blocks_needed, order_all, ordered_draft, total_of};
pub use pace::{NoPace, Pace};
