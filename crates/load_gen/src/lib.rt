//! A large valid input from a number: an application, blocks of transactions that are drawn, and what arrives at three nodes. `generate`
//! gives those of the definition, each transaction by its draws. Each drawn transaction reads the tables after a block before its own. The
//! text of the application is in the grammar, and its check meets no fault (`laws.rt`).
//!
//! Only tested: that a call succeeds with memory enough; whole loads, as another program draws them (`tests/loads.py`).
#![tactic(auto)]

pub mod application;
pub mod arrivals;
pub mod blocks;
pub mod calls;
pub mod draws;
pub mod laws;
pub mod load;
pub mod txs;

pub use load::{Load, generate};
