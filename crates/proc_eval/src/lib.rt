//! What runs of procedures are made of, below their statements: operators, calls, names of tables and columns, and reads and rows that fit.
//! Each function is its part of the meaning. Operators that take no memory have no answer that it ran out.
//!
//! Only tested: worked values: the cases of `tests/`.
#![tactic(auto)]

pub mod arith;
pub mod call;
pub mod change;
pub mod compare;
pub mod fit;
pub mod halt;
pub mod scope;

pub use halt::Halt;
