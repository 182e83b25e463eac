//! The printer of applications, which the program does not use. `print` gives the bytes of a tree's text. An application that was read from
//! a text is read back from them in all but line numbers (`back`), and has the same print (`laws.rt`).
#![tactic(auto)]

pub mod laws;
mod printed_expressions;
mod printed_statements;
mod printer;
mod writing;

pub use printer::print;
