//! The parser of applications. `parse` gives the tree that the grammar reads in a text, and `Syntax` only where it reads none, at the place
//! where it stops. A token stands there at which it stops whatever follows (`refused`). What stands before it goes on to an application, of
//! which blocks may be one deeper (`viable`), so it is the first token that nothing allows.
//!
//! Only tested: 440 texts with the first token that nothing allows (`tests/cases/faults-of-applications`).
#![tactic(auto)]

mod declarations;
mod expressions;
pub mod lexer;
mod names;
pub mod operands;
pub mod parser;
pub mod phrase;
mod plain_statements;
mod runs;
pub mod spans;
mod statements;
mod token;

pub use parser::{ParseFault, parse};
pub use token::{Lexeme, Sign, Token, Word};
