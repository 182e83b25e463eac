//! The trees of applications, the calls that transactions make, and what a run of a call means, for the whole procedure language. That
//! meaning is a definition, of which `laws.rt` has laws. A run is the same on all tables on which its reads have the same rows
//! (`equal_rows_give_equal_runs`). Reads and writes of a run fit the declarations and have their bounds, and a run sees its own writes
//! (`reads_fit`, `writes_fit`, `few_reads`, `few_writes`, `sees_its_writes`).
#![tactic(auto)]

pub mod call;
pub mod chain_fault;
pub mod declaring;
pub mod fault;
pub mod laws;
pub mod run;
pub mod tree;

pub use call::{Block, CallFault, Tx};
pub use chain_fault::{ChainFault, ChainKind};
pub use declaring::{declare, has_few_columns, tables_of};
pub use fault::Fault;
pub use run::{Binding, Ending, Ran, Stop, Variable};
pub use tree::{App, Change, ColumnText, Expr, Named, Op, ProcDef, Span, Stmt, TableText};
