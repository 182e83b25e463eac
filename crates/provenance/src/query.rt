//! Queries, and why one has no answer.

use literals::LiteralFault;
use rel_base::{Id, Key, Name, NoMemory};

/// What is asked of the versions of rows.
#[derive(Drop)]
pub enum Query {
    /// All versions of the row of a key.
    History { table: Name, key: Key },
    /// The versions of a table's rows that were visible at some height from one to another, both included.
    Between { table: Name, from: u64, to: u64 },
    /// The versions that a transaction made or ended.
    Written { id: Id },
}

/// Why a query has no answer. But where memory runs out, the first of these that applies.
#[derive(Clone, Copy, PartialEq, Eq)]
pub enum QueryFault {
    /// Memory ran out.
    NoMemory,
    /// The text is not in the grammar of queries.
    BadQuery,
    /// No table has the name.
    UnknownTable,
    /// The number or the kinds of the key's values differ from the key columns.
    BadKey,
    /// The first height is above the second, or the second above the last block.
    BadRange,
}

impl From<NoMemory> for QueryFault {
    ghost use Rattle.std.specs.Prelude.{◌≡◌};
    ghost use Rattle.provenance.specs.declared.query.QueryFault.TheVariants as fault;

    ghost from_gives = { λ _ e. e ≡ fault.NoMemory };

    fn from(_error: NoMemory) -> QueryFault {
        QueryFault::NoMemory
    }
}
