//! Rows that contracts alone see.

ghost use Rattle.std.specs.Prelude.{◌≡◌, List as Rows};
ghost use Rattle.std.specs.Borrow.{ftrue};
ghost use Rattle.std.specs.Coded.{coded_list};
ghost use Rattle.rel_base.specs.declared.access.Seen.{Seen as SeenRow};
ghost use Rattle.rel_base.specs.contracts.access.Seen as seen_code;

use crate::access::Seen;
use crate::list::List;
use std::marker::Model;

/// What has rows, for contracts alone.
pub trait HasRows {
    ghost rows: { Self → Rows SeenRow };
}

/// The rows that something has, for contracts alone. They take no memory, and nothing is done for them.
#[derive(Drop)]
pub struct ToldRows {
    pub ghost rows: { Rows SeenRow } by { coded_list seen_code.the_row.coded },
}

impl HasRows for List<Seen> {
    ghost rows = { λ rows. rows };
}

impl Model for ToldRows {
    ghost also_owns = { λ _. ftrue };
}

impl ToldRows {
    /// The rows that something has.
    pub fn of<T: HasRows>(_what: &T) -> ToldRows
        ensures { result.rows ≡ T.rows _what.now }
    {
        ToldRows {}
    }
}

// It owns nothing.
unsafe impl Send for ToldRows {}

unsafe impl Sync for ToldRows {}
