//! Versions of rows, with the transactions that made and ended them.

use rel_base::{Id, Place, Row};

/// A row that a transaction left in a table: where it was made and under which id, and where the next write of its key ended it and under
/// which id. A row that lives has no end and no one who ended it.
#[derive(Drop)]
pub struct Version {
    pub table: u32,
    pub row: Row,
    pub made: Place,
    pub maker: Id,
    pub ended: Option<Place>,
    pub ender: Option<Id>,
}
