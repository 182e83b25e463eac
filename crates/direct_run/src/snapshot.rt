//! The tables that a run reads.

ghost use Rattle.std.specs.Prelude.{◌≡◌, IfOk, List};
ghost use Rattle.std.specs.Option.{option_copied};
ghost use Rattle.rel_base.specs.declared.schema.TableDef.{TableDef};
ghost use Rattle.rel_base.specs.declared.access.Read.TheVariants.{Point};
ghost use Rattle.rel_base.specs.Lent.{lent_rows, rows_of};
ghost use Rattle.rel_base.specs.OwnWrites.{first_row};
ghost use Rattle.rel_base.specs.Tables.{Tables};
ghost use Rattle.rel_base.specs.Among.{ReadFitsIn, rows_in};

use rel_base::{Key, List, NoMemory, Read, Row, Seen};
use std::alloc::Global;

/// The tables as they are at some moment, which answer the reads of a run.
pub trait Snapshot {
    ghost declared: { Self → List TableDef };

    ghost tables: { Self → Tables };

    /// The rows that a read gets, in key order.
    fn rows(&self, alloc: Global, read: &Read) -> Result<List<Seen>, NoMemory>
        requires { ReadFitsIn (declared self.now) read.now }
        ensures { IfOk result (λ rows. rows ≡ rows_in (declared self.now) read.now (tables self.now)) };

    /// The row of a key, lent. Takes no memory.
    fn row_at(&self, table: u32, key: &Key) -> Option<&Row>
        requires { ReadFitsIn (declared self.now) (Point table key.now) }
        ensures { option_copied result ≡ first_row (rows_in (declared self.now) (Point table key.now) (tables self.now)) };

    /// The rows that a read gets, in key order, lent.
    fn rows_lent(&self, read: &Read) -> Result<Vec<&Row>, NoMemory>
        requires { ReadFitsIn (declared self.now) read.now }
        ensures { IfOk result (λ lent. lent_rows lent.items ≡ rows_of (rows_in (declared self.now) read.now (tables self.now))) };
}
