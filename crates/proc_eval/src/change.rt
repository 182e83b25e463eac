//! The row that an update leaves.

ghost use Rattle.std.specs.Prelude.{◌≡◌};
ghost use Rattle.proc_syntax.specs.Meaning.{row_under, set_columns};
ghost use Rattle.proc_syntax.specs.Values.{found};
ghost use Rattle.proc_eval.specs.Gives.{Gives};

use crate::fit::is_under;
use crate::halt::Halt;
use proc_syntax::Stop;
use rel_base::{Key, Row, TableDef, Value};
use std::alloc::Global;

/// The row of a key with columns set, where it then fits and still has the key.
pub fn changed(
    alloc: Global,
    def: &TableDef,
    key: &Key,
    old: &Row,
    changes: &[(usize, Value)],
) -> Result<Row, Halt>
    ensures { Gives result (found (row_under def.now key.now (set_columns old.now changes.now))) }
{
    let row = old.with_set(alloc, changes)?;
    if is_under(def, key, &row) {
        Ok(row)
    } else {
        Err(Halt::Stop(Stop::IllTyped))
    }
}
