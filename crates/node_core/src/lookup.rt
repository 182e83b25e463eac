//! The job of a transaction.

ghost use Rattle.std.specs.Prelude.{◌≡◌, ◌+◌, ◌<◌, ◌^◌, Some, cond, length, true};
ghost use Rattle.std.specs.List.{position_from};
ghost use Rattle.node_core.specs.ById.{Indexes, ids_of};
ghost use Rattle.node_core.specs.Rows.{row_is_for};
ghost use Rattle.node_model.specs.World.{same_tx};

use crate::index::JobIndex;
use crate::job_rows::is_live;
use crate::jobs::JobRow;
use proc_syntax::Tx;

/// Whether two transactions are the same in all parts.
pub fn same_tx(one: &Tx, two: &Tx) -> bool
    ensures { result ≡ same_tx one.now two.now }
{
    one.id == two.id
        && (one.height == two.height
            && (one.procedure == two.procedure
                && one.args.as_slice().cmp(&two.args.as_slice()).is_eq()))
}

// Whether a job is that of a transaction.
fn is_for(row: &JobRow, tx: &Tx) -> bool
    ensures { result ≡ row_is_for tx.now row.now }
{
    is_live(&row.stage) && same_tx(&row.tx, tx)
}

// The number of the job at a place, where it is that of a transaction, and else what was found.
fn found_at(row: &JobRow, place: usize, tx: &Tx, found: Option<u64>) -> Option<u64>
    requires { place < 2 ^ 63 }
    ensures { result ≡ cond (row_is_for tx.now row.now) (Some (place + 1)) found }
{
    if is_for(row, tx) {
        return Some(place as u64 + 1);
    }
    found
}

// The number of a transaction's job, by a walk over the jobs of its id, from the newest back.
fn find_number(rows: &[JobRow], index: &JobIndex, tx: &Tx) -> Option<u64>
    requires { Indexes index.now (ids_of rows.now) }
    ensures { result ≡ position_from (row_is_for tx.now) 1 rows.now }
{
    let mut found = None;
    let mut number = index.newest(&tx.id);
    while number > 0 {
        let place = (number - 1) as usize;
        found = found_at(&rows[place], place, tx, found);
        number = index.older(place);
    }
    found
}

// Whether the job at a place is that of a transaction and no job before it has its id, so that it is the first.
fn is_first_for(rows: &[JobRow], index: &JobIndex, place: usize, tx: &Tx) -> bool
    requires within { place < length rows.now }
    requires indexed { Indexes index.now (ids_of rows.now) }
    ensures { result ≡ true → position_from (row_is_for tx.now) 1 rows.now ≡ Some (place + 1) }
{
    if index.older(place) != 0 {
        return false;
    }
    is_for(&rows[place], tx)
}

/// The number of a transaction's job. The one at a place that is guessed is looked at first; where that is not it, the jobs of its id are
/// walked.
pub fn find_near(rows: &[JobRow], index: &JobIndex, tx: &Tx, guess: usize) -> Option<u64>
    requires { Indexes index.now (ids_of rows.now) }
    ensures { result ≡ position_from (row_is_for tx.now) 1 rows.now }
{
    if guess < rows.len() && is_first_for(rows, index, guess, tx) {
        return Some(guess as u64 + 1);
    }
    find_number(rows, index, tx)
}
