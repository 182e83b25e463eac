//! Jobs that a seal drops.

ghost use Rattle.std.specs.Prelude.{◌≡◌, ◌∷◌, [], map};
ghost use Rattle.node_core.specs.ById.{Indexes, ids_of};
ghost use Rattle.node_core.specs.Over.{drop_among, drop_open};

use crate::index::JobIndex;
use crate::job_rows::is_open;
use crate::jobs::{JobRow, Stage};
use proc_syntax::Tx;
use rel_base::Id;

// Drops a job where it waits or is done.
fn drop_open(row: &mut JobRow)
    ensures { row.new ≡ drop_open row.old }
{
    if is_open(&row.stage) {
        row.stage = Stage::Dropped;
    }
}

// Drops the jobs of an id that wait or are done, by a walk from the newest back.
fn drop_id(rows: &mut Vec<JobRow>, index: &JobIndex, id: &Id)
    requires { Indexes index.now (ids_of rows.old.items) }
    ensures { rows.new.items ≡ map (drop_among (id.now ∷ [])) rows.old.items }
{
    let mut number = index.newest(id);
    while number > 0 {
        let place = (number - 1) as usize;
        drop_open(&mut rows[place]);
        number = index.older(place);
    }
}

/// Drops the jobs that wait or are done and whose ids are those of some transactions. It looks at no other job.
pub fn drop_all(rows: &mut Vec<JobRow>, index: &JobIndex, txs: &[Tx])
    requires { Indexes index.now (ids_of rows.old.items) }
    ensures { rows.new.items ≡ map (drop_among (map (λ tx. tx.id) txs.now)) rows.old.items }
{
    for tx in txs {
        drop_id(rows, index, &tx.id);
    }
}
