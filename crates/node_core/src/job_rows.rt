//! Tests on jobs and walks over them.

ghost use Rattle.std.specs.Prelude.{◌≡◌, ◌<◌, ◌≤◌, ◌+◌, ◌%◌, ◌++◌, ◌∷◌, List, Some, [], drop, length, map, slice_get, vec_capacity, vec_len, ℕ};
ghost use Rattle.std.specs.Option.{option_map};
ghost use Rattle.node_core.specs.ById.{HasRoom, Indexes, ids_of, tx_ids};
ghost use Rattle.node_core.specs.Rows.{eligible_rows, is_open, new_row, one_held, put_at, row_is_eligible, status_of};
ghost use Rattle.node_model.specs.World.{is_live, is_waiting};

use crate::index::JobIndex;
use crate::jobs::{JobRow, Stage};
use proc_syntax::Tx;
use std::sync::Arc;

/// Whether a job is not dropped.
pub fn is_live(reached: &Stage) -> bool
    ensures { result ≡ is_live (status_of reached.now) }
{
    match reached {
        Stage::Dropped => false,
        _ => true,
    }
}

/// Whether a job waits.
pub fn is_waiting(reached: &Stage) -> bool
    ensures { result ≡ is_waiting (status_of reached.now) }
{
    match reached {
        Stage::Waiting => true,
        _ => false,
    }
}

/// Whether a job waits or is done.
pub fn is_open(reached: &Stage) -> bool
    ensures { result ≡ is_open reached.now }
{
    match reached {
        Stage::Waiting | Stage::Done(_) | Stage::Taken => true,
        Stage::Held(_) | Stage::Dropped => false,
    }
}

/// 1 where a job is held, and else 0.
pub fn one_held(reached: &Stage) -> usize
    ensures { result ≡ one_held reached.now }
{
    match reached {
        Stage::Held(_) => 1,
        _ => 0,
    }
}

// Whether a job waits and the tables of its height are there.
fn is_eligible(row: &JobRow, height: u64) -> bool
    ensures { result ≡ row_is_eligible height row.now }
{
    is_waiting(&row.stage) && row.tx.height <= height
}

// How many jobs wait whose tables are there, among those from a place on.
fn count_eligible(rows: &[JobRow], first: usize, height: u64) -> usize
    requires { first ≤ length rows.now }
    ensures { result ≡ length (eligible_rows (first + 1) height (drop first rows.now)) }
{
    let mut count = 0;
    for i in first..rows.len() {
        if is_eligible(&rows[i], height) {
            count += 1;
        }
    }
    count
}

/// The number of the job at a place among these, from 0.
pub fn find_eligible(rows: &[JobRow], first: usize, height: u64, place: usize) -> Option<u64>
    requires { first ≤ length rows.now }
    ensures { result ≡ slice_get (eligible_rows (first + 1) height (drop first rows.now)) place }
{
    let mut left = place;
    for i in first..rows.len() {
        if is_eligible(&rows[i], height) {
            if left == 0 {
                return Some(i as u64 + 1);
            }
            left -= 1;
        }
    }
    None
}

/// Gives the job at a place from 0 another stage, and answers the one that it had.
pub fn change_stage(rows: &mut Vec<JobRow>, place: usize, stage: Stage) -> Stage
    requires { place < length rows.old.items }
    ensures was { option_map (λ row. row.stage) (slice_get rows.old.items place) ≡ Some result }
    ensures now { rows.new.items ≡ put_at rows.old.items place stage }
{
    std::mem::replace(&mut rows[place].stage, stage)
}

/// The number of the job at `n` modulo their count among these.
pub fn find_among(rows: &[JobRow], first: usize, height: u64, n: u64) -> Option<u64>
    requires { first ≤ length rows.now }
    ensures { result ≡ slice_get (eligible_rows (first + 1) height (drop first rows.now))
        (n % length (eligible_rows (first + 1) height (drop first rows.now))) }
{
    let count = count_eligible(rows, first, height);
    if count == 0 {
        return None;
    }
    let place = (n % count as u64) as usize;
    find_eligible(rows, first, height, place)
}

/// Adds a job that waits, for which there is room.
pub fn push_row(rows: &mut Vec<JobRow>, index: &mut JobIndex, tx: Arc<Tx>)
    requires room { vec_len rows.old < vec_capacity rows.old }
    requires index_room { HasRoom index.old (tx.value.id ∷ []) }
    ensures rows { rows.new.items ≡ rows.old.items ++ new_row tx ∷ [] }
    ensures index { Indexes index.old (ids_of rows.old.items) → Indexes index.new (ids_of rows.new.items) }
    ensures len { vec_len rows.new ≡ vec_len rows.old + 1 }
    ensures capacity { vec_capacity rows.new ≡ vec_capacity rows.old }
    ensures left { (ids : List (List ℕ)) → HasRoom index.old (tx.value.id ∷ ids) → HasRoom index.new ids }
{
    index.note(&tx.id);
    rows.push_reserved(JobRow {
        tx,
        stage: Stage::Waiting,
    });
}

/// Adds jobs that wait, for which there is room.
pub fn push_rows(rows: &mut Vec<JobRow>, index: &mut JobIndex, txs: Vec<Arc<Tx>>)
    requires room { vec_len rows.old + length txs.items ≤ vec_capacity rows.old }
    requires index_room { HasRoom index.old (tx_ids txs.items) }
    ensures rows { rows.new.items ≡ rows.old.items ++ map new_row txs.items }
    ensures index { Indexes index.old (ids_of rows.old.items) → Indexes index.new (ids_of rows.new.items) }
{
    for tx in txs {
        push_row(rows, index, tx);
    }
}
