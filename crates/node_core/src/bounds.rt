//! What is known of the jobs that wait, so that a claim need not look at all jobs.

ghost use Rattle.std.specs.Prelude.{◌≡◌, ◌<◌, ◌≤◌, ◌+◌, ◌%◌, List, [], drop, length, slice_get, take};
ghost use Rattle.node_core.specs.Waiting.{BoundsHold, WaitAbove, leading_quiet};
ghost use Rattle.node_core.specs.Rows.{eligible_rows, put_at};
ghost use Rattle.node_core.specs.declared.jobs.JobRow.{JobRow};
ghost use Rattle.node_core.specs.declared.jobs.Stage.{Stage};

use crate::job_rows::{find_among, find_eligible, is_waiting};
use crate::jobs::JobRow;

/// Bounds on the jobs that wait.
#[derive(Drop)]
pub struct WaitBounds {
    // So many of the first jobs do not wait.
    quiet: usize,
    // Of so many of the first jobs, those that wait are above a height.
    passed: usize,
    // That height.
    above: u64,
}

/// How many of the first jobs do not wait, where so many are for certain.
pub fn skip_quiet(rows: &[JobRow], quiet: usize) -> usize
    requires { quiet ≤ leading_quiet rows.now }
    ensures { result ≡ leading_quiet rows.now }
{
    for i in quiet..rows.len() {
        if is_waiting(&rows[i].stage) {
            return i;
        }
    }
    rows.len()
}

// How many jobs stand before the first one that waits and is not above a height, where that was looked for.
fn count_passed(rows: &[JobRow], height: u64, found: Option<u64>) -> usize
    requires { found ≡ slice_get (eligible_rows 1 height rows.now) 0 }
    ensures within { result ≤ length rows.now }
    ensures above { WaitAbove height (take result rows.now) }
{
    match found {
        None => rows.len(),
        Some(number) => (number - 1) as usize,
    }
}

impl WaitBounds {
    /// The bounds of no jobs.
    pub fn new() -> WaitBounds
        ensures { BoundsHold result [] }
    {
        WaitBounds {
            quiet: 0,
            passed: 0,
            above: 0,
        }
    }

    // Where a walk can start that looks for jobs that wait and whose height is at most the given one.
    fn first_place(&self, height: u64) -> usize
        ensures within { (rows : List JobRow) → BoundsHold self.now rows → result ≤ length rows }
        ensures all { (rows : List JobRow) → BoundsHold self.now rows
            → eligible_rows (result + 1) height (drop result rows) ≡ eligible_rows 1 height rows }
    {
        if height <= self.above {
            return self.passed;
        }
        self.quiet
    }

    /// The number of the first job that waits and whose height is at most the given one. The jobs before it are not walked again at this
    /// height, but for those that come to wait again.
    pub fn find_first(&mut self, rows: &[JobRow], height: u64) -> Option<u64>
        requires { BoundsHold self.old rows.now }
        ensures found { result ≡ slice_get (eligible_rows 1 height rows.now) 0 }
        ensures bounds { BoundsHold self.new rows.now }
    {
        self.quiet = skip_quiet(rows, self.quiet);
        let found = find_eligible(rows, self.first_place(height), height, 0);
        self.passed = count_passed(rows, height, found);
        self.above = height;
        found
    }

    /// Of the jobs that wait and whose height is at most the given one, the number of the one at `n` modulo their count.
    pub fn find_nth(&self, rows: &[JobRow], height: u64, n: u64) -> Option<u64>
        requires { BoundsHold self.now rows.now }
        ensures { result ≡ slice_get (eligible_rows 1 height rows.now) (n % length (eligible_rows 1 height rows.now)) }
    {
        find_among(rows, self.first_place(height), height, n)
    }

    /// The job at a place has another stage.
    pub fn change(&mut self, rows: &[JobRow], place: usize)
        requires { place < length rows.now }
        ensures { (before : List JobRow) (now : Stage) → rows.now ≡ put_at before place now → BoundsHold self.old before → BoundsHold self.new rows.now }
    {
        let row = &rows[place];
        if is_waiting(&row.stage) {
            self.quiet = self.quiet.min(place);
            if row.tx.height <= self.above {
                self.passed = self.passed.min(place);
            }
        }
    }
}
