//! Two payments that two executors run at once.

ghost use Rattle.std.specs.Prelude.{◌≡◌, IfOk};
ghost use Rattle.serial_laws.specs.Chained.{AreNumbered};

use crate::calls::{accounts, block, calls};
use crate::gating::SideBySide;
use crate::journals::{arrival_of, finisher_of, keep_step};
use cluster_run::{Crew, SharedBlock, run_node};
use node_model::{Entry, Event};
use proc_check::Checked;
use proc_syntax::Tx;
use std::alloc::Global;
use std::sync::{Arc, Wait};
use std::test::Fail;
use std::thread::Threads;
use version_index::IndexVersions;

const OPENINGS: [&[u8]; 4] = [
    b"tx a1 0 add 1 \"ann\" 50",
    b"tx a2 0 add 2 \"ann\" 50",
    b"tx a3 0 add 3 \"ann\" 50",
    b"tx a4 0 add 4 \"ann\" 50",
];

// Two payments between different accounts.
const PAYMENTS: [&[u8]; 2] = [b"tx p1 1 pay 1 2 5", b"tx p2 1 pay 3 4 5"];

// A block that adds four accounts, and one of the two payments.
fn two_blocks(alloc: Global) -> Result<[SharedBlock; 2], Fail>
    ensures { IfOk result (λ blocks. AreNumbered 1 blocks) }
{
    let (openings, payments) = (calls(alloc, &OPENINGS)?, calls(alloc, &PAYMENTS)?);
    Ok([
        SharedBlock::new(alloc, &block(1, openings)?)?,
        SharedBlock::new(alloc, &block(2, payments)?)?,
    ])
}

// Whether an entry is an arrival.
fn arrives(entry: &Entry) -> bool {
    matches!(entry.event, Event::Arrive { .. })
}

// Whether both payments arrived by actor 3, and were run by the two executors, read by read in turn.
fn is_side_by_side(journal: &[Entry]) -> bool {
    let (Some((3, first)), Some((3, second))) = (
        arrival_of(journal, "p1"),
        arrival_of(journal, "p2"),
    ) else {
        return false;
    };
    let finishers = (finisher_of(journal, first), finisher_of(journal, second));
    first < second
        && journal.iter().filter(|entry| arrives(entry)).count() == 2
        && keep_step(journal, first, second)
        && matches!(finishers, (Some(1), Some(2)) | (Some(2), Some(1)))
}

// Whether the gate was passed, and the journal is so.
fn run_at_once<R: Threads + Wait + Sync>(
    rt: &R,
    alloc: Global,
    app: &Arc<Checked>,
    blocks: &[SharedBlock],
    arrivals: &[Tx],
) -> Result<bool, Fail>
    requires { AreNumbered 1 blocks.now }
{
    let gate = SideBySide::new();
    let crew = Crew::new(1, 2, blocks, arrivals, &gate);
    let made = run_node::<IndexVersions, _, _>(rt, alloc, app, &crew)?;
    Ok(gate.is_passed() && is_side_by_side(made.journal.as_slice()))
}

// The same, of the two payments.
fn run_payments<R: Threads + Wait + Sync>(rt: &R, alloc: Global) -> Result<bool, Fail> {
    let app = accounts(alloc)?;
    let arrivals = calls(alloc, &PAYMENTS)?;
    let blocks = two_blocks(alloc)?;
    run_at_once(rt, alloc, &app, &blocks, arrivals.as_slice())
}

#[test]
fn two_payments_side_by_side(rt: HostRuntime) -> Result<(), Fail> {
    let are_at_once = run_payments(&rt, rt.alloc())?;
    assert!(rt; are_at_once);
    Ok(())
}
