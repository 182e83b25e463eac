//! Jobs that executors hold while a gate has them wait: each of many takes one, and one whose id is settled meanwhile is given up.

ghost use Rattle.std.specs.Prelude.{◌≤◌};
ghost use Rattle.proc_syntax.specs.Limits.{most_executors};

use crate::calls::{accounts, calls, three_blocks};
use crate::holding::Holding;
use crate::journals::arrival_of;
use cluster_run::{Crew, run_node};
use node_model::{Entry, Event};
use proc_syntax::Tx;
use rel_base::List;
use std::alloc::Global;
use std::sync::Wait;
use std::test::Fail;
use std::thread::Threads;
use version_index::IndexVersions;

// Another payment with the id of the one in block 2.
const OTHER_PAYMENT: [&[u8]; 1] = [b"tx p1 1 pay 2 1 7"];

// As many calls as a node may have executors.
const ARRIVALS: [&[u8]; 16] = [
    b"tx p11 0 pay 1 2 5",
    b"tx p12 0 pay 1 2 5",
    b"tx p13 0 pay 1 2 5",
    b"tx p14 0 pay 1 2 5",
    b"tx p15 0 pay 1 2 5",
    b"tx p16 0 pay 1 2 5",
    b"tx p17 0 pay 1 2 5",
    b"tx p18 0 pay 1 2 5",
    b"tx p19 0 pay 1 2 5",
    b"tx p20 0 pay 1 2 5",
    b"tx p21 0 pay 1 2 5",
    b"tx p22 0 pay 1 2 5",
    b"tx p23 0 pay 1 2 5",
    b"tx p24 0 pay 1 2 5",
    b"tx p25 0 pay 1 2 5",
    b"tx p26 0 pay 1 2 5",
];

// Whether an actor made an entry.
fn acts(journal: &[Entry], actor: u32) -> bool {
    journal.iter().any(|entry| entry.actor == actor)
}

// Whether so many actors made entries, and no other one.
fn have_acted(journal: &[Entry], actors: u32) -> bool {
    (0..actors).all(|actor| acts(journal, actor)) && !acts(journal, actors)
}

// Whether the executor gave up the job of the call that arrived, and never finished it.
fn is_given_up(journal: &[Entry], id: &str) -> bool {
    let Some((2, wanted)) = arrival_of(journal, id) else {
        return false;
    };
    let releases = |entry: &Entry| matches!(entry.event, Event::Release { job } if job == wanted)
        && entry.actor == 1;
    let finishes = |entry: &Entry| matches!(entry.event, Event::Finish { job } if job == wanted);
    journal.iter().any(releases) && !journal.iter().any(finishes)
}

// The journal of a node whose executors a gate holds.
fn run_held<R: Threads + Wait + Sync>(
    rt: &R,
    alloc: Global,
    executors: u32,
    arrivals: &[Tx],
    gate: &Holding,
) -> Result<List<Entry>, Fail>
    requires few { executors ≤ most_executors }
{
    let (app, blocks) = (accounts(alloc)?, three_blocks(alloc)?);
    let crew = Crew::new(1, executors, &blocks, arrivals, gate);
    let made = run_node::<IndexVersions, _, _>(rt, alloc, &app, &crew)?;
    Ok(made.journal)
}

#[test]
fn a_job_whose_id_is_settled_is_given_up(rt: HostRuntime) -> Result<(), Fail> {
    let arrivals = calls(rt.alloc(), &OTHER_PAYMENT)?;
    let gate = Holding::new(1, 2, 3);
    let journal = run_held(&rt, rt.alloc(), 1, arrivals.as_slice(), &gate)?;
    assert!(rt; gate.is_passed());
    assert!(rt; is_given_up(journal.as_slice(), "p1"));
    Ok(())
}

#[test]
fn each_executor_holds_a_job(rt: HostRuntime) -> Result<(), Fail> {
    let arrivals = calls(rt.alloc(), &ARRIVALS)?;
    let gate = Holding::new(16, 1, 1);
    let journal = run_held(&rt, rt.alloc(), 16, arrivals.as_slice(), &gate)?;
    assert!(rt; gate.is_passed());
    assert!(rt; have_acted(journal.as_slice(), 18));
    Ok(())
}
