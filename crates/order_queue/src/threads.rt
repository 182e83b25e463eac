// The order in which the clients' transactions come: each client puts its tickets in a thread of its own, and the caller takes them.
ghost use Rattle.std.specs.Prelude.{◌≡◌, ℕ, ◌==◌, ◌+◌, ◌*◌, ◌<◌, ◌≤◌, true, false, [], length, IfOk, All, slice_index, sum, vec_capacity, vec_len};
ghost use Rattle.std.specs.List.{count_by};
ghost use Rattle.crossbeam_queue.specs.Passes.{view, IsPassOf, ruled_capacity};
ghost use Rattle.order_queue.specs.Rule.{most_held};
ghost use Rattle.order_queue.specs.Standing.{HasAll, IsCaller, IsCallerOf, IsClient, IsClientOf};
ghost use Rattle.order_queue.specs.Works.{AreWorks, WorksFor, known_of};
ghost use Rattle.proc_syntax.specs.Limits.{most_clients};

use crate::caller::Caller;
use crate::pace::Pace;
use crate::sending::{Progress, ProgressOf, send};
use crate::settling::take_all;
use crate::shared::Shared;
use crate::steps::{admit, open};
use crate::taking::finish;
use crate::work::ClientWork;
use rel_base::NoMemory;
use std::alloc::Global;
use std::sync::Wait;
use std::sync::atomic::{AtomicBool, Ordering};
use std::thread;
use std::thread::Threads;

// A flag for each client, not set.
fn flags_for(alloc: Global, clients: usize) -> Result<Vec<AtomicBool>, NoMemory>
    ensures count { IfOk result (λ flags. vec_len flags ≡ clients) }
{
    let mut flags = Vec::new(alloc);
    for _ in 0..clients {
        flags.push(AtomicBool::new(false))?;
    }
    Ok(flags)
}

// How many transactions the clients have together.
fn sum_of(counts: &[u32]) -> usize
    requires few { length counts.now ≤ most_clients }
    ensures { result ≡ sum counts.now }
{
    let mut total = 0usize;
    for count in counts {
        total += *count as usize;
    }
    total
}

// A queue, and a caller who has taken nothing from it. The room of the queue, and that for a note of each client's transactions, is taken
// here, before any thread starts.
fn begin(alloc: Global, counts: &[u32]) -> Result<(Shared, Caller), NoMemory>
    requires few { length counts.now ≤ most_clients }
    ensures caller { IfOk result (λ begun. IsCallerOf begun.0.queue begun.1) }
    ensures new { IfOk result (λ begun. ((view begun.1.pass).known ≡ []) × ((view begun.1.pass).made ≡ 0)) }
    ensures capacity { IfOk result (λ begun. ruled_capacity begun.0.queue ≡ most_held) }
    ensures room { IfOk result (λ begun. (begun.1.from.items ≡ []) × (sum counts.now ≤ vec_capacity begun.1.from)) }
{
    let from = Vec::with_capacity(alloc, sum_of(counts))?;
    let (queue, pass) = open(alloc)?;
    let caller = Caller {
        pass,
        from,
        lost: false,
        ends: 0,
    };
    Ok((Shared::new(queue), caller))
}

// Starts a thread for each client, does the work of those that can't be started, and takes all tickets.
fn run_clients<R: Threads + Wait + Sync, P: Pace>(
    rt: &R,
    shared: &Shared,
    pace: &P,
    caller: Caller,
    works: Vec<ClientWork>,
    stops: &[AtomicBool],
    counts: &[u32],
) -> Caller
    requires caller { IsCallerOf shared.now.queue caller × ((view caller.pass).known ≡ []) × ((view caller.pass).made ≡ 0) }
    requires room { (works.items ≡ []) × (length counts.now ≤ vec_capacity works) }
    requires few { (length stops.now ≡ length counts.now) × (length counts.now ≤ most_clients) }
    ensures all { HasAll result (length counts.now) (known_of counts.now (length counts.now)) }
{
    thread::scope(
        thread::scope_env(),
        rt,
        move |scope| -> Caller
            requires caller { IsCallerOf shared.now.queue caller × ((view caller.pass).known ≡ []) × ((view caller.pass).made ≡ 0) }
            requires room { (works.items ≡ []) × (length counts.now ≤ vec_capacity works) }
            requires few { (length stops.now ≡ length counts.now) × (length counts.now ≤ most_clients) }
            ensures { HasAll result (length counts.entry.now) (known_of counts.entry.now (length counts.entry.now)) }
        {
            let mut caller = caller;
            let mut works = works;
            for i in 0..counts.len() {
                let pass = admit(&shared.queue, &mut caller.pass);
                let client = i as u32 + 1;
                let count = counts[i];
                let stopped = &stops[i];
                let start = scope.spawn_with(
                    ProgressOf::new(&shared.queue, client, count),
                    move || -> Progress
                        requires { IsClientOf shared.now.queue pass client 0 false }
                        ensures { IsPassOf shared.entry.now.queue result.pass × IsClient (view result.pass) client result.put result.ended × (result.put ≤ count) × (result.ended ≡ true → result.put ≡ count) }
                    { send(rt, shared, pace, stopped, pass, client, count) },
                );
                let work = match start {
                    Ok(child) => ClientWork::Running(child),
                    Err(refused) => {
                        stopped.store(true, Ordering::SeqCst);
                        let progress = (refused.value)();
                        let pass = finish(rt, shared, pace, &mut caller, progress, client, count);
                        ClientWork::Ended(pass)
                    }
                };
                works.push_reserved(work);
            }
            take_all(rt, shared, pace, &mut caller, works, counts);
            caller
        },
    )
}

/// The clients of the transactions, from 1, in the order in which their tickets were taken: each client as often as it has transactions.
///
/// A thread that can't be started is absent: its closure comes back and is called with its flag set, and the caller does the rest of that
/// client's work. Memory is taken before the first thread starts.
pub fn collect<R: Threads + Wait + Sync, P: Pace>(
    rt: &R,
    alloc: Global,
    counts: &[u32],
    pace: &P,
) -> Result<Vec<u32>, NoMemory>
    requires few { length counts.now ≤ most_clients }
    ensures counts { IfOk result (λ from. (k : ℕ) → k < length counts.now → count_by (λ client. client == k + 1) from.items ≡ slice_index counts.now k) }
    ensures clients { IfOk result (λ from. All (λ client. (1 ≤ client) × (client ≤ length counts.now)) from.items) }
{
    let flags = flags_for(alloc, counts.len())?;
    let mut works: Vec<ClientWork> = Vec::new(alloc);
    works.reserve(counts.len())?;
    let (shared, caller) = begin(alloc, counts)?;
    let caller = run_clients(rt, &shared, pace, caller, works, flags.as_slice(), counts);
    let from = caller.noted()?;
    Ok(from)
}
