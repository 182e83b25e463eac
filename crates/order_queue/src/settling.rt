// The end of the clients' work.
ghost use Rattle.std.specs.Prelude.{◌≡◌, ◌∷◌, ◌+◌, ◌<◌, ◌≤◌, ℕ, true, [], Some, None, get_or, length, slice_index, vec_len};
ghost use Rattle.crossbeam_queue.specs.Passes.{view, IsPassOf};
ghost use Rattle.order_queue.specs.Standing.{IsCallerOf, HasAll};
ghost use Rattle.order_queue.specs.Works.{AreWorks, WorksFor, known_of};
ghost use Rattle.proc_syntax.specs.Limits.{most_clients};

use crate::caller::Caller;
use crate::pace::Pace;
use crate::shared::Shared;
use crate::steps::readmit;
use crate::taking::{drain, finish, gather};
use crate::work::ClientWork;
use std::sync::Wait;
use std::thread::Threads;

// Waits for the end of a client's work, and takes its pass back.
fn settle<R: Threads + Wait, P: Pace>(
    rt: &R,
    shared: &Shared,
    pace: &P,
    caller: &mut Caller,
    work: ClientWork,
    client: u32,
    count: u32,
)
    requires caller { IsCallerOf shared.now.queue caller.old }
    requires work { WorksFor shared.now.queue.table.shared.table_id client count work }
    ensures caller { IsCallerOf shared.now.queue caller.new }
    ensures made { (view caller.new.pass).made ≡ (view caller.old.pass).made }
    ensures known { (view caller.new.pass).known ≡ record { client = client; put = count; ended = true } ∷ (view caller.old.pass).known }
{
    let pass = match work {
        ClientWork::Running(child) => {
            let progress = child.join(rt);
            finish(rt, shared, pace, caller, progress, client, count)
        }
        ClientWork::Ended(pass) => pass,
    };
    readmit(&shared.queue, &mut caller.pass, pass);
}

// Waits for the end of each client's work, and takes the passes back.
fn settle_all<R: Threads + Wait, P: Pace>(
    rt: &R,
    shared: &Shared,
    pace: &P,
    caller: &mut Caller,
    works: Vec<ClientWork>,
    counts: &[u32],
)
    requires caller { IsCallerOf shared.now.queue caller.old × ((view caller.old.pass).known ≡ []) }
    requires works { AreWorks shared.now.queue.table.shared.table_id counts.now works.items × (vec_len works ≡ length counts.now) }
    requires few { length counts.now ≤ most_clients }
    ensures caller { IsCallerOf shared.now.queue caller.new }
    ensures made { (view caller.new.pass).made ≡ (view caller.old.pass).made }
    ensures known { (view caller.new.pass).known ≡ known_of counts.now (length counts.now) }
{
    let mut done = 0;
    for work in works {
        let count = counts[done];
        done += 1;
        settle(rt, shared, pace, caller, work, done as u32, count);
    }
}

/// Takes tickets until all clients have ended, takes their passes back, and takes what the queue still holds.
pub fn take_all<R: Threads + Wait, P: Pace>(
    rt: &R,
    shared: &Shared,
    pace: &P,
    caller: &mut Caller,
    works: Vec<ClientWork>,
    counts: &[u32],
)
    requires caller { IsCallerOf shared.now.queue caller.old × ((view caller.old.pass).known ≡ []) × ((view caller.old.pass).made ≡ length counts.now) }
    requires works { AreWorks shared.now.queue.table.shared.table_id counts.now works.items × (vec_len works ≡ length counts.now) }
    requires few { length counts.now ≤ most_clients }
    ensures all { HasAll caller.new (length counts.now) (known_of counts.now (length counts.now)) }
{
    gather(rt, shared, caller, counts.len() as u64);
    settle_all(rt, shared, pace, caller, works, counts);
    drain(rt, shared, caller);
}
