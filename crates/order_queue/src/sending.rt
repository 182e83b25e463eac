// What a client's thread does.
ghost use Rattle.std.specs.Prelude.{◌≡◌, ◌≤◌, true, false};
ghost use Rattle.crossbeam_queue.specs.Passes.{view, IsPassOf};
ghost use Rattle.order_queue.specs.Rule.{put_view, ended_view};
ghost use Rattle.order_queue.specs.Standing.{IsClient, IsClientOf};

use crate::pace::Pace;
use crate::protocol::{TicketPass, TicketQueue};
use crate::shared::Shared;
use crate::steps::{end, put};
use crate::waiting::Waiting;
use std::snapshot::Snapshot;
use std::sync::Wait;
use std::sync::atomic::{AtomicBool, Ordering};
use std::thread::Promise;

/// A client's pass, and how far the client came: for how many of its transactions it has put tickets, and whether it has put its end.
#[derive(Drop)]
pub struct Progress {
    pub pass: TicketPass,
    pub put: u32,
    pub ended: bool,
}

/// The promise of a client's thread: its result is a pass of this queue, which knows how far this client came of so many transactions.
#[derive(Drop)]
pub struct ProgressOf {
    queue: Snapshot<TicketQueue>,
    client: u32,
    count: u32,
}

impl ProgressOf {
    /// The promise for a client with so many transactions.
    pub fn new(queue: &TicketQueue, client: u32, count: u32) -> ProgressOf
        ensures { (result.queue.value ≡ queue.now) × (result.client ≡ client) × (result.count ≡ count) }
    {
        ProgressOf {
            queue: Snapshot::of(queue),
            client,
            count,
        }
    }
}

impl Promise<Progress> for ProgressOf {
    ghost kept_by = { λ p r. IsPassOf p.queue.value r.pass × IsClient (view r.pass) p.client r.put r.ended × (r.put ≤ p.count) × (r.ended ≡ true → r.put ≡ p.count) };
}

// Puts a client's next ticket, once there is room.
fn put_at_last<R: Wait>(rt: &R, shared: &Shared, pass: &mut TicketPass, client: u32, index: u32)
    requires pass { IsClientOf shared.now.queue pass.old client index false }
    ensures pass { IsPassOf shared.now.queue pass.new × (view pass.new ≡ put_view (view pass.old)) }
{
    let waiting = Waiting::new(&shared.room);
    for _ in rt.forever() {
        let announced = waiting.announce();
        if put(&shared.queue, pass, client, index) {
            shared.tickets.notify_one();
            return;
        }
        waiting.rest(rt, announced);
    }
    unreachable!()
}

// Puts a client's end, once there is room.
fn end_at_last<R: Wait>(rt: &R, shared: &Shared, pass: &mut TicketPass, client: u32, count: u32)
    requires pass { IsClientOf shared.now.queue pass.old client count false }
    ensures pass { IsPassOf shared.now.queue pass.new × (view pass.new ≡ ended_view (view pass.old)) }
{
    let waiting = Waiting::new(&shared.room);
    for _ in rt.forever() {
        let announced = waiting.announce();
        if end(&shared.queue, pass, client) {
            shared.tickets.notify_one();
            return;
        }
        waiting.rest(rt, announced);
    }
    unreachable!()
}

/// Puts a ticket for each transaction of a client, and then its end, unless the client was stopped before it began.
pub fn send<R: Wait, P: Pace>(
    rt: &R,
    shared: &Shared,
    pace: &P,
    stopped: &AtomicBool,
    mut pass: TicketPass,
    client: u32,
    count: u32,
) -> Progress
    requires pass { IsClientOf shared.now.queue pass client 0 false }
    ensures pass { IsClientOf shared.now.queue result.pass client result.put result.ended }
    ensures far { (result.put ≤ count) × (result.ended ≡ true → result.put ≡ count) }
{
    if stopped.load(Ordering::SeqCst) {
        return Progress {
            pass,
            put: 0,
            ended: false,
        };
    }
    for index in 0..count {
        pace.pause(rt, client, index);
        put_at_last(rt, shared, &mut pass, client, index);
    }
    pace.pause(rt, client, count);
    end_at_last(rt, shared, &mut pass, client, count);
    Progress {
        pass,
        put: count,
        ended: true,
    }
}
