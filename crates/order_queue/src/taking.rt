// What the caller does: it takes tickets, and does a client's work where no thread does it.
ghost use Rattle.std.specs.Prelude.{◌≡◌, ◌≤◌, ◌++◌, true, false, IfOk};
ghost use Rattle.crossbeam_queue.specs.Passes.{view, IsPassOf};
ghost use Rattle.order_queue.specs.Rule.{put_view, ended_view, AllPut};
ghost use Rattle.order_queue.specs.Standing.{IsCallerOf, IsClientOf, IsCaller, IsClient, HasAll, KnowsNoMore, AllFrom, named};

use crate::caller::Caller;
use crate::pace::Pace;
use crate::protocol::TicketPass;
use crate::sending::Progress;
use crate::shared::Shared;
use crate::steps::{end, put, take};
use crate::ticket::Ticket;
use crate::waiting::Waiting;
use rel_base::NoMemory;
use std::sync::Wait;

impl Caller {
    // Notes a ticket that was taken.
    fn note(&mut self, ticket: Ticket)
        ensures pass { self.new.pass ≡ self.old.pass }
        ensures noted { self.new.lost ≡ false → (self.old.lost ≡ false) × (self.new.from.items ≡ self.old.from.items ++ named ticket) }
    {
        if ticket.index.is_none() {
            self.ends = self.ends.saturating_add(1);
        } else if self.from.push(ticket.client).is_err() {
            self.lost = true;
        }
    }

    /// The clients that were noted, unless memory ran out for one.
    pub fn noted(self) -> Result<Vec<u32>, NoMemory>
        ensures noted { IfOk result (λ from. (self.lost ≡ false) × (from.items ≡ self.from.items)) }
    {
        if self.lost {
            return Err(NoMemory);
        }
        Ok(self.from)
    }
}

// Takes a ticket and notes it, and answers whether there was one.
fn take_one<R: Wait>(rt: &R, shared: &Shared, caller: &mut Caller) -> bool
    requires caller { IsCallerOf shared.now.queue caller.old }
    ensures caller { IsCallerOf shared.now.queue caller.new }
    ensures known { KnowsNoMore caller.old caller.new }
    ensures all { result ≡ false → HasAll caller.new (view caller.old.pass).made (view caller.old.pass).known }
{
    match take(rt, &shared.queue, &mut caller.pass) {
        None => false,
        Some(ticket) => {
            shared.room.notify_one();
            caller.note(ticket);
            true
        }
    }
}

// Puts a client's next ticket, and takes a ticket each time that it can't.
fn put_or_take<R: Wait>(
    rt: &R,
    shared: &Shared,
    caller: &mut Caller,
    pass: &mut TicketPass,
    client: u32,
    index: u32,
)
    requires caller { IsCallerOf shared.now.queue caller.old }
    requires pass { IsClientOf shared.now.queue pass.old client index false }
    ensures caller { IsCallerOf shared.now.queue caller.new }
    ensures known { KnowsNoMore caller.old caller.new }
    ensures pass { IsPassOf shared.now.queue pass.new × (view pass.new ≡ put_view (view pass.old)) }
{
    for _ in rt.forever() {
        if put(&shared.queue, pass, client, index) {
            return;
        }
        take_one(rt, shared, caller);
    }
    unreachable!()
}

// Puts a client's end, and takes a ticket each time that it can't.
fn end_or_take<R: Wait>(
    rt: &R,
    shared: &Shared,
    caller: &mut Caller,
    pass: &mut TicketPass,
    client: u32,
    count: u32,
)
    requires caller { IsCallerOf shared.now.queue caller.old }
    requires pass { IsClientOf shared.now.queue pass.old client count false }
    ensures caller { IsCallerOf shared.now.queue caller.new }
    ensures known { KnowsNoMore caller.old caller.new }
    ensures pass { IsPassOf shared.now.queue pass.new × (view pass.new ≡ ended_view (view pass.old)) }
{
    for _ in rt.forever() {
        if end(&shared.queue, pass, client) {
            return;
        }
        take_one(rt, shared, caller);
    }
    unreachable!()
}

/// Does the rest of a client's work on the caller's thread, from where its progress stands.
pub fn finish<R: Wait, P: Pace>(
    rt: &R,
    shared: &Shared,
    pace: &P,
    caller: &mut Caller,
    progress: Progress,
    client: u32,
    count: u32,
) -> TicketPass
    requires caller { IsCallerOf shared.now.queue caller.old }
    requires pass { IsClientOf shared.now.queue progress.pass client progress.put progress.ended }
    requires far { (progress.put ≤ count) × (progress.ended ≡ true → progress.put ≡ count) }
    ensures caller { IsCallerOf shared.now.queue caller.new }
    ensures known { KnowsNoMore caller.old caller.new }
    ensures pass { IsClientOf shared.now.queue result client count true }
{
    let Progress {
        mut pass,
        put,
        ended,
    } = progress;
    if ended {
        return pass;
    }
    for index in put..count {
        pace.pause(rt, client, index);
        put_or_take(rt, shared, caller, &mut pass, client, index);
    }
    pace.pause(rt, client, count);
    end_or_take(rt, shared, caller, &mut pass, client, count);
    pass
}

/// Takes tickets until so many clients have ended.
pub fn gather<R: Wait>(rt: &R, shared: &Shared, caller: &mut Caller, clients: u64)
    requires caller { IsCallerOf shared.now.queue caller.old }
    ensures caller { IsCallerOf shared.now.queue caller.new }
    ensures known { KnowsNoMore caller.old caller.new }
{
    let waiting = Waiting::new(&shared.tickets);
    for _ in rt.forever() {
        if caller.ends >= clients {
            return;
        }
        let announced = waiting.announce();
        if take_one(rt, shared, caller) {
            waiting.found();
        } else {
            waiting.rest(rt, announced);
        }
    }
}

/// Takes what the queue still holds. Then the caller has noted all that the clients have put whose passes came back.
pub fn drain<R: Wait>(rt: &R, shared: &Shared, caller: &mut Caller)
    requires caller { IsCallerOf shared.now.queue caller.old }
    ensures all { HasAll caller.new (view caller.old.pass).made (view caller.old.pass).known }
{
    for _ in rt.forever() {
        if !take_one(rt, shared, caller) {
            return;
        }
    }
}
