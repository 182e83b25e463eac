// The steps on the queue, each with what it tells its pass.
ghost use Rattle.std.specs.Prelude.{◌≡◌, true, false, IfOk, MatchOption};
ghost use Rattle.crossbeam_queue.specs.Passes.{view, IsPassOf, ruled_capacity};
ghost use Rattle.order_queue.specs.Rule.{first_view, most_held, put_view, ended_view, took_view, more_view, client_view, knowing_view, AllPut};

use crate::protocol::{Fork, PutEnd, PutTicket, Take, TicketPass, TicketQueue};
use crate::ticket::Ticket;
use rel_base::NoMemory;
use std::alloc::Global;
use std::sync::Wait;

// How many tickets the queue holds at most.
const CAPACITY: usize = 64;

/// An empty queue, with the caller's pass, which has number 0.
pub fn open(alloc: Global) -> Result<(TicketQueue, TicketPass), NoMemory>
    ensures pass { IfOk result (λ r. IsPassOf r.0 r.1 × (view r.1 ≡ first_view)) }
    ensures capacity { IfOk result (λ r. ruled_capacity r.0 ≡ most_held) }
{
    let opened = TicketQueue::ruled(alloc, CAPACITY)?;
    Ok(opened)
}

/// A pass for one more client. Its number is the client's: how many passes were split off, with this one.
pub fn admit(queue: &TicketQueue, caller: &mut TicketPass) -> TicketPass
    requires { IsPassOf queue.now caller.old × ((view caller.old).gets ≡ true) }
    ensures caller { IsPassOf queue.now caller.new × (view caller.new ≡ more_view (view caller.old)) }
    ensures client { IsPassOf queue.now result × (view result ≡ client_view (view caller.old)) }
{
    queue.another::<Fork>(caller)
}

/// Puts a client's next ticket, and answers whether it did. It did not where the queue was full, or another thread was in the way.
pub fn put(queue: &TicketQueue, pass: &mut TicketPass, client: u32, index: u32) -> bool
    requires pass { IsPassOf queue.now pass.old }
    requires next { ((view pass.old).sends ≡ true) × ((view pass.old).ended ≡ false) × ((view pass.old).from ≡ client) × ((view pass.old).put ≡ index) }
    ensures pass { IsPassOf queue.now pass.new }
    ensures put { result ≡ true → view pass.new ≡ put_view (view pass.old) }
    ensures full { result ≡ false → view pass.new ≡ view pass.old }
{
    let ticket = Ticket {
        client,
        index: Some(index),
    };
    queue.try_push_as::<PutTicket>(pass, ticket).is_ok()
}

/// Puts a client's end, and answers whether it did.
pub fn end(queue: &TicketQueue, pass: &mut TicketPass, client: u32) -> bool
    requires pass { IsPassOf queue.now pass.old }
    requires next { ((view pass.old).sends ≡ true) × ((view pass.old).ended ≡ false) × ((view pass.old).from ≡ client) }
    ensures pass { IsPassOf queue.now pass.new }
    ensures put { result ≡ true → view pass.new ≡ ended_view (view pass.old) }
    ensures full { result ≡ false → view pass.new ≡ view pass.old }
{
    let ticket = Ticket {
        client,
        index: None,
    };
    queue.try_push_as::<PutEnd>(pass, ticket).is_ok()
}

/// Takes a ticket. Where there is none, what was taken is all that the clients have put whose passes came back.
pub fn take<R: Wait>(rt: &R, queue: &TicketQueue, caller: &mut TicketPass) -> Option<Ticket>
    requires { IsPassOf queue.now caller.old × ((view caller.old).gets ≡ true) }
    ensures caller { IsPassOf queue.now caller.new }
    ensures took { MatchOption result ((view caller.new ≡ view caller.old) × AllPut (view caller.old).got (view caller.old).made (view caller.old).known) (λ x. view caller.new ≡ took_view x (view caller.old)) }
{
    queue.pop_as::<Take, R>(rt, caller)
}

/// Takes a client's pass back.
pub fn readmit(queue: &TicketQueue, caller: &mut TicketPass, pass: TicketPass)
    requires passes { IsPassOf queue.now caller.old × IsPassOf queue.now pass }
    requires roles { ((view caller.old).gets ≡ true) × ((view pass).sends ≡ true) }
    ensures caller { IsPassOf queue.now caller.new × (view caller.new ≡ knowing_view (view caller.old) (view pass)) }
{
    queue.absorb::<Fork>(caller, pass);
}
