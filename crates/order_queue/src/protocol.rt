// The rule of the queue, and the six kinds of step that keep it.

use crate::ticket::{PassView, Ticket};
use crossbeam_queue::protocol::{Join, Lesson, Outcome, Protocol, Split};
use crossbeam_queue::{Pass, RuledArrayQueue};

/// The rule: what was taken, followed by what the queue holds, has of each client the tickets that it put, in their order.
pub struct TicketRule;

impl Protocol<Ticket, PassView> for TicketRule {
    ghost use Rattle.order_queue.specs.Rule.{QueueRule, first_view};

    ghost holds = { QueueRule };

    ghost first = { first_view };
}

/// Kind 3: a put of a ticket for a transaction.
pub struct PutTicket;

impl Outcome<Ticket, PassView> for PutTicket {
    ghost use Rattle.order_queue.specs.Rule.{put_view};
    ghost use Rattle.std.specs.Prelude.{◌≡◌};

    ghost then = { λ v x w. w ≡ put_view v };
}

/// Kind 4: a put of a client's end.
pub struct PutEnd;

impl Outcome<Ticket, PassView> for PutEnd {
    ghost use Rattle.order_queue.specs.Rule.{ended_view};
    ghost use Rattle.std.specs.Prelude.{◌≡◌};

    ghost then = { λ v x w. w ≡ ended_view v };
}

/// Kind 5: a take. Where the queue is empty, it tells that all was taken which the clients have put whose passes came back.
pub struct Take;

impl Outcome<Ticket, PassView> for Take {
    ghost use Rattle.order_queue.specs.Rule.{took_view};
    ghost use Rattle.std.specs.Prelude.{◌≡◌};

    ghost then = { λ v x w. w ≡ took_view x v };
}

impl Lesson<Ticket, PassView> for Take {
    ghost use Rattle.order_queue.specs.Rule.{AllPut};
    ghost use Rattle.std.specs.Prelude.{◌++◌};

    ghost fact = { λ v items. AllPut (v.got ++ items) v.made v.known };
}

/// Kinds 2 and 6: a pass is split off for one more client, and given back.
pub struct Fork;

impl Split<PassView> for Fork {
    ghost use Rattle.order_queue.specs.Rule.{more_view, client_view};

    ghost left = { more_view };

    ghost right = { client_view };
}

impl Join<PassView> for Fork {
    ghost use Rattle.order_queue.specs.Rule.{knowing_view, spent_view};

    ghost both = { knowing_view };

    ghost spent = { spent_view };
}

/// The queue of tickets.
pub type TicketQueue = RuledArrayQueue<Ticket, PassView, TicketRule>;

/// A pass of the queue: the caller's, which takes, or that of a client, which puts.
pub type TicketPass = Pass<Ticket, PassView>;
