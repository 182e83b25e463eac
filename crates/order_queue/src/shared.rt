// What the caller and the clients' threads share.
ghost use Rattle.std.specs.Prelude.{◌≡◌};

use crate::protocol::TicketQueue;
use crossbeam_utils::sync::EventCount;

/// The queue, and what its two sides sleep on.
#[derive(Drop)]
pub struct Shared {
    pub queue: TicketQueue,
    /// Told of each ticket that was taken: clients sleep on it.
    pub room: EventCount,
    /// Told of each ticket that was put: the caller sleeps on it.
    pub tickets: EventCount,
}

impl Shared {
    /// A queue on whose sides nobody sleeps.
    pub fn new(queue: TicketQueue) -> Shared
        ensures queue { result.queue ≡ queue }
    {
        Shared {
            queue,
            room: EventCount::new(),
            tickets: EventCount::new(),
        }
    }
}
