// Who takes the tickets.
use crate::protocol::TicketPass;

/// The caller's pass, and what it has noted of the tickets that it took.
#[derive(Drop)]
pub struct Caller {
    pub pass: TicketPass,
    /// The clients of the transactions, in the order of the takes.
    pub from: Vec<u32>,
    /// Whether memory ran out for one of these. As room is taken first it does not, but the rule has no bound on the tickets.
    pub lost: bool,
    /// How many clients have ended.
    pub ends: u64,
}
