// Tickets, and what a pass knows of them.
use std::collections::LinkedList;

/// A transaction of a client, by the client's number from 1 and its index from 0, or the end of the client.
#[derive(Clone, Copy, Debug, PartialEq, Eq)]
pub struct Ticket {
    pub client: u32,
    /// `None` at the end.
    pub index: Option<u32>,
}

/// What a client has put whose pass came back: so many tickets for transactions, and perhaps its end. It is for proofs alone.
pub struct Known {
    pub client: u32,
    pub put: u32,
    pub ended: bool,
}

/// What a pass knows. It is for proofs alone: no value of it is ever made.
pub struct PassView {
    /// It is the caller's.
    pub gets: bool,
    /// It is a client's.
    pub sends: bool,
    /// Of a client: its number.
    pub from: u32,
    /// Of a client: how many tickets for transactions it has put.
    pub put: u32,
    /// Of a client: it has put its end.
    pub ended: bool,
    /// Of the caller: the tickets that it took.
    pub got: LinkedList<Ticket>,
    /// Of the caller: how many passes it has split off.
    pub made: u32,
    /// Of the caller: what the passes that came back have put, the last of them first.
    pub known: LinkedList<Known>,
}
