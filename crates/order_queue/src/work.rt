// How far a client's work is.
use crate::protocol::TicketPass;
use crate::sending::{Progress, ProgressOf};
use std::thread::PromisedHandle;

/// A client's thread, or its pass once the client has ended.
#[derive(Drop)]
pub enum ClientWork {
    Running(PromisedHandle<Progress, ProgressOf>),
    Ended(TicketPass),
}
