// How a thread waits for the other side of the queue.
//
// Why no thread sleeps for ever. A wait is announced before the queue is tried once more, and whoever changes the queue tells of it after
// the change. A client that then fails to put found the queue full, or another client's put or the caller's take under way: so a take ends
// after the announcement, and the caller tells of it. Each of these tells wakes one client, which puts, or fails since another one put;
// either way another take follows while a client sleeps. A caller that finds nothing hears of each put that follows.
use crossbeam_utils::Backoff;
use crossbeam_utils::sync::{EventCount, Key};
use std::sync::Wait;

/// A wait for something to happen: some looks, with other threads let run between them, and then sleep.
#[derive(Drop)]
pub struct Waiting<'a> {
    events: &'a EventCount,
    looks: Backoff,
}

impl<'a> Waiting<'a> {
    /// A wait that has not begun.
    pub fn new(events: &'a EventCount) -> Waiting<'a> {
        Waiting {
            events,
            looks: Backoff::new(),
        }
    }

    /// To be called before each look: announces that the thread may sleep after it, once it has looked often enough.
    pub fn announce(&self) -> Option<Key<'a>> {
        if self.looks.is_completed() {
            Some(self.events.prepare_wait())
        } else {
            None
        }
    }

    /// To be called where a look found something: the next wait begins with looks again.
    pub fn found(&self) {
        self.looks.reset();
    }

    /// To be called where a look found nothing: sleeps until something has happened since it was announced, or lets others run.
    pub fn rest<R: Wait>(&self, rt: &R, announced: Option<Key<'a>>) {
        match announced {
            Some(key) => {
                key.wait(rt);
                self.looks.reset();
            }
            None => self.looks.snooze(),
        }
    }
}
