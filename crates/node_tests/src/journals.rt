//! What journals tell.

use crate::gating::READS;
use node_model::{Entry, Event};

/// The actor that made a transaction arrive, and its job.
pub fn arrival_of(journal: &[Entry], id: &str) -> Option<(u32, u64)> {
    for entry in journal {
        if let Event::Arrive { job, tx } = &entry.event
            && tx.id.as_str() == id
        {
            return Some((entry.actor, *job));
        }
    }
    None
}

/// The actor that finished a job.
pub fn finisher_of(journal: &[Entry], wanted: u64) -> Option<u32> {
    for entry in journal {
        if let Event::Finish { job } = &entry.event
            && *job == wanted
        {
            return Some(entry.actor);
        }
    }
    None
}

/// Whether each of two jobs makes all reads of a payment, and neither is ever ahead by more than one.
pub fn keep_step(journal: &[Entry], first: u64, second: u64) -> bool {
    let (mut ones, mut twos) = (0u64, 0u64);
    for entry in journal {
        if let Event::Read { job } = &entry.event {
            if *job == first {
                ones = ones.saturating_add(1);
            }
            if *job == second {
                twos = twos.saturating_add(1);
            }
        }
        if ones.abs_diff(twos) > 1 {
            return false;
        }
    }
    ones == READS && twos == READS
}

/// Whether an executor claims a job before the block of a number is delivered.
pub fn is_claimed_before(journal: &[Entry], wanted: u64, number: u64) -> bool {
    for entry in journal {
        match &entry.event {
            Event::Claim { job } if *job == wanted => return entry.actor > 0,
            Event::Deliver { block } if block.number == number => return false,
            _ => {}
        }
    }
    false
}
