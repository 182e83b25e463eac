//! Places at which the actors of a node may be held, so that a test can choose their order.

use rel_base::Id;
use std::sync::Wait;

/// Where an actor is, outside each turn.
#[derive(Clone, Copy, PartialEq, Eq)]
pub enum Point {
    /// It has claimed a job.
    Claimed,
    /// The read of this number of its run was answered, from 1.
    Made(u32),
    /// Its run is about to be finished.
    Ending,
    /// The processor is about to deliver the block of this number.
    Delivering(u64),
}

/// What is called where an actor comes to a point. What a node tells does not depend on it.
pub trait Gate: Sync {
    /// The actor of a node comes to a point, with the id of the transaction that it runs, if it runs one.
    fn pause<R: Wait>(&self, rt: &R, node: u32, actor: u32, id: Option<&Id>, point: Point);
}

/// The gate that holds nobody.
#[derive(Clone, Copy, PartialEq, Eq)]
pub struct NoGate;

impl Gate for NoGate {
    fn pause<R: Wait>(&self, _rt: &R, _node: u32, _actor: u32, _id: Option<&Id>, _point: Point) {}
}
