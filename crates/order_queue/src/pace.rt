//! Where clients may be held.

use std::sync::Wait;

/// What is called before each put of a client, so that a test can hold clients until they put at once. What an order promises does not
/// depend on it.
pub trait Pace: Sync {
    /// The client of this number, from 1, is about to put for the time of this index, from 0. The last of its puts is that of its end.
    fn pause<R: Wait>(&self, rt: &R, client: u32, index: u32);
}

/// The pace that holds nobody.
#[derive(Clone, Copy, Debug, PartialEq, Eq)]
pub struct NoPace;

impl Pace for NoPace {
    fn pause<R: Wait>(&self, _rt: &R, _client: u32, _index: u32) {}
}
