//! A sink in memory, which tells what it took, and one that only takes.

ghost use Rattle.std.specs.Prelude.{◌≡◌, ◌≤◌, ◌<◌, ◌-◌, ◌++◌, ◌↔◌, length, take, min, IfOk, OnOk, OnErr, Some, None, IsErr, IsTrue, Ok, cond, is_err};
ghost use Rattle.edge_traits.specs.Causes.{Rose, raised};
ghost use Rattle.edge_traits.specs.Memory.{at_most, fresh_bytes, write_fails};

use crate::mem_shelf::{at_most, is_listed};
use crate::sink::{Sink, SinkFailed};
use rel_base::{List, NoMemory};
use std::alloc::Global;
use std::marker::Model;

/// A sink in memory, which tells what it took and fails where it is set to.
///
/// Its room is kept ready from the start, so writing takes no memory. Calls with bytes are counted from 1. Such a call fails
/// exactly where its number is listed or no room is left, and each other one takes as many bytes as there is room for, within
/// the bound of a slow sink.
#[derive(Drop)]
pub struct MemSink {
    taken: Vec<u8>,
    room: usize,
    fails: List<u64>,
    most: Option<usize>,
    calls: u64,
    failed: u64,
}

impl Model for MemSink {
    ghost use Rattle.std.specs.Prelude.{◌≤◌, IfSome, vec_capacity};
    ghost use Rattle.edge_traits.specs.Memory.{MemBytes};

    ghost Value = { MemBytes };

    ghost view = { λ sink. record { taken = sink.taken.items; room = sink.room; fails = sink.fails; most = sink.most; calls = sink.calls; failed = sink.failed } };

    ghost invariant = { λ sink. (sink.room ≤ vec_capacity sink.taken) × IfSome sink.most (λ most. 1 ≤ most) };
}

impl MemSink {
    /// A sink with room for so many bytes, and the numbers of the calls that are to fail.
    pub fn new(alloc: Global, room: usize, fails: List<u64>) -> Result<MemSink, NoMemory>
        ensures { IfOk result (λ sink. sink ≡ fresh_bytes room fails None) }
    {
        let taken = Vec::with_capacity(alloc, room)?;
        Ok(MemSink {
            taken,
            room,
            fails,
            most: None,
            calls: 0,
            failed: 0,
        })
    }

    /// A sink as that of `new`, of which one call takes at most `most` bytes, as real output may. The bound is at least 1,
    /// since a call takes some byte or fails. The error is out of memory for the room.
    pub fn slow(
        alloc: Global,
        room: usize,
        fails: List<u64>,
        most: usize,
    ) -> Result<MemSink, NoMemory>
        requires { 1 ≤ most }
        ensures { IfOk result (λ sink. sink ≡ fresh_bytes room fails (Some most)) }
    {
        let taken = Vec::with_capacity(alloc, room)?;
        Ok(MemSink {
            taken,
            room,
            fails,
            most: Some(most),
            calls: 0,
            failed: 0,
        })
    }

    /// All bytes that were taken.
    pub fn bytes(&self) -> &[u8]
        ensures { result.now ≡ self.now.taken }
    {
        self.taken.as_slice()
    }
}

impl Sink for MemSink {
    ghost written = { λ sink. Some sink.taken };

    ghost faults = { λ sink. sink.failed };

    fn write(&mut self, bytes: &[u8]) -> Result<usize, SinkFailed>
        ensures bound { IfOk result (λ count. count ≤ length bytes.now) }
        ensures some { 0 < length bytes.now → IfOk result (λ count. 0 < count) }
        ensures empty { length bytes.now ≡ 0 → result ≡ Ok 0 }
        ensures appended { IfOk result (λ count. self.new.taken ≡ self.old.taken ++ take count bytes.now) }
        ensures unchanged { OnErr result (self.new.taken ≡ self.old.taken) }
        ensures later { self.old.failed ≤ self.new.failed }
        ensures cause { OnErr result (Rose self.old.failed self.new.failed) }
        ensures quiet { OnOk result (self.new.failed ≡ self.old.failed) }

        // What a sink in memory promises beyond the trait: which calls fail, and that the others take all that there is room for within its bound.
        ensures fails { 0 < length bytes.now → (IsErr result ↔ IsTrue (write_fails self.old)) }
        ensures most { IfOk result (λ count. count ≡ min (at_most self.old.most (length bytes.now)) (self.old.room - length self.old.taken)) }
        ensures calls { 0 < length bytes.now → self.new.calls ≡ raised self.old.calls }
        ensures failed { self.new.failed ≡ cond (is_err result) (raised self.old.failed) self.old.failed }
        ensures room { self.new.room ≡ self.old.room }
        ensures listed { self.new.fails ≡ self.old.fails }
        ensures slow { self.new.most ≡ self.old.most }
        ensures idle { length bytes.now ≡ 0 → self.new ≡ self.old }
    {
        let size = at_most(self.most, bytes.len());
        if bytes.is_empty() {
            return Ok(0);
        }
        self.calls = self.calls.saturating_add(1);
        let fails = is_listed(self.fails.as_slice(), self.calls);
        if fails || self.taken.len() >= self.room {
            self.failed = self.failed.saturating_add(1);
            return Err(SinkFailed);
        }
        let count = std::cmp::min(size, self.room - self.taken.len());
        match self.taken.extend_from_slice(&bytes[..count]) {
            Ok(()) => Ok(count),
            Err(_) => unreachable!(),
        }
    }
}

/// A sink that takes each piece whole, tells nothing and never fails.
#[derive(Drop)]
pub struct NullSink;

impl NullSink {
    /// The sink.
    pub fn new() -> NullSink {
        NullSink
    }
}

impl Sink for NullSink {
    ghost written = { λ sink. None };

    ghost faults = { λ sink. 0 };

    fn write(&mut self, bytes: &[u8]) -> Result<usize, SinkFailed>
        ensures whole { result ≡ Ok (length bytes.now) }
    {
        Ok(bytes.len())
    }
}
