ghost use Rattle.std.specs.Prelude.{◌≡◌, ℕ, ◌<◌, ◌≤◌, ◌↔◌, List, ◌++◌, [], length, Some, Ok, Err, IfOk, OnOk, OnErr, IsErr, IsTrue, option_map};
ghost use Rattle.outside.specs.Count.{Rose};
ghost use Rattle.outside.specs.Writes.{taken, call_of};
ghost use Rattle.outside.specs.MemorySink.{MemorySinkState, refuses, fitting, after_write};

use super::listed::is_listed;
use super::{Call, Failed, Memory, Sink};
use std::alloc::Global;
use std::marker::Model;

/// Bytes in memory, with a fixed capacity and a list of the writes that fail. Contracts see it as these bytes, the
/// calls that wrote them, the capacity, the number of writes so far, the numbers of the writes that fail, and the
/// number of faults.
#[derive(Drop)]
pub struct MemorySink {
    bytes: Vec<u8>,
    calls: Vec<Call>,
    room: usize,
    writes: u64,
    failing: Vec<u32>,
    faults: u64,
}

impl Model for MemorySink {
    ghost use Rattle.std.specs.Prelude.{◌≤◌, vec_len, vec_capacity};
    ghost use Rattle.outside.specs.MemorySink.{MemorySinkState};

    ghost Value = { MemorySinkState };

    ghost view = { λ sink. record { bytes = sink.bytes.items; calls = sink.calls.items; room = sink.room; writes = sink.writes; failing = sink.failing.items; faults = sink.faults } };

    // Each call wrote at least one byte, so room for as many calls as bytes is enough.
    ghost invariant = { λ sink. (vec_len sink.bytes ≤ sink.room) × (sink.room ≤ vec_capacity sink.bytes) × (vec_len sink.calls ≤ vec_len sink.bytes) × (sink.room ≤ vec_capacity sink.calls) };
}

impl MemorySink {
    /// An empty sink with a capacity of `room` bytes. `failing` lists the writes that fail, numbered from 0.
    pub fn new(alloc: Global, room: usize, failing: Vec<u32>) -> Result<MemorySink, Memory>
        ensures empty { IfOk result (λ sink. sink.bytes ≡ []) }
        ensures no_calls_yet { IfOk result (λ sink. sink.calls ≡ []) }
        ensures room { IfOk result (λ sink. sink.room ≡ room) }
        ensures no_writes_yet { IfOk result (λ sink. sink.writes ≡ 0) }
        ensures failing { IfOk result (λ sink. sink.failing ≡ failing.items) }
        ensures no_faults_yet { IfOk result (λ sink. sink.faults ≡ 0) }
    {
        let bytes = Vec::with_capacity(alloc, room).map_err(|_| Memory)?;
        let calls = Vec::with_capacity(alloc, room).map_err(|_| Memory)?;
        Ok(MemorySink {
            bytes,
            calls,
            room,
            writes: 0,
            failing,
            faults: 0,
        })
    }

    /// The bytes in the sink.
    pub fn bytes(&self) -> &[u8]
        ensures { result.now ≡ self.now.bytes }
    {
        self.bytes.as_slice()
    }

    /// The calls of `write` that wrote something, oldest first.
    pub fn calls(&self) -> &[Call]
        ensures { result.now ≡ self.now.calls }
    {
        self.calls.as_slice()
    }
}

impl Sink for MemorySink {
    ghost told = { λ sink. Some sink.bytes };

    ghost calls = { λ sink. Some sink.calls };

    ghost faults = { λ sink. sink.faults };

    /// Takes as much of the piece as fits. A write to a full sink and a listed write fail, and increment the number of
    /// faults.
    fn write(&mut self, piece: &[u8]) -> Result<usize, Failed>
        requires not_empty { 0 < length piece.now }
        ensures faults_never_fall { self.old.faults ≤ self.new.faults }
        ensures failed_only_where_faults_rose { OnErr result (Rose self.old.faults self.new.faults) }
        ensures takes_some { IfOk result (λ n. 0 < n) }
        ensures takes_at_most_all { IfOk result (λ n. n ≤ length piece.now) }
        ensures told_after { self.new.bytes ≡ self.old.bytes ++ taken result piece.now }
        ensures called { self.new.calls ≡ self.old.calls ++ call_of result (length piece.now) }

        ensures fails_exactly_where_it_refuses { IsErr result ↔ IsTrue (refuses self.old) }
        ensures takes_what_fits { IfOk result (λ n. n ≡ fitting self.old piece.now) }
        ensures after { self.new ≡ after_write self.old piece.now }
    {
        let fails = is_listed(&self.failing, self.writes) || self.bytes.len() == self.room;
        self.writes = self.writes.saturating_add(1);
        if fails {
            self.faults = self.faults.saturating_add(1);
            return Err(Failed);
        }
        let count = piece.len().min(self.room - self.bytes.len());
        let call = Call {
            handed: piece.len(),
            taken: count,
        };
        match (
            self.bytes.extend_from_slice(&piece[..count]),
            self.calls.push(call),
        ) {
            (Ok(()), Ok(())) => Ok(count),
            _ => unreachable!(),
        }
    }
}
