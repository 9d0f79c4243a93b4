//! A sink in memory.

ghost use Rattle.std.specs.Prelude.{◌≡◌, ◌<◌, ◌≤◌, ◌+◌, ◌++◌, [], length, take, IfOk, OnErr, is_ok, not, ◌&&◌, nat_le, Some, if◌then◌else◌};
ghost use Rattle.edge_traits.specs.Faults.{Counts};
ghost use Rattle.edge_traits.specs.Written.{with_written};
ghost use Rattle.edge_traits.specs.Memory.{no_calls, is_listed, counted};

use super::calls::CallCount;
use crate::{Failed, OutOfMemory, Sink};
use std::alloc::Global;
use std::marker::Model;

/// A sink in memory. A write takes all bytes, or fails where it goes beyond the room or is one
/// of the calls that fail; it then adds nothing.
#[derive(Drop)]
pub struct MemSink {
    written: Vec<u8>,
    room: u64,
    calls: CallCount,
}

impl Model for MemSink {
    ghost use Rattle.std.specs.Prelude.{◌≤◌, length, vec_capacity};
    ghost use Rattle.edge_traits.specs.Memory.{MemOutput};

    ghost Value = { MemOutput };

    ghost view = { λ s. record { written = s.written.items; room = s.room; calls = s.calls } };

    ghost invariant = { λ s. (length s.written.items ≤ s.room) ×
        (s.room ≤ vec_capacity s.written) };
}

impl MemSink {
    /// An empty sink with room for so many bytes, whose calls with these numbers, from 0, fail.
    pub fn new(alloc: Global, room: u64, fails: Vec<u64>) -> Result<MemSink, OutOfMemory>
        ensures { IfOk result (λ s. s ≡ record {
          written = [];
          room = room;
          calls = no_calls
              fails.items;
        }) }
    {
        Ok(MemSink {
            written: Vec::with_capacity(alloc, room as usize)?,
            room,
            calls: CallCount::new(fails),
        })
    }

    /// What was written.
    pub fn bytes(&self) -> &[u8]
        ensures { result.now ≡ self.now.written }
    {
        self.written.as_slice()
    }

    /// How many calls were made.
    pub fn calls(&self) -> u64
        ensures { result ≡ self.now.calls.made }
    {
        self.calls.made()
    }

    /// How many calls failed.
    pub fn faults(&self) -> u64
        ensures { result ≡ self.now.calls.faults }
    {
        self.calls.faults()
    }

    /// Adds bytes; fails where they go beyond the room.
    fn add(&mut self, bytes: &[u8]) -> Result<usize, Failed>
        ensures fits { is_ok result ≡ nat_le
            (length self.old.written + length bytes.now) self.old.room }
        ensures all { IfOk result (λ n. n ≡ length bytes.now) }
        ensures written { self.new.written ≡
            (if is_ok result then self.old.written ++ bytes.now else self.old.written) }
        ensures room { self.new.room ≡ self.old.room }
        ensures calls { self.new.calls ≡ self.old.calls }
    {
        if bytes.len() as u64 > self.room - self.written.len() as u64 {
            return Err(Failed);
        }
        let _ = self.written.extend_from_slice(bytes);
        Ok(bytes.len())
    }
}

impl Sink for MemSink {
    ghost use Rattle.std.specs.Prelude.{Some};

    ghost written = { λ s. Some s.written };

    ghost faults = { λ s. s.calls.faults };

    fn write(&mut self, bytes: &[u8]) -> Result<usize, Failed>
        requires { 0 < length bytes.now }
        ensures some { IfOk result (λ n. 0 < n) }
        ensures bound { IfOk result (λ n. n ≤ length bytes.now) }
        ensures ok { IfOk result (λ n. Some self.new.written ≡
            with_written (Some self.old.written) (take n bytes.now)) }
        ensures err { OnErr result (Some self.new.written ≡ Some self.old.written) }
        ensures cause { Counts self.old.calls.faults self.new.calls.faults result }

        // It fails exactly in a call of the list and beyond the room, and else takes all.
        ensures exact { is_ok result ≡ (not (is_listed self.old.calls) &&
            nat_le (length self.old.written + length bytes.now) self.old.room) }
        ensures all { IfOk result (λ n. n ≡ length bytes.now) }
        ensures calls { self.new.calls ≡ counted self.old.calls (is_ok result) }
        ensures room { self.new.room ≡ self.old.room }
    {
        let done = if self.calls.is_listed() {
            Err(Failed)
        } else {
            self.add(bytes)
        };
        self.calls.count(done)
    }
}
