//! Objects in memory that give and take one byte a call.

ghost use Rattle.std.specs.Prelude.{◌≡◌, ◌<◌, ◌≤◌, ◌-◌, ◌&&◌, ℕ, List, length, take, drop, min, map, not, is_ok, is_some, nat_lt, string_bytes, IfOk, OnOk};
ghost use Rattle.std.specs.Prelude.{OnErr, Some, []};
ghost use Rattle.edge_traits.specs.Faults.{Counts};
ghost use Rattle.edge_traits.specs.Files.{Stands, IsTold};
ghost use Rattle.edge_traits.specs.Written.{with_written};
ghost use Rattle.edge_traits.specs.Memory.{told, find_file, no_calls, is_listed, counted};

use super::library::MemLibrary;
use super::sink::MemSink;
use crate::{Failed, Library, OutOfMemory, Sink};
use std::alloc::Global;
use std::marker::Model;

/// A library in memory that gives at most one byte a read.
#[derive(Drop)]
pub struct SlowLibrary {
    library: MemLibrary,
}

impl Model for SlowLibrary {
    ghost use Rattle.edge_traits.specs.Memory.{MemFiles};

    ghost Value = { MemFiles };

    ghost view = { λ s. s.library };
}

impl SlowLibrary {
    /// A library of these files, whose calls with these numbers, from 0, fail.
    pub fn new(
        alloc: Global,
        files: Vec<(String, Vec<u8>)>,
        fails: Vec<u64>,
    ) -> Result<SlowLibrary, OutOfMemory>
        ensures { IfOk result (λ s. s ≡ record {
          files = map (λ f.
              (string_bytes f.0, f.1.items)) files.items;
          calls = no_calls fails.items;
        }) }
    {
        Ok(SlowLibrary {
            library: MemLibrary::new(alloc, files, fails)?,
        })
    }

    /// How many calls were made.
    pub fn calls(&self) -> u64
        ensures { result ≡ self.now.calls.made }
    {
        self.library.calls()
    }

    /// How many calls failed.
    pub fn faults(&self) -> u64
        ensures { result ≡ self.now.calls.faults }
    {
        self.library.faults()
    }
}

impl Library for SlowLibrary {
    ghost use Rattle.edge_traits.specs.Memory.{told};

    ghost holds = { λ s. told s.files };

    ghost faults = { λ s. s.calls.faults };

    ghost faults_at = { λ s call name. s.calls.faults };

    fn size(&mut self, name: &str) -> Result<u64, Failed>
        ensures files { told self.new.files ≡ told self.old.files }
        ensures known { OnOk result (Stands (told self.old.files) name.now) }
        ensures size { IfOk result (λ n. (file : List ℕ) →
            IsTold (told self.old.files) name.now file → n ≡ length file) }
        ensures cause { Counts self.old.calls.faults self.new.calls.faults result }

        // It fails exactly in a call of the list and at a name that isn't held.
        ensures exact { is_ok result ≡ (not (is_listed self.old.calls) &&
            is_some (find_file self.old.files name.now)) }
        ensures calls { self.new.calls ≡ counted self.old.calls (is_ok result) }
        ensures same { self.new.files ≡ self.old.files }
    {
        self.library.size(name)
    }

    fn read_at(&mut self, name: &str, off: u64, buf: &mut [u8]) -> Result<usize, Failed>
        ensures files { told self.new.files ≡ told self.old.files }
        ensures known { OnOk result (Stands (told self.old.files) name.now) }
        ensures bound { IfOk result (λ n. n ≤ length buf.new) }
        ensures bytes { IfOk result (λ n. (file : List ℕ) →
            IsTold (told self.old.files) name.now file → take n buf.new ≡ take n (drop off file)) }
        ensures end { IfOk result (λ n. (file : List ℕ) →
            IsTold (told self.old.files) name.now file → n ≡ 0 → 0 < length buf.new →
            length file ≤ off) }
        ensures cause { Counts self.old.calls.faults self.new.calls.faults result }

        // It fails exactly in a call of the list and at a name that isn't held, and else reads
        // one byte, or none at the end and where none fits.
        ensures exact { is_ok result ≡ (not (is_listed self.old.calls) &&
            is_some (find_file self.old.files name.now)) }
        ensures one { IfOk result (λ n. (file : List ℕ) →
            find_file self.old.files name.now ≡ Some file →
            n ≡ min (min 1 (length buf.old)) (length file - off)) }
        ensures calls { self.new.calls ≡ counted self.old.calls (is_ok result) }
        ensures same { self.new.files ≡ self.old.files }
    {
        let count = buf.len().min(1);
        self.library.read_at(name, off, &mut buf[..count])
    }
}

/// A sink in memory that takes one byte a write.
#[derive(Drop)]
pub struct SlowSink {
    sink: MemSink,
}

impl Model for SlowSink {
    ghost use Rattle.edge_traits.specs.Memory.{MemOutput};

    ghost Value = { MemOutput };

    ghost view = { λ s. s.sink };
}

impl SlowSink {
    /// An empty sink with room for so many bytes, whose calls with these numbers, from 0, fail.
    pub fn new(alloc: Global, room: u64, fails: Vec<u64>) -> Result<SlowSink, OutOfMemory>
        ensures { IfOk result (λ s. s ≡ record {
          written = [];
          room = room;
          calls = no_calls
              fails.items;
        }) }
    {
        Ok(SlowSink {
            sink: MemSink::new(alloc, room, fails)?,
        })
    }

    /// What was written.
    pub fn bytes(&self) -> &[u8]
        ensures { result.now ≡ self.now.written }
    {
        self.sink.bytes()
    }

    /// How many calls were made.
    pub fn calls(&self) -> u64
        ensures { result ≡ self.now.calls.made }
    {
        self.sink.calls()
    }

    /// How many calls failed.
    pub fn faults(&self) -> u64
        ensures { result ≡ self.now.calls.faults }
    {
        self.sink.faults()
    }
}

impl Sink for SlowSink {
    ghost use Rattle.std.specs.Prelude.{Some};

    ghost written = { λ s. Some s.written };

    ghost faults = { λ s. s.calls.faults };

    fn write(&mut self, bytes: &[u8]) -> Result<usize, Failed>
        requires { 0 < length bytes.now }
        ensures some { IfOk result (λ n. 0 < n) }
        ensures bound { IfOk result (λ n. n ≤ length bytes.now) }
        ensures ok { IfOk result (λ n. Some self.new.written ≡
            with_written (Some self.old.written) (take n bytes.now)) }
        ensures err { OnErr result (Some self.new.written ≡ Some self.old.written) }
        ensures cause { Counts self.old.calls.faults self.new.calls.faults result }

        // It fails exactly in a call of the list and where the room is filled, and else takes one.
        ensures exact { is_ok result ≡ (not (is_listed self.old.calls) &&
            nat_lt (length self.old.written) self.old.room) }
        ensures one { IfOk result (λ n. n ≡ 1) }
        ensures calls { self.new.calls ≡ counted self.old.calls (is_ok result) }
        ensures room { self.new.room ≡ self.old.room }
    {
        self.sink.write(&bytes[..1])
    }
}
