//! A shelf in memory.

ghost use Rattle.std.specs.Prelude.{◌≡◌, ◌++◌, ◌&&◌, [], length, not, is_ok, IsOk, IsTrue, ◌↔◌, IfOk, OnOk, OnErr, Some, if◌then◌else◌};
ghost use Rattle.std.specs.Option.{option_copied};
ghost use Rattle.edge_traits.specs.Faults.{Counts};
ghost use Rattle.edge_traits.specs.Files.{file_at, with_file, with_more, with_patch, overwritten, Stands, HasRange, MayCreate, MayAppend, MayPatch};
ghost use Rattle.edge_traits.specs.Memory.{told, find_file, no_calls, is_listed, counted, bytes_of, with_bytes, takes_name, takes_bytes};

use super::arena::Arena;
use super::calls::CallCount;
use crate::{Failed, OutOfMemory, Shelf};
use std::alloc::Global;
use std::marker::Model;

/// A shelf in memory, whose calls fail beyond its room and where a list says so. A call that
/// fails changes no file.
#[derive(Drop)]
pub struct MemShelf {
    arena: Arena,
    calls: CallCount,
}

impl Model for MemShelf {
    ghost use Rattle.edge_traits.specs.Memory.{MemStore};

    ghost Value = { MemStore };

    ghost view = { λ s. record { store = s.arena; calls = s.calls } };
}

impl MemShelf {
    /// An empty shelf with room for so many bytes, those of names among them, and for so many
    /// names, whose calls with these numbers, from 0, fail.
    pub fn new(
        alloc: Global,
        room: u64,
        names: u32,
        fails: Vec<u64>,
    ) -> Result<MemShelf, OutOfMemory>
        ensures { IfOk result (λ s. s ≡ record {
          store = record {
            files = [];
            room = room;
            names
                = names;
          };
          calls = no_calls fails.items;
        }) }
    {
        Ok(MemShelf {
            arena: Arena::new(alloc, room, names)?,
            calls: CallCount::new(fails),
        })
    }

    /// The bytes of a name; None where it isn't there.
    pub fn bytes(&self, name: &str) -> Option<&[u8]>
        ensures found { option_copied result ≡ find_file self.now.store.files name.now }
        ensures held { option_copied result ≡ file_at (told self.now.store.files) name.now }
    {
        self.arena.bytes(name)
    }

    /// Whether the name was created.
    pub fn holds(&self, name: &str) -> bool
        ensures { IsTrue result ↔ Stands (told self.now.store.files) name.now }
    {
        self.bytes(name).is_some()
    }

    /// Whether the name was created and has so many bytes from `off` on.
    pub fn has_range(&self, name: &str, off: u64, count: usize) -> bool
        ensures { IsTrue result ↔ HasRange (told self.now.store.files) name.now off count }
    {
        match self.bytes(name) {
            Some(bytes) => off <= bytes.len() as u64 && count as u64 <= bytes.len() as u64 - off,
            None => false,
        }
    }

    /// How many names were created.
    pub fn names_count(&self) -> u32
        ensures { result ≡ length self.now.store.files }
    {
        self.arena.names_count()
    }

    /// How many calls were made.
    pub fn calls(&self) -> u64
        ensures { result ≡ self.now.calls.made }
    {
        self.calls.made()
    }

    /// How many calls failed.
    pub fn faults(&self) -> u64
        ensures { result ≡ self.now.calls.faults }
    {
        self.calls.faults()
    }
}

impl Shelf for MemShelf {
    ghost use Rattle.std.specs.Prelude.{◌≡◌, ⊤};
    ghost use Rattle.edge_traits.specs.Memory.{told};

    ghost held = { λ s. told s.store.files };

    ghost faults = { λ s. s.calls.faults };

    ghost finishes = { λ name old new. new.store ≡ old.store };

    ghost all_finished = { λ _. ⊤ };

    fn create(&mut self, name: &str) -> Result<(), Failed>
        ensures ok { OnOk result (told self.new.store.files ≡
            with_file (told self.old.store.files) name.now []) }
        ensures err { OnErr result (MayCreate (told self.old.store.files) name.now
            (told self.new.store.files)) }
        ensures cause { Counts self.old.calls.faults self.new.calls.faults result }

        // It fails exactly in a call of the list and where a new name goes beyond the room.
        ensures exact { is_ok result ≡ (not (is_listed self.old.calls) &&
            takes_name self.old.store name.now) }
        ensures store { self.new.store ≡
            (if is_ok result then with_bytes self.old.store name.now [] else self.old.store) }
        ensures calls { self.new.calls ≡ counted self.old.calls (is_ok result) }
    {
        let done = if self.calls.is_listed() {
            Err(Failed)
        } else {
            self.arena.create(name)
        };
        self.calls.count(done)
    }

    fn append(&mut self, name: &str, bytes: &[u8]) -> Result<(), Failed>
        requires { Stands (told self.old.store.files) name.now }
        ensures ok { OnOk result (told self.new.store.files ≡
            with_more (told self.old.store.files) name.now bytes.now) }
        ensures err { OnErr result (MayAppend (told self.old.store.files) name.now bytes.now
            (told self.new.store.files)) }
        ensures cause { Counts self.old.calls.faults self.new.calls.faults result }

        // It fails exactly in a call of the list and beyond the room, and then adds nothing.
        ensures exact { is_ok result ≡ (not (is_listed self.old.calls) &&
            takes_bytes self.old.store (length bytes.now)) }
        ensures store { self.new.store ≡
            (if is_ok result then with_bytes self.old.store name.now
            (bytes_of self.old.store name.now ++ bytes.now) else self.old.store) }
        ensures calls { self.new.calls ≡ counted self.old.calls (is_ok result) }
    {
        let done = if self.calls.is_listed() {
            Err(Failed)
        } else {
            self.arena.append(name, bytes)
        };
        self.calls.count(done)
    }

    fn patch(&mut self, name: &str, off: u64, bytes: &[u8]) -> Result<(), Failed>
        requires { HasRange (told self.old.store.files) name.now off (length bytes.now) }
        ensures ok { OnOk result (told self.new.store.files ≡
            with_patch (told self.old.store.files) name.now off bytes.now) }
        ensures err { OnErr result (MayPatch (told self.old.store.files) name.now off bytes.now
            (told self.new.store.files)) }
        ensures cause { Counts self.old.calls.faults self.new.calls.faults result }

        // It fails exactly in a call of the list, and then changes nothing.
        ensures exact { is_ok result ≡ not (is_listed self.old.calls) }
        ensures store { self.new.store ≡
            (if is_ok result then with_bytes self.old.store name.now (overwritten
            (bytes_of self.old.store name.now) off bytes.now) else self.old.store) }
        ensures calls { self.new.calls ≡ counted self.old.calls (is_ok result) }
    {
        let done = if self.calls.is_listed() {
            Err(Failed)
        } else {
            self.arena.patch(name, off, bytes);
            Ok(())
        };
        self.calls.count(done)
    }

    fn finish(&mut self, _name: &str) -> Result<(), Failed>
        ensures files { told self.new.store.files ≡ told self.old.store.files }
        ensures finishes { OnOk result (self.new.store ≡ self.old.store) }
        ensures cause { Counts self.old.calls.faults self.new.calls.faults result }

        // It fails exactly in a call of the list.
        ensures exact { is_ok result ≡ not (is_listed self.old.calls) }
        ensures store { self.new.store ≡ self.old.store }
        ensures calls { self.new.calls ≡ counted self.old.calls (is_ok result) }
    {
        let done = if self.calls.is_listed() {
            Err(Failed)
        } else {
            Ok(())
        };
        self.calls.count(done)
    }

    // Nothing is held back in memory, so there is nothing to do.
    fn finish_all(&mut self) -> Result<(), Failed>
        ensures files { told self.new.store.files ≡ told self.old.store.files }
        ensures cause { Counts self.old.calls.faults self.new.calls.faults result }
        ensures store { self.new.store ≡ self.old.store }
        ensures calls { self.new.calls ≡ self.old.calls }
        ensures done { IsOk result }
    {
        Ok(())
    }
}
