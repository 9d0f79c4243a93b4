//! A shelf in memory that tells how much was appended.

ghost use Rattle.std.specs.Prelude.{◌≡◌, ◌++◌, ◌&&◌, [], length, not, is_ok, IsOk, OnOk, OnErr, if◌then◌else◌};
ghost use Rattle.edge_traits.specs.Faults.{Counts};
ghost use Rattle.edge_traits.specs.Files.{with_file, with_more, with_patch, overwritten, Stands, HasRange, MayCreate, MayAppend, MayPatch};
ghost use Rattle.edge_traits.specs.Memory.{told, is_listed, counted, bytes_of, with_bytes, takes_name, takes_bytes};

use super::shelf::MemShelf;
use crate::{Failed, Shelf};
use std::marker::Model;
use std::sync::atomic::{AtomicU64, Ordering};

/// A shelf in memory that adds 1 to a word after each append that succeeded, so that other threads
/// see that writing has begun. All else is the shelf's.
#[derive(Drop)]
pub struct ToldShelf<'a> {
    shelf: MemShelf,
    word: &'a AtomicU64,
}

impl<'a> Model for ToldShelf<'a> {
    ghost use Rattle.edge_traits.specs.Memory.{MemStore};

    ghost Value = { MemStore };

    ghost view = { λ s. s.shelf };
}

impl<'a> ToldShelf<'a> {
    /// A shelf over this one, which tells by the word.
    pub fn new(shelf: MemShelf, word: &'a AtomicU64) -> ToldShelf<'a>
        ensures { result ≡ shelf }
    {
        ToldShelf { shelf, word }
    }

    /// The shelf that it stands on.
    pub fn shelf(&self) -> &MemShelf
        ensures { result.now ≡ self.now }
    {
        &self.shelf
    }

    /// Tells of an append that succeeded.
    fn tell(&self, done: Result<(), Failed>) -> Result<(), Failed>
        requires { IsOk done }
        ensures { result ≡ done }
    {
        self.word.fetch_add(1, Ordering::SeqCst);
        done
    }
}

impl<'a> Shelf for ToldShelf<'a> {
    ghost use Rattle.std.specs.Prelude.{◌≡◌, ⊤};
    ghost use Rattle.edge_traits.specs.Memory.{told};

    ghost held = { λ s. told s.store.files };

    ghost faults = { λ s. s.calls.faults };

    ghost finishes = { λ name old new. new.store ≡ old.store };

    ghost all_finished = { λ _. ⊤ };

    fn create(&mut self, name: &str) -> Result<(), Failed>
        ensures ok { OnOk result (told self.new.store.files ≡
            with_file (told self.old.store.files) name.now []) }
        ensures err { OnErr result (MayCreate (told self.old.store.files) name.now
            (told self.new.store.files)) }
        ensures cause { Counts self.old.calls.faults self.new.calls.faults result }

        // As the shelf that it stands on.
        ensures exact { is_ok result ≡ (not (is_listed self.old.calls) &&
            takes_name self.old.store name.now) }
        ensures store { self.new.store ≡
            (if is_ok result then with_bytes self.old.store name.now [] else self.old.store) }
        ensures calls { self.new.calls ≡ counted self.old.calls (is_ok result) }
    {
        self.shelf.create(name)
    }

    fn append(&mut self, name: &str, bytes: &[u8]) -> Result<(), Failed>
        requires { Stands (told self.old.store.files) name.now }
        ensures ok { OnOk result (told self.new.store.files ≡
            with_more (told self.old.store.files) name.now bytes.now) }
        ensures err { OnErr result (MayAppend (told self.old.store.files) name.now bytes.now
            (told self.new.store.files)) }
        ensures cause { Counts self.old.calls.faults self.new.calls.faults result }

        // As the shelf that it stands on.
        ensures exact { is_ok result ≡ (not (is_listed self.old.calls) &&
            takes_bytes self.old.store (length bytes.now)) }
        ensures store { self.new.store ≡
            (if is_ok result then with_bytes self.old.store name.now
            (bytes_of self.old.store name.now ++ bytes.now) else self.old.store) }
        ensures calls { self.new.calls ≡ counted self.old.calls (is_ok result) }
    {
        match self.shelf.append(name, bytes) {
            Ok(()) => self.tell(Ok(())),
            Err(failed) => Err(failed),
        }
    }

    fn patch(&mut self, name: &str, off: u64, bytes: &[u8]) -> Result<(), Failed>
        requires { HasRange (told self.old.store.files) name.now off (length bytes.now) }
        ensures ok { OnOk result (told self.new.store.files ≡
            with_patch (told self.old.store.files) name.now off bytes.now) }
        ensures err { OnErr result (MayPatch (told self.old.store.files) name.now off bytes.now
            (told self.new.store.files)) }
        ensures cause { Counts self.old.calls.faults self.new.calls.faults result }

        // As the shelf that it stands on.
        ensures exact { is_ok result ≡ not (is_listed self.old.calls) }
        ensures store { self.new.store ≡
            (if is_ok result then with_bytes self.old.store name.now (overwritten
            (bytes_of self.old.store name.now) off bytes.now) else self.old.store) }
        ensures calls { self.new.calls ≡ counted self.old.calls (is_ok result) }
    {
        self.shelf.patch(name, off, bytes)
    }

    fn finish(&mut self, name: &str) -> Result<(), Failed>
        requires { Stands (told self.old.store.files) name.now }
        ensures files { told self.new.store.files ≡ told self.old.store.files }
        ensures finishes { OnOk result (self.new.store ≡ self.old.store) }
        ensures cause { Counts self.old.calls.faults self.new.calls.faults result }

        // As the shelf that it stands on.
        ensures exact { is_ok result ≡ not (is_listed self.old.calls) }
        ensures store { self.new.store ≡ self.old.store }
        ensures calls { self.new.calls ≡ counted self.old.calls (is_ok result) }
    {
        self.shelf.finish(name)
    }
    // As the shelf that it stands on.
    fn finish_all(&mut self) -> Result<(), Failed>
        ensures files { told self.new.store.files ≡ told self.old.store.files }
        ensures cause { Counts self.old.calls.faults self.new.calls.faults result }
        ensures store { self.new.store ≡ self.old.store }
        ensures calls { self.new.calls ≡ self.old.calls }
        ensures done { IsOk result }
    {
        self.shelf.finish_all()
    }
}
