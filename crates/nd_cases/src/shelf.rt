//! The shelf of a command.

ghost use Rattle.std.specs.Prelude.{◌≡◌};

use anyhow::{Context, Result, ensure};
use edge_traits::{Failed, MemShelf, Shelf, ToldShelf};
use std::alloc::{AllocError, Global};

/// A shelf in memory that notes the names that it was asked to create, in their order.
#[derive(Drop)]
pub struct NotedShelf<'a> {
    alloc: Global,
    shelf: ToldShelf<'a>,
    names: Vec<String>,
}

impl<'a> NotedShelf<'a> {
    /// This shelf, with no name noted.
    pub fn new(alloc: Global, shelf: ToldShelf<'a>) -> NotedShelf<'a> {
        NotedShelf {
            alloc,
            shelf,
            names: Vec::new(alloc),
        }
    }

    /// The names that were noted. Where memory was wanting some are missing.
    pub fn names(&self) -> &[String] {
        &self.names
    }

    /// The shelf in memory.
    pub fn shelf(&self) -> &MemShelf {
        self.shelf.shelf()
    }

    /// Puts a file on the shelf, by a create and an append.
    pub fn hold(&mut self, name: &str, bytes: &[u8]) -> Result<()> {
        self.create(name).ok().context("the shelf has no room")?;
        ensure!(self.shelf.shelf().holds(name), "the shelf lost a file");
        self.append(name, bytes)
            .ok()
            .context("the shelf has no room")
    }

    /// Notes a name that isn't noted yet.
    fn note(&mut self, name: &str) -> Result<(), AllocError>
        ensures { self.new.shelf ≡ self.old.shelf }
    {
        if !self.names.iter().any(|noted| noted.as_str() == name) {
            self.names.push(String::from_str(self.alloc, name)?)?;
        }
        Ok(())
    }
}

impl<'a> Shelf for NotedShelf<'a> {
    ghost use Rattle.std.specs.Prelude.{◌≡◌, ⊤};
    ghost use Rattle.edge_traits.specs.Memory.{told};

    ghost held = { λ s. told s.shelf.store.files };

    ghost faults = { λ s. s.shelf.calls.faults };

    ghost finishes = { λ name old new. new.shelf.store ≡ old.shelf.store };

    ghost all_finished = { λ _. ⊤ };

    fn create(&mut self, name: &str) -> Result<(), Failed> {
        let _ = self.note(name);
        self.shelf.create(name)
    }

    fn append(&mut self, name: &str, bytes: &[u8]) -> Result<(), Failed> {
        self.shelf.append(name, bytes)
    }

    fn patch(&mut self, name: &str, off: u64, bytes: &[u8]) -> Result<(), Failed> {
        self.shelf.patch(name, off, bytes)
    }

    fn finish(&mut self, name: &str) -> Result<(), Failed> {
        self.shelf.finish(name)
    }

    // Nothing is held back in memory.
    fn finish_all(&mut self) -> Result<(), Failed> {
        Ok(())
    }
}
