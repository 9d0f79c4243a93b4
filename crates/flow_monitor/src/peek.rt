//! A reader of the notes.

ghost use Rattle.std.specs.Prelude.{◌≡◌};
ghost use mathlib.Core.List.{IsPrefix};
ghost use Rattle.left_right.specs.Sides.{view as known};
ghost use Rattle.flow_monitor.specs.LastNotes.{last_note};
ghost use Rattle.flow_monitor.specs.Registers.{name_of};
ghost use Rattle.flow_monitor.specs.Monitors.{peek_state};

use crate::latest::Latest;
use crate::register::{LatestReader, load};
use core::mem::replace_with;
use flow_journal::Progress;
use std::marker::Model;

/// A reader, for a thread of its own. It means its monitor and the notes that it has seen, a front of those that were published.
#[derive(Drop)]
pub struct Peek {
    reader: LatestReader,
    latest: Latest,
}

impl Model for Peek {
    ghost use Rattle.std.specs.Prelude.{◌≡◌};
    ghost use Rattle.left_right.specs.Sides.{view as known};
    ghost use Rattle.flow_monitor.specs.Monitors.{PeekState, peek_state};
    ghost use Rattle.flow_monitor.specs.Registers.{name_of};

    ghost Value = { PeekState };

    ghost view = { λ p. peek_state (name_of p.latest.seen.book) p.latest.seen.log };

    ghost invariant = { λ p. known p.reader.place ≡ name_of p.latest.seen.book };
}

impl Peek {
    /// A reader that has seen these notes.
    pub(crate) fn new(reader: LatestReader, latest: &Latest) -> Peek
        requires { known reader.place ≡ name_of latest.now.seen.book }
        ensures { result ≡ peek_state (name_of latest.now.seen.book) latest.now.seen.log }
    {
        Peek {
            reader,
            latest: latest.copy(),
        }
    }

    /// The last note that this reader has seen then, or no progress where it has seen none. It has seen no fewer than before, of itself
    /// and by `Publisher::tell`. It waits for nobody and takes no memory.
    pub fn read(&mut self) -> Progress
        ensures monitor { self.new.monitor ≡ self.old.monitor }
        ensures later { IsPrefix self.old.seen self.new.seen }
        ensures last { result ≡ last_note self.new.seen }
    {
        let found = replace_with(&mut self.reader, (), |reader, _| load(reader));
        if let Some(latest) = found {
            self.latest = self.latest.newer(&latest);
        }
        self.latest.note
    }

    /// The last note that it has seen.
    pub(crate) fn latest(&self) -> &Latest
        ensures { (name_of result.now.seen.book ≡ self.now.monitor) × (result.now.seen.log ≡ self.now.seen) }
    {
        &self.latest
    }

    /// Shows it these notes.
    pub(crate) fn see(&mut self, latest: &Latest)
        requires { name_of latest.now.seen.book ≡ self.old.monitor }
        ensures monitor { self.new.monitor ≡ self.old.monitor }
        ensures later { IsPrefix self.old.seen self.new.seen }
        ensures told { IsPrefix latest.now.seen.log self.new.seen }
    {
        self.latest = self.latest.newer(latest);
    }
}
