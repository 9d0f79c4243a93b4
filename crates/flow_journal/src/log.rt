//! The log.

ghost use Rattle.std.specs.Prelude.{◌≡◌, ◌<◌, ◌^◌, ◌∷◌, [], length, reverse, vec_len, IfOk};

use crate::Entry;
use nd_base::OutOfMemory;
use std::alloc::Global;
use std::marker::Model;

/// The entries so far, and room for a number of them that is fixed from the start.
#[derive(Drop)]
pub struct Log {
    entries: Vec<Entry>,
    room: u32,
}

impl Model for Log {
    ghost use Rattle.std.specs.Prelude.{◌≤◌, reverse, vec_len, vec_capacity};
    ghost use Rattle.flow_journal.specs.Journal.{Journal};

    ghost Value = { Journal };

    ghost view = { λ log. record { past = reverse log.entries.items; room = log.room } };

    ghost invariant = { λ log. (vec_len log.entries ≤ log.room) × (log.room ≤ vec_capacity log.entries) };
}

impl Log {
    /// An empty log, which takes the memory of `room` entries.
    pub fn new(alloc: Global, room: u32) -> Result<Log, OutOfMemory>
        ensures { IfOk result (λ log. log ≡ record { past = []; room = room }) }
    {
        let entries = Vec::with_capacity(alloc, room as usize)?;
        Ok(Log { entries, room })
    }

    /// The log of these entries, with no room for more.
    pub(crate) fn from_entries(entries: Vec<Entry>) -> Log
        requires { vec_len entries < 2 ^ 32 }
        ensures { result ≡ record { past = reverse entries.items; room = vec_len entries } }
    {
        let room = entries.len() as u32;
        Log { entries, room }
    }

    /// Adds an entry. This takes no memory.
    pub fn push(&mut self, entry: Entry)
        requires { length self.old.past < self.old.room }
        ensures { self.new ≡ record self.old { past = entry ∷ self.old.past } }
    {
        self.entries.push_reserved(entry);
    }

    /// How many entries there are.
    pub fn len(&self) -> u32
        ensures { result ≡ length self.now.past }
    {
        prove!(self.entries.len() <= self.room as usize);
        self.entries.len() as u32
    }

    /// The entries in their order, the oldest first.
    pub fn entries(&self) -> &[Entry]
        ensures { result.now ≡ reverse self.now.past }
    {
        &self.entries
    }
}
