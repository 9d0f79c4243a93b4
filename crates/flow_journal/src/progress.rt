//! How far a run has come, and whoever is told of it.

ghost use Rattle.std.specs.Prelude.{◌≡◌, [], Some, IsOk, OnErr, OnOk};
ghost use Rattle.flow_journal.specs.Notes.{took, refused_one};

use nd_base::OutOfMemory;
use std::alloc::Global;
use std::marker::Model;

/// How far a run has come.
#[derive(Clone, Copy, Debug, PartialEq, Eq)]
pub struct Progress {
    /// The entries of the log.
    pub entries: u32,
    /// The arrays that came to nodes.
    pub offered: u64,
    /// Those that a node dropped.
    pub dropped: u64,
    /// The pieces that were saved.
    pub saved: u64,
    /// Some role has left.
    pub left: bool,
    /// The run is finished.
    pub done: bool,
}

/// Whoever is told how far a run has come, again and again.
pub trait Watch {
    ghost use Rattle.std.specs.Prelude.{ℕ, List};
    ghost use Rattle.flow_journal.specs.Notes.{Watched};

    /// The notes so far, the oldest first, where they are told, and the count of those that were refused.
    ghost watched: { Self → Watched };

    /// What it belongs to, which no note changes.
    ghost home: { Self → List ℕ };

    /// Takes one more note.
    ///
    /// # Errors
    ///
    /// `OutOfMemory` where there was no memory for it. The notes are then as before, and the count of those refused goes on.
    fn note(&mut self, alloc: Global, progress: &Progress) -> Result<(), OutOfMemory>
        ensures ok { OnOk result (watched self.new ≡ took progress.now (watched self.old)) }
        ensures err { OnErr result (watched self.new ≡ refused_one (watched self.old)) }
        ensures home { home self.new ≡ home self.old };
}

/// Nobody: each note is taken, and none is told.
#[derive(Clone, Copy, Debug, PartialEq, Eq)]
pub struct Quiet;

impl Watch for Quiet {
    ghost use Rattle.std.specs.Prelude.{[], None};

    ghost watched = { λ _. record { notes = None; refused = 0 } };

    ghost home = { λ _. [] };

    fn note(&mut self, _alloc: Global, _progress: &Progress) -> Result<(), OutOfMemory>
        ensures always { IsOk result }
    {
        Ok(())
    }
}

/// A watch that keeps its notes.
#[derive(Drop)]
pub struct KeptNotes {
    notes: Vec<Progress>,
    refused: u64,
}

impl Model for KeptNotes {
    ghost use Rattle.std.specs.Prelude.{Some};
    ghost use Rattle.flow_journal.specs.Notes.{Watched};

    ghost Value = { Watched };

    ghost view = { λ k. record { notes = Some k.notes.items; refused = k.refused } };
}

impl KeptNotes {
    /// No note yet. This takes no memory.
    pub fn new(alloc: Global) -> KeptNotes
        ensures { result ≡ record { notes = Some []; refused = 0 } }
    {
        KeptNotes {
            notes: Vec::new(alloc),
            refused: 0,
        }
    }

    /// The notes that it took, the oldest first.
    pub fn notes(&self) -> &[Progress]
        ensures { self.now.notes ≡ Some result.now }
    {
        &self.notes
    }

    /// How many it refused, modulo 2^64.
    pub fn refused(&self) -> u64
        ensures { result ≡ self.now.refused }
    {
        self.refused
    }
}

impl Watch for KeptNotes {
    ghost use Rattle.std.specs.Prelude.{[]};

    ghost watched = { λ k. k };

    ghost home = { λ _. [] };

    fn note(&mut self, _alloc: Global, progress: &Progress) -> Result<(), OutOfMemory> {
        match self.notes.push(*progress) {
            Ok(()) => Ok(()),
            Err(_) => {
                self.refused = self.refused.wrapping_add(1);
                Err(OutOfMemory)
            }
        }
    }
}
