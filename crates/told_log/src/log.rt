//! The told log.

ghost use Rattle.std.specs.Prelude.{◌≡◌, ◌<◌, [], ◌∷◌, length, reverse, IfOk, IsTrue};
ghost use Rattle.board_rules.specs.States.{past, plain, lends, loses};
ghost use Rattle.told_log.specs.ToldLogs.{gives_part, is_plain, count_reclaims};

use crate::LostBlocks;
use flow_journal::{Entry, Log};
use nd_base::{Held, OutOfMemory};
use std::alloc::Global;
use std::marker::Model;
use std::snapshot::Snapshot;

/// A log, with the part that was handed out beside each entry that gives a hand over an array, and the blocks of which something stayed
/// away beside each `Reclaim`. A part that is told has no bytes here, and no code reads it.
#[derive(Drop)]
pub struct ToldLog<F: Held> {
    log: Log,
    lent: Vec<Snapshot<F>>,
    lost: Vec<LostBlocks>,
}

impl<F: Held> Model for ToldLog<F> {
    ghost use Rattle.std.specs.Prelude.{◌≤◌, length, map, reverse, vec_len, vec_capacity};
    ghost use Rattle.told_log.specs.ToldLogs.{ToldState, count_reclaims};
    ghost use Rattle.told_log.specs.Inside.{told_with};

    ghost Value = { ToldState };

    ghost view = { λ t. record {
      told = told_with t.log.past (map (λ s. F.parts s.value) (reverse t.lent.items)) (reverse t.lost.items);
      room = t.log.room;
      reclaims = vec_capacity t.lost;
    } };

    ghost invariant = { λ t. (vec_len t.lent ≤ length t.log.past) × (t.log.room ≤ vec_capacity t.lent) × (vec_len t.lost ≤ count_reclaims t.log.past) };
}

impl<F: Held> ToldLog<F> {
    /// An empty log with room for so many entries, of which so many may be a `Reclaim`. No later call takes memory.
    pub fn new(alloc: Global, room: u32, reclaims: u32) -> Result<ToldLog<F>, OutOfMemory>
        ensures { IfOk result (λ t. t ≡ record { told = []; room = room; reclaims = reclaims }) }
    {
        Ok(ToldLog {
            log: Log::new(alloc, room)?,
            lent: Vec::with_capacity(alloc, room as usize)?,
            lost: Vec::with_capacity(alloc, reclaims as usize)?,
        })
    }

    /// Adds an entry beside which nothing is told.
    #[tactic(auto, using(crate::proofs::Told::pushes))]
    pub fn push(&mut self, entry: Entry)
        requires plain { IsTrue (is_plain entry) }
        requires room { length self.old.told < self.old.room }
        ensures { self.new ≡ record self.old { told = plain entry ∷ self.old.told } }
    {
        self.log.push(entry);
    }

    /// Adds an entry that gives a hand over an array, of which this part is handed out.
    #[tactic(auto, using(crate::proofs::Told::pushes))]
    pub fn push_lent(&mut self, hand: Entry, part: &F)
        requires gives { IsTrue (gives_part hand) }
        requires room { length self.old.told < self.old.room }
        ensures { self.new ≡ record self.old { told = lends hand (F.parts part.now) ∷ self.old.told } }
    {
        self.log.push(hand);
        self.lent.push_reserved(Snapshot::of(part));
    }

    /// Adds the `Reclaim` of a role, with the blocks of its hand of which something stayed away.
    #[tactic(auto, using(crate::proofs::Told::pushes))]
    pub fn push_reclaim(&mut self, role: u32, lost: LostBlocks)
        requires room { length self.old.told < self.old.room }
        requires few { count_reclaims (past self.old.told) < self.old.reclaims }
        ensures { self.new ≡ record self.old { told = loses role lost ∷ self.old.told } }
    {
        self.log.push(Entry::Reclaim { role });
        self.lost.push_reserved(lost);
    }

    /// The entries in their order, the oldest first.
    #[tactic(auto, using(crate::proofs::Told::pushes))]
    pub fn entries(&self) -> &[Entry]
        ensures { result.now ≡ reverse (past self.now.told) }
    {
        self.log.entries()
    }

    /// How many entries there are.
    #[tactic(auto, using(crate::proofs::Told::lengths))]
    pub fn len(&self) -> usize
        ensures { result ≡ length self.now.told }
    {
        self.entries().len()
    }

    /// The log alone.
    #[tactic(auto, using(crate::proofs::Told::pushes))]
    pub fn into_log(self) -> Log
        ensures { result ≡ record { past = past self.told; room = self.room } }
    {
        let ToldLog {
            log,
            lent: _,
            lost: _,
        } = self;
        log
    }
}
