//! The entries of a board, as contracts see them.

use flow_journal::Entry;
use nd_base::Seq;
use std::marker::Model;

/// Which parts of which block were handed out. Contracts see it as `Parts`; no code makes one.
#[derive(Drop)]
pub struct LentParts {
    block: u64,
    size: u64,
    here: u64,
}

impl Model for LentParts {
    ghost use Rattle.nd_base.specs.Parts.{Parts};

    ghost Value = { Parts };

    ghost view = { λ p. record { block = p.block; size = p.size; here = p.here } };
}

/// An entry of the log, with what was handed over there. A board is a list of these, which only contracts see.
#[derive(Drop)]
pub struct Told {
    pub entry: Entry,
    /// Beside an entry that gives a hand over an array: the part that was handed out, where frames tell their parts.
    pub lent: Option<LentParts>,
    /// Beside a `Reclaim`: the blocks of the hand of which something stayed away.
    pub lost: Seq<u32>,
}
