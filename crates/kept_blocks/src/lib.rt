//! What a table of frames and storage has to be by the log of a run: a list of laws, and no code that runs.
//!
//! `HoldsBlocks` says what is kept of each block, by what became of its last grant. Each function is a law: it does nothing, and its contract
//! says what holds.
#![tactic(auto)]

ghost use Rattle.kept_blocks.specs.GrantLaws.{GrantLaws};
ghost use Rattle.kept_blocks.specs.LookLaws.{LookLaws};
ghost use Rattle.kept_blocks.specs.MoveLaws.{MoveLaws};

use nd_base::Held;

/// What stands in the table where arrays wait, are in hand and are made.
pub fn arrays_are_kept<F: Held>()
    ensures { LookLaws F.parts }
{}

/// What a grant finds there, and the moves that it makes.
pub fn grants_find_storage<F: Held>()
    ensures { GrantLaws F.parts }
{}

/// The moves of which frames come and go.
pub fn moves_keep_blocks<F: Held>()
    ensures { MoveLaws F.Of F.name_of F.parts F.bytes_of }
{}
