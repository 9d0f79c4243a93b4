//! What the ledger of a pool has to do with the past of a run: a list of laws, and no code that runs.
//!
//! Where nothing is on its way, each block has a hold for each place that the history gives it. While an array goes from one place
//! to the next its block is carried, and the laws tell, entry by entry, what has to be carried before it and what is carried after it.
//! Each function is a law: it does nothing, and its contract says what holds.
#![tactic(auto)]

ghost use Rattle.pool_account.specs.EntryLaws.{ArrayLaws, GrantLaws, PutLaws};
ghost use Rattle.pool_account.specs.HoldLaws.{HoldLaws};
ghost use Rattle.pool_account.specs.TellLaws.{TellLaws};

/// What a ledger tells that accounts for a past.
pub fn ledgers_tell_the_past()
    ensures { TellLaws }
{}

/// Holds that are added and dropped while the past stays.
pub fn holds_are_carried()
    ensures { HoldLaws }
{}

/// A grant that is logged.
pub fn grants_go_by_the_past()
    ensures { GrantLaws }
{}

/// Arrays that go from place to place.
pub fn arrays_carry_blocks()
    ensures { ArrayLaws }
{}

/// Results that are put.
pub fn puts_carry_blocks()
    ensures { PutLaws }
{}
