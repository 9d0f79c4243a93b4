//! What holds of every legal log. The function is a law: it does nothing, and its contract says what holds.

ghost use Rattle.told_log.specs.ReclaimLaws.{ReclaimsHaveRoom};

/// A told log with room for as many `Reclaim`s as there are roles before the last has room for every one that may come.
pub fn reclaims_have_room()
    ensures { ReclaimsHaveRoom }
{}
