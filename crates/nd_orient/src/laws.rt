//! What holds of orientations. Each function is a law: it does nothing, and its contract says what holds.

ghost use Rattle.nd_orient.specs.Laws.{OrientsOnce, OrientsBack};

/// To orient by one mode and then by another is to orient by the mode that `compose` gives, and to orient by a mode and
/// then by its inverse gives the array back.
pub fn orientations_compose()
    ensures once { OrientsOnce }
    ensures back { OrientsBack }
{}
