//! What holds of checks. The function is a law: it does nothing, and its contract says what holds.

ghost use Rattle.check_command.specs.CheckLaws.{OneAnswer};

/// Over the files of a library at most one answer is right, so that each is given exactly where it is right, save for faults and want of memory.
pub fn checks_are_exact()
    ensures { OneAnswer }
{}
