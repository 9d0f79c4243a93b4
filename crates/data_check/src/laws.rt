//! What holds of the files that are compared. Each function is a law: it does nothing, and its contract says what holds.

ghost use Rattle.data_check.specs.ComparedLaws.{ComparedAreOfHistory, HistoryIsCompared, NoneWhereSame, OneFirst};

/// The files that are compared are those of the history, but for one under the log's own name.
pub fn history_is_compared()
    ensures compared { ComparedAreOfHistory }
    ensures all { HistoryIsCompared }
{}

/// Over the files of a library at most one answer is right.
pub fn differences_are_one()
    ensures none { NoneWhereSame }
    ensures one { OneFirst }
{}
