//! What holds of verdicts. The function is a law: it does nothing, and its contract says what holds.

ghost use Rattle.journal_check.specs.VerdictLaws.{FrontsAreLegalLogs, FirstBadEndsFronts, OneVerdict, SomeVerdict};

/// A log whose entries are all in their places goes on to a legal history, so that the first one that isn't is that up to which no legal
/// history begins so; and to each log there is one right answer.
pub fn verdicts_are_one()
    ensures fronts { FrontsAreLegalLogs }
    ensures bad { FirstBadEndsFronts }
    ensures one { OneVerdict }
    ensures some { SomeVerdict }
{}
