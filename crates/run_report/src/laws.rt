//! Laws of reports, each as a function that does nothing.

ghost use Rattle.run_report.specs.Laws.{CountsAreOfRuns, OffersAreCounted, FramesAreCounted};

/// What a report counts of a node by its plan is what it counts by the run's graph and stack.
pub fn counts_are_of_runs()
    ensures { CountsAreOfRuns }
{}

/// What a report counts as offered is what came: to each node its arrays, and to the driver the frames that were not
/// taken back.
pub fn offers_are_counted()
    ensures nodes { OffersAreCounted }
    ensures driver { FramesAreCounted }
{}
