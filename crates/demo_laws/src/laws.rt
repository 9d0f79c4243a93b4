//! What holds of every run that has room for all its frames. Each function is a law: it does nothing, and its contract says what holds.

ghost use Rattle.demo_laws.specs.AmpleLaws.{AmpleRunsAreSmooth};
ghost use Rattle.demo_laws.specs.DemoLaws.{DemosAreGraphs, DemosAreWhole};
ghost use Rattle.demo_laws.specs.Reports.{AmpleReportsAreWhole};

/// Where each queue and sort list has a place for every frame, the pool has no limit and no sort time passes within the log's ticks,
/// nothing is dropped, and nothing comes out of order, whatever the threads do.
pub fn ample_runs_are_smooth()
    ensures { AmpleRunsAreSmooth }
{}

/// And the report says so: it is the same for each such run, but for the count of storage that was made anew.
pub fn ample_reports_are_whole()
    ensures { AmpleReportsAreWhole }
{}

/// The demo run is such a run.
pub fn demos_are_whole()
    ensures graph { DemosAreGraphs }
    ensures whole { DemosAreWhole }
{}
