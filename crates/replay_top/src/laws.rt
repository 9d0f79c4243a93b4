//! What holds of the runs. Each function is a law: it does nothing, and its contract says what holds.

ghost use Rattle.replay_top.specs.CheckedRuns.{ChecksAcceptRuns};
ghost use Rattle.replay_top.specs.FileNames.{CommandsHaveOwnNames, GroupsHaveOwnNames, RowsHaveOwnNames, GroupsAreNoTexts, OnlyLogsMeetTheLog};
ghost use Rattle.replay_top.specs.SmoothRuns.{SmoothFilesArePlain};
ghost use Rattle.replay_top.specs.RunLaws.{RunsAreRefusedAsPlain, RunsAskAsPlain};

use check_command::checks_are_exact;
use data_check::history_is_compared;
use run_laws::smooth_runs_are_plain;

/// No two files of a `copy` or a `plain` have one name, and no two of a graph's groups and rows, be they of a plain run or of one with its threads. The
/// log's text has a name of its own but where a statistics node is named `log`.
pub fn files_have_own_names()
    ensures commands { CommandsHaveOwnNames }
    ensures groups { GroupsHaveOwnNames }
    ensures rows { RowsHaveOwnNames }
    ensures texts { GroupsAreNoTexts }
    ensures log { OnlyLogsMeetTheLog }
{}

/// The files of a run in which nothing was dropped and nothing came out of order are those of the plain run, where the ids are distinct and no
/// node deals its arrays out.
pub fn smooth_runs_are_plain_files()
    ensures { SmoothFilesArePlain }
{
    smooth_runs_are_plain();
}

/// A run is refused as the plain run of the same words is, and its files ask for the same status.
pub fn runs_are_refused_as_plain()
    ensures refusals { RunsAreRefusedAsPlain }
    ensures asked { RunsAskAsPlain }
{}

/// Where `run-log` did its work, a check of its log and its files over the same graph and stack answers `Done`, unless the library or the sink fails, or
/// memory is wanting.
pub fn checks_accept_runs()
    ensures { ChecksAcceptRuns }
{
    checks_are_exact();
    history_is_compared();
}
