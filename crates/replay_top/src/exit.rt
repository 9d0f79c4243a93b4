//! How a run ends.

ghost use Rattle.std.specs.Prelude.{◌≡◌, None};

use flow_journal::Log;
use tool_commands::Status;

/// How a run ended.
#[derive(Drop)]
pub struct Exit {
    /// What the process ends with.
    pub status: Status,
    /// The log of the run, where it has finished: with Done, ShelfFault and OutFault, and with no other status.
    pub log: Option<Log>,
}

/// The end of a run that hasn't finished.
pub(crate) fn unfinished(status: Status) -> Exit
    ensures status { result.status ≡ status }
    ensures log { result.log ≡ None }
{
    Exit { status, log: None }
}
