//! Reading the log's file.

ghost use Rattle.std.specs.Prelude.{◌≡◌, IfOk, IfErr, OnOk};
ghost use Rattle.check_command.specs.CheckStages.{log_read_status, LogStops};
ghost use Rattle.check_command.specs.CheckAnswers.{IsLogRead, most_log_bytes};
ghost use Rattle.check_command.specs.CheckUnread.{IfCheckUnread};
ghost use Rattle.tool_commands.specs.Unread.{NoneFailed, FailedAt};

use crate::status::CheckStatus;
use edge_traits::Library;
use flow_journal::{Log, read_text};
use std::alloc::Global;
use tool_commands::{ReadRefusal, Status, read_file};

/// The most bytes of a log's file.
const LOG_LIMIT: u64 = 536_870_912;

/// The status of a log's file that wasn't read.
fn unread_log(refusal: ReadRefusal) -> CheckStatus
    ensures { result ≡ log_read_status refusal }
{
    match refusal {
        ReadRefusal::TooLong { bytes } => CheckStatus::LongLog { bytes },
        ReadRefusal::Failed => CheckStatus::Common(Status::ReadFault),
        ReadRefusal::OutOfMemory => CheckStatus::Common(Status::OutOfMemory),
    }
}

/// Reads a log.
pub(crate) fn load_log<L: Library>(
    alloc: Global,
    library: &mut L,
    name: &str,
) -> Result<Log, CheckStatus>
    ensures read { IfOk result (λ log. IsLogRead (L.holds library.old) name.now log.past) }
    ensures stays { OnOk result (L.faults library.new ≡ L.faults library.old) }
    ensures none_failed { OnOk result (NoneFailed (L.faults_at library.old) (L.faults_at library.new)) }
    ensures files { L.holds library.new ≡ L.holds library.old }
    ensures err { IfErr result (λ s. LogStops s (L.holds library.old) name.now (L.faults library.old) (L.faults library.new)) }
    ensures unread { IfErr result (λ s. IfCheckUnread s (FailedAt (L.holds library.old) most_log_bytes (L.faults_at library.old) (L.faults_at library.new)
        name.now)) }
{
    let bytes = match read_file(alloc, library, name, LOG_LIMIT) {
        Ok(bytes) => bytes,
        Err(refusal) => return Err(unread_log(refusal)),
    };
    Ok(read_text(alloc, &bytes)?)
}
