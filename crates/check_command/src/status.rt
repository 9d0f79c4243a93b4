//! What a check ends with.

ghost use Rattle.std.specs.Prelude.{◌≡◌, Some, IfOk, string_bytes};
ghost use Rattle.check_command.specs.StatusText.{check_number, fault_words, verdict_words, place_words, check_line};

use data_check::{CompareFault, Difference};
use flow_journal::LogFault;
use journal_check::CheckFault;
use nd_base::OutOfMemory;
use std::alloc::Global;
use std::fmt;
use tool_commands::{Status, status_text};

/// What a check ends with. The process ends with its number.
#[derive(Debug, Drop)]
pub enum CheckStatus {
    /// It ends as any command does. With `Done` the log is that of a finished run, and the files are those of the run.
    Common(Status),
    /// The log's file has more bytes than its limit.
    LongLog { bytes: u64 },
    /// The log's bytes are no text of a log.
    LogBytes(LogFault),
    /// The log isn't that of a finished run.
    LogRefused(CheckFault),
    /// A file isn't that of the run: the first one, in the graph's order and the groups' order.
    FileDiffers(Difference),
}

impl CheckStatus {
    /// What the process ends with.
    pub fn number(&self) -> u8
        ensures { result ≡ check_number self.now }
    {
        match self {
            CheckStatus::Common(status) => status.number(),
            CheckStatus::LongLog { .. } => 5,
            CheckStatus::LogBytes(_) => 11,
            CheckStatus::LogRefused(_) => 12,
            CheckStatus::FileDiffers(_) => 13,
        }
    }
}

impl From<Status> for CheckStatus {
    ghost use Rattle.std.specs.Prelude.{◌≡◌};
    ghost use Rattle.check_command.specs.declared.status.CheckStatus.TheVariants.{Common};

    ghost from_gives = { λ status made. made ≡ Common status };

    fn from(status: Status) -> Self {
        CheckStatus::Common(status)
    }
}

impl From<LogFault> for CheckStatus {
    ghost use Rattle.std.specs.Prelude.{◌≡◌};
    ghost use Rattle.check_command.specs.CheckStages.{log_fault_status};

    ghost from_gives = { λ fault status. status ≡ log_fault_status fault };

    fn from(fault: LogFault) -> Self {
        match fault {
            LogFault::OutOfMemory => CheckStatus::Common(Status::OutOfMemory),
            LogFault::Line { .. } => CheckStatus::LogBytes(fault),
        }
    }
}

impl From<CheckFault> for CheckStatus {
    ghost use Rattle.std.specs.Prelude.{◌≡◌};
    ghost use Rattle.check_command.specs.CheckStages.{check_fault_status};

    ghost from_gives = { λ fault status. status ≡ check_fault_status fault };

    fn from(fault: CheckFault) -> Self {
        match fault {
            CheckFault::OutOfMemory => CheckStatus::Common(Status::OutOfMemory),
            CheckFault::Entry { .. } | CheckFault::Unfinished => CheckStatus::LogRefused(fault),
        }
    }
}

impl From<CompareFault> for CheckStatus {
    ghost use Rattle.std.specs.Prelude.{◌≡◌};
    ghost use Rattle.check_command.specs.CheckStages.{compare_fault_status};

    ghost from_gives = { λ fault status. status ≡ compare_fault_status fault };

    fn from(fault: CompareFault) -> Self {
        match fault {
            CompareFault::Failed => CheckStatus::Common(Status::ReadFault),
            CompareFault::OutOfMemory => CheckStatus::Common(Status::OutOfMemory),
        }
    }
}

/// The name and the fields of a fault of a log's text.
#[derive(Clone, Copy)]
struct LogWords(LogFault);

impl fmt::Display for LogWords {
    ghost output = { λ w. Some (fault_words w.0) };

    fn fmt<W: fmt::Write>(&self, f: &mut fmt::Formatter<W>) -> fmt::Result {
        match self.0 {
            LogFault::Line { n } => write!(f, "Line {n}"),
            LogFault::OutOfMemory => f.write_str("OutOfMemory"),
        }
    }
}

/// The name and the fields of a fault of a log.
#[derive(Clone, Copy)]
struct VerdictWords(CheckFault);

impl fmt::Display for VerdictWords {
    ghost output = { λ w. Some (verdict_words w.0) };

    fn fmt<W: fmt::Write>(&self, f: &mut fmt::Formatter<W>) -> fmt::Result {
        match self.0 {
            CheckFault::Entry { n } => write!(f, "Entry {n}"),
            CheckFault::Unfinished => f.write_str("Unfinished"),
            CheckFault::OutOfMemory => f.write_str("OutOfMemory"),
        }
    }
}

/// Which file differs: its node and its group.
#[derive(Clone, Copy)]
struct PlaceWords(Difference);

impl fmt::Display for PlaceWords {
    ghost output = { λ w. Some (place_words w.0) };

    fn fmt<W: fmt::Write>(&self, f: &mut fmt::Formatter<W>) -> fmt::Result {
        let Difference { node, group } = self.0;
        write!(f, "{node} {group}")
    }
}

/// The text of a status in one line: `status`, its number, its name, and what it carries.
///
/// # Errors
///
/// Only for want of memory.
pub fn check_status_text(alloc: Global, status: &CheckStatus) -> Result<String, OutOfMemory>
    ensures { IfOk result (λ t. string_bytes t ≡ check_line status.now) }
{
    match status {
        CheckStatus::Common(status) => status_text(alloc, status),
        CheckStatus::LongLog { bytes } => {
            Ok(format!(in alloc; "status 5 Limit LogFile {bytes}")?)
        }
        CheckStatus::LogBytes(fault) => {
            let words = LogWords(*fault);
            Ok(format!(in alloc; "status 11 LogBytes {words}")?)
        }
        CheckStatus::LogRefused(fault) => {
            let words = VerdictWords(*fault);
            Ok(format!(in alloc; "status 12 LogRefused {words}")?)
        }
        CheckStatus::FileDiffers(difference) => {
            let words = PlaceWords(*difference);
            Ok(format!(in alloc; "status 13 FileDiffers {words}")?)
        }
    }
}
