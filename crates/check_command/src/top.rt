//! The call of a check.

ghost use Rattle.std.specs.Prelude.{◌≡◌, map, Some, string_bytes};
ghost use Rattle.check_command.specs.CheckAnswers.{check_status_of, CheckEnds, IsCheckCause};
ghost use Rattle.check_command.specs.CheckCommand.{check_command_of};
ghost use Rattle.check_command.specs.CheckUnread.{FailsInCheck, FailsInWords, IfCheckUnread};
ghost use Rattle.check_command.specs.CheckWords.{check_told};

use crate::reading::load_log;
use crate::status::CheckStatus;
use crate::words::{CheckWords, check_in};
use data_check::first_difference;
use edge_traits::{Library, Sink};
use journal_check::check_log;
use std::alloc::Global;
use tool_commands::{Status, load_sources, print};

/// Does what the words of a check ask for.
fn check<L: Library, T: Sink>(
    alloc: Global,
    words: CheckWords<'_>,
    library: &mut L,
    out: &mut T,
) -> Result<(), CheckStatus>
    ensures ends { CheckEnds (check_status_of result) (Some (check_told words.entry)) (L.holds library.old) (T.written out.old) (T.written out.new) }
    ensures cause { IsCheckCause (check_status_of result) (L.faults library.old) (L.faults library.new) (T.faults out.old) (T.faults out.new) }
    ensures unread { IfCheckUnread (check_status_of result)
        (FailsInCheck (L.holds library.old) (L.faults_at library.old) (L.faults_at library.new) (check_told words.entry)) }
    ensures library { L.holds library.new ≡ L.holds library.old }
{
    let (plan, stack) = load_sources(alloc, library, words.graph, words.stack)?;
    let log = load_log(alloc, library, words.log)?;
    check_log(alloc, &plan, &stack, &log)?;
    match first_difference(alloc, library, words.prefix, &plan, &stack, &log)? {
        Some(difference) => Err(CheckStatus::FileDiffers(difference)),
        None => Ok(print(out, "yes\n")?),
    }
}

/// Says whether a log is that of a finished run of a graph over a stack, and whether the files of the run are there as the run writes them: it
/// reads the graph, the stack, the log and then the files from the library, prints `yes` to the sink where all is as it should be, and answers
/// how it ended. It waits for nobody, writes no file, and always returns.
///
/// The command is `check GRAPH STACK LOG PREFIX`. The rows of a statistics node named `log` aren't looked at: the log's text has their name.
pub fn check_top<L: Library, T: Sink>(
    alloc: Global,
    words: &[String],
    library: &mut L,
    out: &mut T,
) -> CheckStatus
    // What each status says of the words, of the files that were read, and of what was printed.
    ensures ends { CheckEnds result (check_command_of (map string_bytes words.now)) (L.holds library.old) (T.written out.old) (T.written out.new) }

    // Faults come only where their object's count rose.
    ensures cause { IsCheckCause result (L.faults library.old) (L.faults library.new) (T.faults out.old) (T.faults out.new) }

    // A fault of the library comes only in the order in which the files are read, behind those that were read and lead to it.
    ensures unread { IfCheckUnread result (FailsInWords (L.holds library.old) (L.faults_at library.old) (L.faults_at library.new)
        (check_command_of (map string_bytes words.now))) }
    ensures library { L.holds library.new ≡ L.holds library.old }
{
    let Some(words) = check_in(words) else {
        return CheckStatus::Common(Status::Usage);
    };
    match check(alloc, words, library, out) {
        Ok(()) => CheckStatus::Common(Status::Done),
        Err(status) => status,
    }
}
