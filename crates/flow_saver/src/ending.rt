//! The end of a run's files.

ghost use Rattle.std.specs.Prelude.{◌≡◌, ℕ, List, Option, true, OnOk, OnErr, IfErr};
ghost use Rattle.nd_base.specs.GraphRules.{IsGraph};
ghost use Rattle.edge_traits.specs.Files.{Files};
ghost use Rattle.file_out.specs.declared.fault.SaveFault.TheVariants as faults;
ghost use Rattle.nd_stack.specs.KeptStacks.{IsKeptStack};
ghost use Rattle.flow_journal.specs.Finished.{is_finished};
ghost use Rattle.board_rules.specs.States.{past};
ghost use Rattle.board_rules.specs.RunMeasures.{run_setting};
ghost use Rattle.flow_saver.specs.Ending.{IsTornHistory, CountsEnd};
ghost use Rattle.flow_saver.specs.HistoryFiles.{HoldsGroupsOf, RowsComplete};
ghost use Rattle.flow_saver.specs.ReadBack.{GroupsReadBack};
ghost use Rattle.flow_saver.specs.Remaining.{IsSavingAlone};

use board_rules::BoardCalls;
use edge_traits::Shelf;
use file_out::SaveFault;
use frame_store::Frame;
use graph_files::OpenFiles;
use nd_base::Run;

/// Ends the files of a finished run: those of the last, short groups. The shelf then holds the groups' files of the history. After
/// a fault, before or here, nothing is written any more.
///
/// # Errors
///
/// `Failed` alone, where the shelf has failed, before or here.
pub fn end_files<R: Run, B: BoardCalls<Frame<R>>, K: Shelf>(
    board: &B,
    shelf: &mut K,
    files: OpenFiles,
    fault: bool,
) -> Result<(), SaveFault>
    requires graph { IsGraph R.graph }
    requires kept { IsKeptStack R.stack }
    requires finished { is_finished (run_setting R.graph R.stack) (past (B.shown board.now)) ≡ true }
    requires saving { (prefix : List ℕ) × ((before : Option Files)
        × IsSavingAlone R.graph R.stack prefix before (B.shown board.now) files fault (K.held shelf.old)) }
    ensures ok { OnOk result ((prefix : List ℕ) (before : Option Files)
        → IsSavingAlone R.graph R.stack prefix before (B.shown board.now) files fault (K.held shelf.old)
        → HoldsGroupsOf R.graph R.stack prefix (past (B.shown board.now)) before (K.held shelf.new)) }
    ensures err { OnErr result ((prefix : List ℕ) (before : Option Files)
        → IsSavingAlone R.graph R.stack prefix before (B.shown board.now) files fault (K.held shelf.old)
        → IsTornHistory R.graph R.stack prefix (past (B.shown board.now)) before (K.held shelf.new)) }
    ensures failed { IfErr result (λ fault. fault ≡ faults.Failed) }
    ensures cause { CountsEnd fault result (K.faults shelf.old) (K.faults shelf.new) (K.held shelf.old) (K.held shelf.new) }
{
    let _finished = board.finished();
    if fault {
        return Err(SaveFault::Failed);
    }
    files.end(shelf)
}

/// The groups' files and then the rows are the files of the history.
pub fn rows_complete_the_files()
    ensures { RowsComplete }
{}

/// Each group of a history reads back from its file as its arrays, where no limit refuses the run.
pub fn groups_read_back()
    ensures { GroupsReadBack }
{}
