//! What is left to save once all roles have ended.

ghost use Rattle.std.specs.Prelude.{◌≡◌, ◌≢◌, ℕ, ◌<◌, List, [], ◌∷◌, Option, Some, true, length, map, slice_get, OnOk};
ghost use Rattle.nd_base.specs.GraphRules.{IsGraph};
ghost use Rattle.edge_traits.specs.Files.{Files};
ghost use Rattle.nd_stack.specs.KeptStacks.{IsKeptStack};
ghost use Rattle.flow_journal.specs.declared.entry.Entry.TheVariants as entry;
ghost use Rattle.flow_journal.specs.Setting.{last_role};
ghost use Rattle.flow_journal.specs.Hands.{hand};
ghost use Rattle.flow_journal.specs.Histories.{is_history};
ghost use Rattle.flow_journal.specs.Finished.{is_finished};
ghost use Rattle.flow_journal.specs.Unsaved.{unsaved};
ghost use Rattle.board_rules.specs.States.{past, plain};
ghost use Rattle.board_rules.specs.RunMeasures.{run_setting};
ghost use Rattle.flow_drain.specs.Drains.{IsDrained};
ghost use Rattle.graph_files.specs.NodeFiles.{NodeFile};
ghost use Rattle.graph_files.specs.OpenFiles.{closed};
ghost use Rattle.flow_saver.specs.Saver.{CountsStep, back_of};
ghost use Rattle.flow_saver.specs.HandingLaws.{HandingLaws};
ghost use Rattle.flow_saver.specs.KeptNames.{IsGroupName, AreKeptBut};
ghost use Rattle.flow_saver.specs.Remaining.{RestMoves, IsSavingAlone, HasUnsavedAlone, IsToGiveBackAlone, StepLeavesAlone, StepRests};

use crate::DuePiece;
use crate::piece::write_due;
use crate::saving::Step;
use board_rules::{BoardCalls, Save};
use edge_traits::Shelf;
use frame_store::Frame;
use graph_files::OpenFiles;
use nd_base::{Held, OutOfMemory, Run, Stack};
use std::alloc::Global;

/// Gives a piece back.
fn return_piece<R: Run, B: BoardCalls<Frame<R>>>(
    board: &mut B,
    role: u32,
    files: &OpenFiles,
    fault: bool,
    piece: Frame<R>,
)
    requires role { role ≡ last_role (run_setting R.graph R.stack) }
    requires held { (prefix : List ℕ) × ((before : Option Files) × ((held : Option Files)
        × IsToGiveBackAlone R.graph R.stack prefix before (B.shown board.old) files.now fault held piece)) }
    ensures given { (prefix : List ℕ) (before : Option Files) (held : Option Files)
        → IsToGiveBackAlone R.graph R.stack prefix before (B.shown board.old) files.now fault held piece
        → IsSavingAlone R.graph R.stack prefix before (B.shown board.new) files.now fault held }
    ensures logged { (v m k g : ℕ) → hand role (past (B.shown board.old)) ≡ Some (entry.Save role v m k g)
        → B.shown board.new ≡ plain (back_of role v piece.name) ∷ B.shown board.old }
{
    let Ok(()) = board.saved(role, piece) else {
        unreachable!()
    };
}

/// Saves the next piece of file node `at`, if there is one, and gives it back. After a fault of the shelf it is given back unwritten.
fn save_next<R: Run, B: BoardCalls<Frame<R>>, K: Shelf>(
    alloc: Global,
    board: &mut B,
    role: u32,
    shelf: &mut K,
    stack: &Stack,
    files: &mut OpenFiles,
    fault: &mut bool,
    at: usize,
) -> Step<Frame<R>>
    requires role { role ≡ last_role (run_setting R.graph R.stack) }
    requires graph { IsGraph R.graph }
    requires stack { stack.now ≡ R.stack }
    requires kept { IsKeptStack R.stack }
    requires at { at < length files.old }
    requires drained { IsDrained (run_setting R.graph R.stack) (past (B.shown board.old)) }
    requires saving { (prefix : List ℕ) × ((before : Option Files)
        × IsSavingAlone R.graph R.stack prefix before (B.shown board.old) files.old fault.old (K.held shelf.old)) }
    ensures leaves { (prefix : List ℕ) (before : Option Files)
        → IsSavingAlone R.graph R.stack prefix before (B.shown board.old) files.old fault.old (K.held shelf.old)
        → StepLeavesAlone R.graph R.stack prefix before result (B.shown board.new) files.new fault.new (K.held shelf.new) }
    ensures rests { (x : NodeFile) → slice_get files.old at ≡ Some x
        → StepRests (run_setting R.graph R.stack) x.node result (B.shown board.old) (B.shown board.new) }
    ensures moves { RestMoves (run_setting R.graph R.stack) (B.shown board.old) (B.shown board.new) }
    ensures legal { is_history (run_setting R.graph R.stack) (past (B.shown board.new)) ≡ true }
    ensures nodes { map closed files.new ≡ map closed files.old }
    ensures cause { CountsStep fault.old fault.new (K.faults shelf.old) (K.faults shelf.new) (K.held shelf.old) (K.held shelf.new) }
{
    let node = files.node(at);
    match board.save(role, node) {
        Save::Busy => unreachable!(),
        Save::OutOfMemory => unreachable!(),
        Save::NotYet => Step::Nothing,
        Save::Piece {
            input,
            group,
            place,
            of,
        } => {
            let due = DuePiece {
                piece: input,
                at,
                group,
                place,
                of,
            };
            let Ok(()) = write_due(alloc, shelf, stack, files, fault, &due) else {
                return Step::Wants(due);
            };
            return_piece::<R, B>(board, role, files, *fault, due.piece);
            Step::Wrote
        }
    }
}

/// Saves all that is left at file node `at`, piece by piece.
fn save_all<R: Run, B: BoardCalls<Frame<R>>, K: Shelf>(
    alloc: Global,
    board: &mut B,
    role: u32,
    shelf: &mut K,
    stack: &Stack,
    files: &mut OpenFiles,
    fault: &mut bool,
    at: usize,
) -> Result<(), OutOfMemory>
    requires role { role ≡ last_role (run_setting R.graph R.stack) }
    requires graph { IsGraph R.graph }
    requires stack { stack.now ≡ R.stack }
    requires kept { IsKeptStack R.stack }
    requires at { at < length files.old }
    requires drained { IsDrained (run_setting R.graph R.stack) (past (B.shown board.old)) }
    requires saving { (prefix : List ℕ) × ((before : Option Files)
        × IsSavingAlone R.graph R.stack prefix before (B.shown board.old) files.old fault.old (K.held shelf.old)) }
    ensures saving { OnOk result ((prefix : List ℕ) (before : Option Files)
        → IsSavingAlone R.graph R.stack prefix before (B.shown board.old) files.old fault.old (K.held shelf.old)
        → IsSavingAlone R.graph R.stack prefix before (B.shown board.new) files.new fault.new (K.held shelf.new)) }
    ensures drained { OnOk result (IsDrained (run_setting R.graph R.stack) (past (B.shown board.new))) }
    ensures empty { OnOk result ((x : NodeFile) → slice_get files.old at ≡ Some x
        → unsaved (run_setting R.graph R.stack) x.node (past (B.shown board.new)) ≡ []) }
    ensures others { OnOk result ((x : NodeFile) → slice_get files.old at ≡ Some x → (w : ℕ) → w ≢ x.node
        → unsaved (run_setting R.graph R.stack) w (past (B.shown board.new)) ≡ unsaved (run_setting R.graph R.stack) w (past (B.shown board.old))) }
    ensures elsewhere { (prefix : List ℕ) (before : Option Files)
        → IsSavingAlone R.graph R.stack prefix before (B.shown board.old) files.old fault.old (K.held shelf.old)
        → AreKeptBut (IsGroupName R.graph prefix) before (K.held shelf.new) }
    ensures moves { RestMoves (run_setting R.graph R.stack) (B.shown board.old) (B.shown board.new) }
    ensures legal { is_history (run_setting R.graph R.stack) (past (B.shown board.new)) ≡ true }
    ensures nodes { map closed files.new ≡ map closed files.old }
    ensures cause { CountsStep fault.old fault.new (K.faults shelf.old) (K.faults shelf.new) (K.held shelf.old) (K.held shelf.new) }
{
    'pieces: loop {
        match save_next(alloc, board, role, shelf, stack, files, fault, at) {
            Step::Nothing => return Ok(()),
            Step::Wrote => {}
            Step::Wants(_) => return Err(OutOfMemory),
        }
    }
}

/// Saves what is left of a run once all roles have ended and the drain is done, as the last role: at each file node, piece by piece,
/// what was put and isn't saved. The run is then finished. A fault of the shelf is noted, and after one pieces are given back
/// unwritten.
///
/// # Errors
///
/// `OutOfMemory` where memory was wanting for a piece, which the last role keeps.
pub fn save_rest<R: Run, B: BoardCalls<Frame<R>>, K: Shelf>(
    alloc: Global,
    board: &mut B,
    role: u32,
    shelf: &mut K,
    stack: &Stack,
    files: &mut OpenFiles,
    fault: &mut bool,
) -> Result<(), OutOfMemory>
    requires role { role ≡ last_role (run_setting R.graph R.stack) }
    requires graph { IsGraph R.graph }
    requires stack { stack.now ≡ R.stack }
    requires kept { IsKeptStack R.stack }
    requires drained { IsDrained (run_setting R.graph R.stack) (past (B.shown board.old)) }
    requires saving { (prefix : List ℕ) × ((before : Option Files)
        × IsSavingAlone R.graph R.stack prefix before (B.shown board.old) files.old fault.old (K.held shelf.old)) }
    ensures finished { OnOk result (is_finished (run_setting R.graph R.stack) (past (B.shown board.new)) ≡ true) }
    ensures saving { OnOk result ((prefix : List ℕ) (before : Option Files)
        → IsSavingAlone R.graph R.stack prefix before (B.shown board.old) files.old fault.old (K.held shelf.old)
        → IsSavingAlone R.graph R.stack prefix before (B.shown board.new) files.new fault.new (K.held shelf.new)) }
    ensures elsewhere { (prefix : List ℕ) (before : Option Files)
        → IsSavingAlone R.graph R.stack prefix before (B.shown board.old) files.old fault.old (K.held shelf.old)
        → AreKeptBut (IsGroupName R.graph prefix) before (K.held shelf.new) }
    ensures moves { RestMoves (run_setting R.graph R.stack) (B.shown board.old) (B.shown board.new) }
    ensures legal { is_history (run_setting R.graph R.stack) (past (B.shown board.new)) ≡ true }
    ensures cause { CountsStep fault.old fault.new (K.faults shelf.old) (K.faults shelf.new) (K.held shelf.old) (K.held shelf.new) }
{
    for at in 0..files.count() {
        save_all(alloc, board, role, shelf, stack, files, fault, at)?;
    }
    Ok(())
}

/// Writes the piece that the role that saves left in hand for want of memory, and gives it back, as the last role. This comes
/// before the drain, which asks that the last role has nothing in hand.
///
/// # Errors
///
/// `OutOfMemory` where memory is wanting again. The last role then keeps the piece.
pub fn save_left<R: Run, B: BoardCalls<Frame<R>>, K: Shelf>(
    alloc: Global,
    board: &mut B,
    role: u32,
    shelf: &mut K,
    stack: &Stack,
    files: &mut OpenFiles,
    fault: &mut bool,
    due: DuePiece<Frame<R>>,
) -> Result<(), OutOfMemory>
    requires role { role ≡ last_role (run_setting R.graph R.stack) }
    requires graph { IsGraph R.graph }
    requires stack { stack.now ≡ R.stack }
    requires kept { IsKeptStack R.stack }
    requires unsaved { (prefix : List ℕ) × ((before : Option Files)
        × HasUnsavedAlone R.graph R.stack prefix before (B.shown board.old) files.old fault.old (K.held shelf.old) due) }
    ensures saving { OnOk result ((prefix : List ℕ) (before : Option Files)
        → HasUnsavedAlone R.graph R.stack prefix before (B.shown board.old) files.old fault.old (K.held shelf.old) due
        → IsSavingAlone R.graph R.stack prefix before (B.shown board.new) files.new fault.new (K.held shelf.new)) }
    ensures elsewhere { (prefix : List ℕ) (before : Option Files)
        → HasUnsavedAlone R.graph R.stack prefix before (B.shown board.old) files.old fault.old (K.held shelf.old) due
        → AreKeptBut (IsGroupName R.graph prefix) before (K.held shelf.new) }
    ensures moves { RestMoves (run_setting R.graph R.stack) (B.shown board.old) (B.shown board.new) }
    ensures legal { is_history (run_setting R.graph R.stack) (past (B.shown board.new)) ≡ true }
    ensures cause { CountsStep fault.old fault.new (K.faults shelf.old) (K.faults shelf.new) (K.held shelf.old) (K.held shelf.new) }
{
    write_due(alloc, shelf, stack, files, fault, &due)?;
    return_piece::<R, B>(board, role, files, *fault, due.piece);
    Ok(())
}

/// The files go on from the role that saves to the last role on a board that it has alone, and through the drain.
pub fn files_go_on<F: Held>()
    ensures { HandingLaws F F.Blank F.Of }
{}
