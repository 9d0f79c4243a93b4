//! One piece, written into its file.

ghost use Rattle.std.specs.Prelude.{◌≡◌, ◌+◌, ◌<◌, ◌^◌, ℕ, List, None, Some, Option, length, slice_get, IfErr, OnOk, OnErr};
ghost use Rattle.nd_base.specs.Array.{Array};
ghost use Rattle.nd_base.specs.GraphRules.{IsGraph};
ghost use Rattle.edge_traits.specs.Files.{Files};
ghost use Rattle.nd_stack.specs.KeptStacks.{IsKeptStack};
ghost use Rattle.file_out.specs.Saving.{IsSaveCause};
ghost use Rattle.graph_files.specs.NodeFiles.{NodeFile, first_count, IsPlaceAfter};
ghost use Rattle.graph_files.specs.OpenFiles.{IsReopened, AllWritten, AllStops, with_array};
ghost use Rattle.flow_roles.specs.Passes.{Pass};
ghost use Rattle.flow_saver.specs.Pieces.{IsDuePiece, content_of};
ghost use Rattle.flow_saver.specs.Saver.{Start, HasUnsaved, IsToGiveBack, CountsStep};

use edge_traits::Shelf;
use file_out::SaveFault;
use frame_store::Frame;
use graph_files::OpenFiles;
use nd_base::{Named, OutOfMemory, Run, Stack};
use std::alloc::Global;

/// A piece that is due, and where it goes: the array at this place of this group of file node `at` of the files. The group has
/// `of` arrays where that is known.
#[derive(Drop)]
pub struct DuePiece<F> {
    pub piece: F,
    pub at: usize,
    pub group: u32,
    pub place: u32,
    pub of: Option<u32>,
}

/// The index of a frame, which is below the number of frames.
fn index_of<R: Run>(piece: &Frame<R>) -> u32
    ensures index { result ≡ piece.now.name.index }
    ensures there { result < length R.stack.arrays }
{
    let _content = piece.samples();
    piece.name().index
}

/// Writes a piece into the file of its group: the array of file node `at` that comes next, at this place of this group, which has
/// `of` arrays where that is known.
///
/// # Errors
///
/// After want of memory the piece isn't written, and may be written again. `Failed` where the shelf failed: its count of faults
/// rose.
pub fn write_piece<R: Run, K: Shelf>(
    alloc: Global,
    files: &mut OpenFiles,
    shelf: &mut K,
    stack: &Stack,
    at: usize,
    piece: &Frame<R>,
    group: u32,
    place: u32,
    of: Option<u32>,
) -> Result<(), SaveFault>
    requires graph { IsGraph R.graph }
    requires stack { stack.now ≡ R.stack }
    requires kept { IsKeptStack R.stack }
    requires at { at < length files.old }
    requires due { (x : NodeFile) → slice_get files.old at ≡ Some x → IsDuePiece R.graph R.stack x piece.now.name group place of (K.held shelf.old) }
    ensures nodes { IsReopened files.old at of files.new }
    ensures ok { OnOk result ((before : Option Files) (written : ℕ → List Array) (x : NodeFile) (a : Array) → slice_get files.old at ≡ Some x
        → content_of R.graph R.stack piece.now.name ≡ Some a
        → length (written x.node) + 1 < 2 ^ 64 → IsPlaceAfter x.count (written x.node) group place → AllWritten before files.old written (K.held shelf.old)
        → AllWritten before files.new (with_array written x.node a) (K.held shelf.new)) }
    ensures ended { OnOk result ((x : NodeFile) → slice_get files.old at ≡ Some x → place + 1 ≡ x.count → (y : NodeFile) → slice_get files.new at ≡ Some y
        → y.current ≡ None) }
    ensures err { IfErr result (λ fault. (before : Option Files) (written : ℕ → List Array) (x : NodeFile) (a : Array) → slice_get files.old at ≡ Some x
        → content_of R.graph R.stack piece.now.name ≡ Some a
        → IsPlaceAfter x.count (written x.node) group place → AllWritten before files.old written (K.held shelf.old)
        → AllStops fault before x files.new written group (first_count x.late of) a (K.held shelf.old) (K.held shelf.new)) }
    ensures cause { IsSaveCause result (K.faults shelf.old) (K.faults shelf.new) }
{
    let head = stack.head(index_of(piece));
    files.write(alloc, shelf, at, group, place, of, head, piece.samples())
}

/// Writes a piece that is in hand, so that it can be given back. A fault of the shelf is noted, and after one nothing is written any
/// more.
///
/// # Errors
///
/// After want of memory the piece isn't written, and may be written again.
pub(crate) fn write_due<R: Run, K: Shelf>(
    alloc: Global,
    shelf: &mut K,
    stack: &Stack,
    files: &mut OpenFiles,
    fault: &mut bool,
    due: &DuePiece<Frame<R>>,
) -> Result<(), OutOfMemory>
    requires graph { IsGraph R.graph }
    requires stack { stack.now ≡ R.stack }
    requires kept { IsKeptStack R.stack }
    requires unsaved { (start : Start) × ((role : ℕ) × ((pass : Pass)
        × HasUnsaved R.graph R.stack start role pass files.old fault.old (K.held shelf.old) due.now)) }
    ensures ok { OnOk result ((start : Start) (role : ℕ) (pass : Pass)
        → HasUnsaved R.graph R.stack start role pass files.old fault.old (K.held shelf.old) due.now
        → IsToGiveBack R.graph R.stack start role pass files.new fault.new (K.held shelf.new) due.now.piece) }
    ensures err { OnErr result ((start : Start) (role : ℕ) (pass : Pass)
        → HasUnsaved R.graph R.stack start role pass files.old fault.old (K.held shelf.old) due.now
        → HasUnsaved R.graph R.stack start role pass files.new fault.new (K.held shelf.new) due.now) }
    ensures count { length files.new ≡ length files.old }
    ensures cause { CountsStep fault.old fault.new (K.faults shelf.old) (K.faults shelf.new) (K.held shelf.old) (K.held shelf.new) }
{
    let _content = due.piece.samples();
    if *fault {
        return Ok(());
    }
    match write_piece(
        alloc, files, shelf, stack, due.at, &due.piece, due.group, due.place, due.of,
    ) {
        Ok(()) => Ok(()),
        Err(SaveFault::Failed) => {
            *fault = true;
            Ok(())
        }
        Err(SaveFault::OutOfMemory) => Err(OutOfMemory),
    }
}
