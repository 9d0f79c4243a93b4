//! The files of a plain run.

ghost use Rattle.std.specs.Prelude.{◌≡◌, None, OnOk, OnErr};
ghost use Rattle.nd_base.specs.GraphRules.{IsGraph};
ghost use Rattle.nd_stack.specs.KeptStacks.{IsKeptStack};
ghost use Rattle.chain_plain.specs.Plans.{plan_of};
ghost use Rattle.graph_conf.specs.Loads.{limit_fault};
ghost use Rattle.file_out.specs.Saving.{IsSaveCause};
ghost use Rattle.graph_files.specs.OutFiles.{plain_files, with_files};
ghost use Rattle.plain_saver.specs.TornRuns.{IsTornRun};

use crate::saver::Saver;
use crate::source::Source;
use edge_traits::Shelf;
use file_out::SaveFault;
use nd_base::{Plan, Stack};
use std::alloc::Global;

/// Runs a graph over a stack in one thread, frame by frame, and writes the files of its file nodes and statistics nodes. Each frame is lent
/// where no region cuts it, and a region of a frame is computed once, but where another frame takes its room meanwhile (see `Rooms`). The rows of
/// small frames are gathered for one append.
///
/// # Errors
///
/// `Failed` where the shelf failed: its count of faults rose. Want of memory may come at any frame. After either, each name has what it had,
/// a front of its file, or the whole file.
pub fn save_files<K: Shelf>(
    alloc: Global,
    shelf: &mut K,
    prefix: &str,
    plan: &Plan,
    stack: &Stack,
) -> Result<(), SaveFault>
    requires graph { IsGraph plan.now.graph }
    requires plan { plan.now ≡ plan_of plan.now.graph stack.now }
    requires kept { IsKeptStack stack.now }
    requires within { limit_fault plan.now.graph stack.now ≡ None }
    ensures ok { OnOk result (K.held shelf.new ≡ with_files (K.held shelf.old) (plain_files plan.now.graph stack.now prefix.now)) }
    ensures err { OnErr result (IsTornRun plan.now.graph stack.now prefix.now (K.held shelf.old) (K.held shelf.new)) }
    ensures cause { IsSaveCause result (K.faults shelf.old) (K.faults shelf.new) }
{
    let source = Source { plan, stack };
    let mut saver = Saver::begin(alloc, shelf, prefix, &source)?;
    for index in 0..stack.frames() {
        saver.write_arrays(alloc, shelf, &source, index)?;
        saver.write_rows(alloc, shelf, prefix, &source, index)?;
    }
    saver.end(alloc, shelf, prefix, &source)
}
