//! The run itself.

ghost use Rattle.std.specs.Prelude.{◌≡◌, ℕ, false, List, IfOk, string_bytes};
ghost use Rattle.nd_base.specs.GraphRules.{IsGraph};
ghost use Rattle.nd_stack.specs.KeptStacks.{IsKeptStack};
ghost use Rattle.chain_plain.specs.Plans.{plan_of};
ghost use Rattle.graph_conf.specs.Loads.{limit_fault};
ghost use Rattle.flow_journal.specs.Notes.{Watched};
ghost use Rattle.board_rules.specs.RunMeasures.{run_setting};
ghost use Rattle.graph_files.specs.OpenFiles.{file_nodes};
ghost use Rattle.flow_saver.specs.KeptNames.{IsGroupName, AreKeptBut};
ghost use Rattle.flow_run.specs.RunFiles.{HasOnlySaved};
ghost use Rattle.flow_run.specs.Runs.{HasRun, outside};
ghost use Rattle.replay_top.specs.RunAnswers.{IsSeen};

use board_rules::BoardCalls;
use edge_traits::{Clock, Gate, Shelf};
use flow_core::Board;
use flow_journal::Quiet;
use flow_run::play_run;
use flow_watch::{WatchEnd, watch_run};
use frame_store::Frame;
use graph_files::OpenFiles;
use nd_base::{OutOfMemory, Plan, Run, Stack};
use std::alloc::Global;
use std::marker::Brand;
use std::sync::Wait;
use std::thread::Threads;

/// Runs the graph of a run over its stack, with a reader beside it where it is `watched`.
fn play<R: Run + Send + Sync, K: Shelf, C: Clock + Send, G: Gate + Sync, W: Threads + Wait + Sync>(
    rt: &W,
    alloc: Global,
    plan: &Plan,
    stack: &Stack,
    files: OpenFiles,
    shelf: &mut K,
    clock: &mut C,
    gate: &G,
    watched: bool,
) -> Result<WatchEnd, OutOfMemory>
    requires plan { plan.now ≡ plan_of R.graph R.stack }
    requires graph { IsGraph R.graph }
    requires stack { stack.now ≡ R.stack }
    requires kept { IsKeptStack R.stack }
    requires files { (prefix : List ℕ) × (files ≡ file_nodes R.graph R.stack prefix) }
    ensures run { IfOk result (λ end. (told : Watched × Watched) × HasRun R.graph R.stack files
        (outside (K.held shelf.old) (K.faults shelf.old) (C.coming clock.old)) (outside (K.held shelf.new) (K.faults shelf.new) (C.coming clock.new))
        told.0 told.1 end.run) }
    ensures elsewhere { HasOnlySaved R.graph R.stack files (K.held shelf.old) (K.held shelf.new) }
    ensures seen { IfOk result (λ end. end.run.fault ≡ false → IsSeen watched (run_setting R.graph R.stack) end.run.log.past (string_bytes end.seen)) }
{
    let board = Board::<Frame<R>>::start(alloc, plan)?;
    if watched {
        return watch_run(rt, alloc, board, plan, stack, files, shelf, clock, gate);
    }
    let run = play_run(
        rt, alloc, board, plan, stack, files, shelf, &mut Quiet, clock, gate,
    )?;
    Ok(WatchEnd {
        run,
        seen: String::new(alloc),
    })
}

/// Runs a graph over a stack with all its roles, and writes the groups of its file nodes.
pub(crate) fn run_plan<K: Shelf, C: Clock + Send, G: Gate + Sync, W: Threads + Wait + Sync>(
    rt: &W,
    alloc: Global,
    plan: &Plan,
    stack: &Stack,
    prefix: &str,
    shelf: &mut K,
    clock: &mut C,
    gate: &G,
    watched: bool,
) -> Result<WatchEnd, OutOfMemory>
    requires graph { IsGraph plan.now.graph }
    requires plan { plan.now ≡ plan_of plan.now.graph stack.now }
    requires kept { IsKeptStack stack.now }
    requires within { limit_fault plan.now.graph stack.now ≡ None }
    ensures run { IfOk result (λ end. (told : Watched × Watched)
        × HasRun plan.now.graph stack.now (file_nodes plan.now.graph stack.now prefix.now)
        (outside (K.held shelf.old) (K.faults shelf.old) (C.coming clock.old)) (outside (K.held shelf.new) (K.faults shelf.new) (C.coming clock.new))
        told.0 told.1 end.run) }
    ensures elsewhere { AreKeptBut (IsGroupName plan.now.graph prefix.now) (K.held shelf.old) (K.held shelf.new) }
    ensures seen { IfOk result (λ end. end.run.fault ≡ false → IsSeen watched (run_setting plan.now.graph stack.now) end.run.log.past (string_bytes end.seen)) }
{
    let files = OpenFiles::new(alloc, prefix, plan, stack)?;
    play::<Brand, K, C, G, W>(rt, alloc, plan, stack, files, shelf, clock, gate, watched)
}
