//! A whole run.

ghost use Rattle.std.specs.Prelude.{◌≡◌, ◌++◌, ℕ, true, List, [], Option, IfOk, OnOk};
ghost use Rattle.nd_base.specs.GraphRules.{IsGraph};
ghost use Rattle.nd_stack.specs.KeptStacks.{IsKeptStack};
ghost use Rattle.chain_plain.specs.Plans.{plan_of};
ghost use Rattle.run_laws.specs.Results.{IsFinishedRun};
ghost use Rattle.board_rules.specs.RunMeasures.{run_setting, run_measure};
ghost use Rattle.board_rules.specs.Ends.{measured};
ghost use Rattle.board_rules.specs.Storage.{is_never_regrown};
ghost use Rattle.graph_files.specs.OpenFiles.{file_nodes};
ghost use Rattle.edge_traits.specs.Ticks.{Coming};
ghost use Rattle.edge_traits.specs.Files.{Files};
ghost use Rattle.flow_journal.specs.Setting.{last_role};
ghost use Rattle.flow_journal.specs.Pasts.{Past};
ghost use Rattle.board_rules.specs.States.{past};
ghost use Rattle.flow_roles.specs.Passes.{Pass};
ghost use Rattle.flow_saver.specs.KeptNames.{IsGroupName, AreKeptBut};
ghost use Rattle.flow_saver.specs.Saver.{CountsSo, CountsStep};
ghost use Rattle.flow_saver.specs.Remaining.{RestMoves, IsSavingAlone};
ghost use Rattle.flow_run.specs.Joined.{IsJoined, IsFedUntil};
ghost use Rattle.flow_run.specs.Strangers.{AreOwnMoves};
ghost use Rattle.flow_run.specs.Ticks.{IsFedByTheClock};
ghost use Rattle.flow_run.specs.RunFiles.{SaverLeaves, HasSavedRun, HasOnlySaved};
ghost use Rattle.flow_run.specs.Runs.{HasRun, outside};

use crate::seats::{Dealt, deal, gather};
use crate::threads::run_roles;
use board_rules::{BoardCalls, Left, Measures};
use edge_traits::{Clock, Gate, Shelf};
use flow_drain::drain;
use flow_journal::{Log, Watch};
use flow_roles::{share_board, take_back, worker_nodes};
use flow_saver::{DuePiece, SaveEnd, end_files, save_left, save_rest};
use frame_store::Frame;
use graph_files::OpenFiles;
use nd_base::{OutOfMemory, Plan, Run, Stack};
use std::alloc::Global;
use std::sync::Wait;
use std::thread::Threads;

/// What a run leaves: its log, the measures of each node, and whether the shelf failed.
#[derive(Drop)]
pub struct RunEnd {
    pub log: Log,
    pub measures: Measures,
    pub fault: bool,
}

/// Writes the piece that the role that saves left in hand, if it left one, and gives it back.
///
/// # Errors
///
/// `OutOfMemory` where memory is wanting for the piece again.
fn save_unsaved<R: Run, B: BoardCalls<Frame<R>>, K: Shelf>(
    alloc: Global,
    board: &mut B,
    role: u32,
    shelf: &mut K,
    stack: &Stack,
    files: &mut OpenFiles,
    fault: &mut bool,
    left: Option<DuePiece<Frame<R>>>,
) -> Result<(), OutOfMemory>
    requires role { role ≡ last_role (run_setting R.graph R.stack) }
    requires graph { IsGraph R.graph }
    requires stack { stack.now ≡ R.stack }
    requires kept { IsKeptStack R.stack }
    requires left { (prefix : List ℕ) × ((before : Option Files)
        × SaverLeaves R.graph R.stack prefix before left (B.shown board.old) files.old fault.old (K.held shelf.old)) }
    ensures saving { OnOk result ((prefix : List ℕ) (before : Option Files)
        → SaverLeaves R.graph R.stack prefix before left (B.shown board.old) files.old fault.old (K.held shelf.old)
        → IsSavingAlone R.graph R.stack prefix before (B.shown board.new) files.new fault.new (K.held shelf.new)) }
    ensures elsewhere { (prefix : List ℕ) (before : Option Files)
        → SaverLeaves R.graph R.stack prefix before left (B.shown board.old) files.old fault.old (K.held shelf.old)
        → AreKeptBut (IsGroupName R.graph prefix) before (K.held shelf.new) }
    ensures moves { RestMoves (run_setting R.graph R.stack) (B.shown board.old) (B.shown board.new) }
    ensures cause { CountsStep fault.old fault.new (K.faults shelf.old) (K.faults shelf.new) (K.held shelf.old) (K.held shelf.new) }
{
    match left {
        None => Ok(()),
        Some(due) => save_left(alloc, board, role, shelf, stack, files, fault, due),
    }
}

/// What is left of a run once all roles have ended: the piece that the role that saves left, all that the drain does, with the
/// clock's next answer, what is then to be saved, and the end of the files.
///
/// # Errors
///
/// Only for want of memory.
fn finish_run<R: Run, B: BoardCalls<Frame<R>>, K: Shelf, C: Clock>(
    alloc: Global,
    board: B,
    role: u32,
    lefts: Vec<Left<Frame<R>>>,
    plan: &Plan,
    stack: &Stack,
    left: Option<DuePiece<Frame<R>>>,
    files: OpenFiles,
    fault: bool,
    shelf: &mut K,
    clock: &mut C,
) -> Result<RunEnd, OutOfMemory>
    requires role { role ≡ last_role (run_setting R.graph R.stack) }
    requires plan { plan.now ≡ plan_of R.graph R.stack }
    requires graph { IsGraph R.graph }
    requires stack { stack.now ≡ R.stack }
    requires kept { IsKeptStack R.stack }
    requires joined { (passes : List Pass) × ((saver : Pass) × IsJoined (run_setting R.graph R.stack) (B.shown board) passes lefts.items saver) }
    requires left { (prefix : List ℕ) × ((before : Option Files)
        × SaverLeaves R.graph R.stack prefix before left (B.shown board) files fault (K.held shelf.old)) }
    ensures finished { IfOk result (λ end. IsFinishedRun (run_setting R.graph R.stack) end.log.past) }
    ensures measures { IfOk result (λ end. end.measures ≡ measured (run_measure R.graph R.stack) (run_setting R.graph R.stack) end.log.past) }
    ensures files { IfOk result (λ end. (prefix : List ℕ) (before : Option Files)
        → SaverLeaves R.graph R.stack prefix before left (B.shown board) files fault (K.held shelf.old)
        → HasSavedRun R.graph R.stack prefix end.log.past before end.fault (K.held shelf.new)) }
    ensures elsewhere { (prefix : List ℕ) (before : Option Files)
        → SaverLeaves R.graph R.stack prefix before left (B.shown board) files fault (K.held shelf.old)
        → AreKeptBut (IsGroupName R.graph prefix) before (K.held shelf.new) }
    ensures fault { IfOk result (λ end. (first : ℕ) → CountsSo fault first (K.faults shelf.old) → CountsSo end.fault first (K.faults shelf.new)) }
    ensures roles { IfOk result (λ end. AreOwnMoves (run_setting R.graph R.stack) end.log.past) }
    ensures ticks { IfOk result (λ end. (old : Option Coming) → IsFedUntil (run_setting R.graph R.stack) (B.shown board) old (C.coming clock.old)
        → IsFedByTheClock (run_setting R.graph R.stack) end.log.past old (C.coming clock.new)) }
    ensures storage { IfOk result (λ end. is_never_regrown end.log.past ≡ true) }
    ensures begins { IfOk result (λ end. (newer : Past) × (end.log.past ≡ newer ++ past (B.shown board))) }
{
    let mut board = board;
    let mut files = files;
    let mut fault = fault;
    save_unsaved::<R, B, K>(
        alloc, &mut board, role, shelf, stack, &mut files, &mut fault, left,
    )?;
    let tick = clock.tick();
    drain(alloc, &mut board, lefts, plan, stack, tick)?;
    save_rest::<R, B, K>(
        alloc, &mut board, role, shelf, stack, &mut files, &mut fault,
    )?;
    let fault = end_files::<R, B, K>(&board, shelf, files, fault).is_err();
    let (log, measures) = board.into_parts();
    Ok(RunEnd {
        log,
        measures,
        fault,
    })
}

/// Runs the stack through the graph, over a board that nobody has called: the feeder and each worker in a thread of its own, and the
/// role that saves in this one. Once all have ended, what is left is done here, as the last role, with one answer of the clock more, and
/// the files are ended. After a fault of the shelf nothing is written any more.
///
/// # Errors
///
/// `OutOfMemory` where memory was wanting here. A role in its thread for which memory is wanting leaves, and what it didn't do is
/// done here.
pub fn play_run<
    R: Run + Send + Sync,
    B: BoardCalls<Frame<R>> + Send,
    K: Shelf,
    C: Clock + Send,
    G: Gate + Sync,
    N: Watch,
    T: Threads + Wait + Sync,
>(
    rt: &T,
    alloc: Global,
    board: B,
    plan: &Plan,
    stack: &Stack,
    files: OpenFiles,
    shelf: &mut K,
    watch: &mut N,
    clock: &mut C,
    gate: &G,
) -> Result<RunEnd, OutOfMemory>
    requires started { B.shown board ≡ [] }
    requires plan { plan.now ≡ plan_of R.graph R.stack }
    requires graph { IsGraph R.graph }
    requires stack { stack.now ≡ R.stack }
    requires kept { IsKeptStack R.stack }
    requires files { (prefix : List ℕ) × (files ≡ file_nodes R.graph R.stack prefix) }
    ensures run { IfOk result (λ end. HasRun R.graph R.stack files
        (outside (K.held shelf.old) (K.faults shelf.old) (C.coming clock.old)) (outside (K.held shelf.new) (K.faults shelf.new) (C.coming clock.new))
        (N.watched watch.old) (N.watched watch.new) end) }
    ensures elsewhere { HasOnlySaved R.graph R.stack files (K.held shelf.old) (K.held shelf.new) }
    ensures home { N.home watch.new ≡ N.home watch.old }
{
    let nodes = worker_nodes::<R>(alloc, plan)?;
    let role = nodes.len() as u32 + 1;
    let joined = Vec::with_capacity(alloc, nodes.len() + 2)?;
    let lefts = Vec::with_capacity(alloc, nodes.len() + 1)?;
    let (desk, passes) = share_board(alloc, board, role + 1)?;
    let Dealt {
        mut feeder,
        mut workers,
        last,
    } = deal(alloc, &desk, passes, nodes.as_slice())?;
    let mut begins = Some((last, files));
    let SaveEnd {
        pass,
        left,
        files,
        fault,
        want: _,
    } = run_roles(
        rt,
        alloc,
        &desk,
        role,
        plan,
        stack,
        gate,
        watch,
        shelf,
        &mut begins,
        clock,
        &mut feeder,
        &mut workers,
    );
    let (passes, lefts) = gather(feeder, workers, pass, joined, lefts);
    let board = take_back(desk, passes);
    finish_run(
        alloc, board, role, lefts, plan, stack, left, files, fault, shelf, clock,
    )
}
