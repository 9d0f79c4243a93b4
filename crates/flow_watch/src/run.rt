//! The run itself, and the reader beside it.

ghost use Rattle.std.specs.Prelude.{◌≡◌, ◌+◌, ◌≤◌, ℕ, List, [], Option, IfOk, IfSome, IsSomeAnd, true, false, vec_len, vec_capacity, string_bytes};
ghost use Rattle.nd_base.specs.GraphRules.{IsGraph};
ghost use Rattle.nd_stack.specs.KeptStacks.{IsKeptStack};
ghost use Rattle.chain_plain.specs.Plans.{plan_of};
ghost use Rattle.edge_traits.specs.Ticks.{Coming};
ghost use Rattle.flow_journal.specs.Finished.{is_finished};
ghost use Rattle.flow_journal.specs.Notes.{Watched};
ghost use Rattle.flow_journal.specs.Setting.{Setting};
ghost use Rattle.board_rules.specs.RunMeasures.{run_setting};
ghost use Rattle.graph_files.specs.OpenFiles.{file_nodes};
ghost use Rattle.flow_monitor.specs.Monitors.{watched_of};
ghost use Rattle.flow_run.specs.RunFiles.{HasOnlySaved};
ghost use Rattle.flow_run.specs.RunNotes.{HasNotesOf};
ghost use Rattle.flow_run.specs.Runs.{HasRun, outside};
ghost use Rattle.flow_watch.specs.Reads.{ReadAfter, unwatched};
ghost use Rattle.flow_watch.specs.SeenLines.{AreSeenLines};

use crate::lines::seen_text;
use crate::reading::{READS, read_beside};
use crate::whole::whole_progress;
use board_rules::BoardCalls;
use edge_traits::{Clock, Gate, Shelf};
use flow_journal::{Log, Progress, Watch};
use flow_monitor::{Monitor, Peek, Publisher};
use flow_run::{RunEnd, play_run};
use frame_store::Frame;
use graph_files::OpenFiles;
use nd_base::{OutOfMemory, Plan, Run, Stack};
use side_threads::work_beside;
use std::alloc::Global;
use std::sync::Wait;
use std::sync::atomic::{AtomicBool, Ordering};
use std::thread::Threads;

/// What a run leaves that was watched.
#[derive(Drop)]
pub struct WatchEnd {
    pub run: RunEnd,
    /// The lines that tell how far it had come while it went on. None where the shelf failed.
    pub seen: String,
}

/// The run, with what it begins with. Whoever reads beside it is told when it has ended.
fn play_begun<
    R: Run + Send + Sync,
    B: BoardCalls<Frame<R>> + Send,
    K: Shelf,
    C: Clock + Send,
    G: Gate + Sync,
    N: Watch,
    T: Threads + Wait + Sync,
>(
    rt: &T,
    alloc: Global,
    begins: &mut Option<(B, OpenFiles)>,
    plan: &Plan,
    stack: &Stack,
    shelf: &mut K,
    watch: &mut N,
    clock: &mut C,
    gate: &G,
    ended: &AtomicBool,
) -> Result<RunEnd, OutOfMemory>
    requires begins { IsSomeAnd begins.old (λ b. (B.shown b.0 ≡ []) × ((prefix : List ℕ) × (b.1 ≡ file_nodes R.graph R.stack prefix))) }
    requires plan { plan.now ≡ plan_of R.graph R.stack }
    requires graph { IsGraph R.graph }
    requires stack { stack.now ≡ R.stack }
    requires kept { IsKeptStack R.stack }
    ensures run { IfOk result (λ end. IfSome begins.old (λ b. HasRun R.graph R.stack b.1
        (outside (K.held shelf.old) (K.faults shelf.old) (C.coming clock.old)) (outside (K.held shelf.new) (K.faults shelf.new) (C.coming clock.new))
        (N.watched watch.old) (N.watched watch.new) end)) }
    ensures elsewhere { IfSome begins.old (λ b. HasOnlySaved R.graph R.stack b.1 (K.held shelf.old) (K.held shelf.new)) }
    ensures home { N.home watch.new ≡ N.home watch.old }
{
    let Some((board, files)) = begins.take() else {
        unreachable!()
    };
    let end = play_run(
        rt, alloc, board, plan, stack, files, shelf, watch, clock, gate,
    );
    ended.store(true, Ordering::SeqCst);
    end
}

/// The same reference, lent on here. The borrow checker has no rule yet for a second closure over references of parameters alone.
fn lend_on<T>(x: &mut T) -> &mut T
    ensures { result.now ≡ x.old }
{
    x
}

/// The run in this thread, and a reader of its notes in another one.
fn run_beside<
    R: Run + Send + Sync,
    B: BoardCalls<Frame<R>> + Send,
    K: Shelf,
    C: Clock + Send,
    G: Gate + Sync,
    N: Watch,
    T: Threads + Wait + Sync,
>(
    rt: &T,
    alloc: Global,
    begins: &mut Option<(B, OpenFiles)>,
    plan: &Plan,
    stack: &Stack,
    shelf: &mut K,
    watch: &mut N,
    clock: &mut C,
    gate: &G,
    peek: &mut Peek,
    reads: &mut Vec<Progress>,
) -> Result<RunEnd, OutOfMemory>
    requires begins { IsSomeAnd begins.old (λ b. (B.shown b.0 ≡ []) × ((prefix : List ℕ) × (b.1 ≡ file_nodes R.graph R.stack prefix))) }
    requires plan { plan.now ≡ plan_of R.graph R.stack }
    requires graph { IsGraph R.graph }
    requires stack { stack.now ≡ R.stack }
    requires kept { IsKeptStack R.stack }
    requires none { reads.old.items ≡ [] }
    requires room { 17 ≤ vec_capacity reads.old }
    ensures run { IfOk result (λ end. IfSome begins.old (λ b. HasRun R.graph R.stack b.1
        (outside (K.held shelf.old) (K.faults shelf.old) (C.coming clock.old)) (outside (K.held shelf.new) (K.faults shelf.new) (C.coming clock.new))
        (N.watched watch.old) (N.watched watch.new) end)) }
    ensures elsewhere { IfSome begins.old (λ b. HasOnlySaved R.graph R.stack b.1 (K.held shelf.old) (K.held shelf.new)) }
    ensures home { N.home watch.new ≡ N.home watch.old }
    ensures monitor { peek.new.monitor ≡ peek.old.monitor }
    ensures reads { ReadAfter peek.old.seen reads.new.items peek.new.seen }
    ensures room { vec_len reads.new + 1 ≤ vec_capacity reads.new }
{
    let begins = lend_on(begins);
    let ended = AtomicBool::new(false);
    let (_, end) = work_beside(
        rt,
        &mut |has_thread: bool|
            requires { (reads.now.items ≡ []) × (17 ≤ vec_capacity reads.now) }
            ensures { (peek.exit.now.monitor ≡ peek.entry.now.monitor)
                × ReadAfter peek.entry.now.seen reads.exit.now.items peek.exit.now.seen
                × (vec_len reads.exit.now + 1 ≤ vec_capacity reads.exit.now) }
        { read_beside(peek, gate, &ended, has_thread, reads) },
        &mut || -> Result<RunEnd, OutOfMemory>
            requires { IsSomeAnd begins.now (λ b. (B.shown b.0 ≡ []) × ((prefix : List ℕ) × (b.1 ≡ file_nodes R.graph R.stack prefix)))
                × (plan.now ≡ plan_of R.graph R.stack) × IsGraph R.graph × (stack.now ≡ R.stack) × IsKeptStack R.stack }
            ensures { IfOk result (λ end. IfSome begins.entry.now (λ b. HasRun R.graph R.stack b.1
                (outside (K.held shelf.entry.now) (K.faults shelf.entry.now) (C.coming clock.entry.now))
                (outside (K.held shelf.exit.now) (K.faults shelf.exit.now) (C.coming clock.exit.now))
                (N.watched watch.entry.now) (N.watched watch.exit.now) end))
                × IfSome begins.entry.now (λ b. HasOnlySaved R.graph R.stack b.1 (K.held shelf.entry.now) (K.held shelf.exit.now))
                × (N.home watch.exit.now ≡ N.home watch.entry.now) }
        {
            play_begun(
                rt, alloc, begins, plan, stack, shelf, watch, clock, gate, &ended,
            )
        },
    );
    end
}

/// Tells the reader, notes the whole log, and gives the lines of all that was read, and of the log.
fn tell_whole<H: Wait>(
    alloc: Global,
    publisher: &mut Publisher<'_, H>,
    peek: &mut Peek,
    reads: &mut Vec<Progress>,
    log: &Log,
) -> Result<String, OutOfMemory>
    requires monitor { peek.old.monitor ≡ publisher.old.monitor }
    requires reads { ReadAfter [] reads.old.items peek.old.seen }
    requires room { vec_len reads.old + 1 ≤ vec_capacity reads.old }
    ensures { IfOk result (λ text. (s : Setting) → is_finished s log.now.past ≡ true → HasNotesOf s log.now.past unwatched (watched_of publisher.old)
        → AreSeenLines s log.now.past (string_bytes text)) }
{
    publisher.tell(peek);
    let whole = whole_progress(log);
    publisher.note(alloc, &whole)?;
    reads.push_reserved(whole);
    Ok(seen_text(alloc, reads.as_slice())?)
}

/// The run by this publisher, with this reader.
fn watch_by<
    R: Run + Send + Sync,
    B: BoardCalls<Frame<R>> + Send,
    K: Shelf,
    C: Clock + Send,
    G: Gate + Sync,
    T: Threads + Wait + Sync,
>(
    rt: &T,
    alloc: Global,
    board: B,
    plan: &Plan,
    stack: &Stack,
    files: OpenFiles,
    shelf: &mut K,
    clock: &mut C,
    gate: &G,
    publisher: &mut Publisher<'_, T>,
    mut peek: Peek,
) -> Result<WatchEnd, OutOfMemory>
    requires started { B.shown board ≡ [] }
    requires plan { plan.now ≡ plan_of R.graph R.stack }
    requires graph { IsGraph R.graph }
    requires stack { stack.now ≡ R.stack }
    requires kept { IsKeptStack R.stack }
    requires files { (prefix : List ℕ) × (files ≡ file_nodes R.graph R.stack prefix) }
    requires publisher { publisher.old ≡ record { monitor = peek.monitor; notes = []; refused = 0; overtaken = false } }
    requires peek { peek.seen ≡ [] }
    ensures run { IfOk result (λ end. (new : Watched) × HasRun R.graph R.stack files
        (outside (K.held shelf.old) (K.faults shelf.old) (C.coming clock.old)) (outside (K.held shelf.new) (K.faults shelf.new) (C.coming clock.new))
        unwatched new end.run) }
    ensures elsewhere { HasOnlySaved R.graph R.stack files (K.held shelf.old) (K.held shelf.new) }
    ensures seen { IfOk result (λ end. end.run.fault ≡ false → AreSeenLines (run_setting R.graph R.stack) end.run.log.past (string_bytes end.seen)) }
    ensures unseen { IfOk result (λ end. end.run.fault ≡ true → string_bytes end.seen ≡ []) }
{
    let mut reads = Vec::with_capacity(alloc, READS + 1)?;
    let mut begins = Some((board, files));
    let run = run_beside(
        rt,
        alloc,
        &mut begins,
        plan,
        stack,
        shelf,
        publisher,
        clock,
        gate,
        &mut peek,
        &mut reads,
    )?;
    if run.fault {
        return Ok(WatchEnd {
            run,
            seen: String::new(alloc),
        });
    }
    let seen = tell_whole(alloc, publisher, &mut peek, &mut reads, &run.log)?;
    Ok(WatchEnd { run, seen })
}

/// Runs the stack through the graph as `play_run` does, with a reader beside it that reads up to 16 of its notes. The publisher ends
/// whatever the run answers.
///
/// # Errors
///
/// `OutOfMemory` where memory was wanting here, also for the last note, of the whole log.
pub fn watch_run<
    R: Run + Send + Sync,
    B: BoardCalls<Frame<R>> + Send,
    K: Shelf,
    C: Clock + Send,
    G: Gate + Sync,
    T: Threads + Wait + Sync,
>(
    rt: &T,
    alloc: Global,
    board: B,
    plan: &Plan,
    stack: &Stack,
    files: OpenFiles,
    shelf: &mut K,
    clock: &mut C,
    gate: &G,
) -> Result<WatchEnd, OutOfMemory>
    requires started { B.shown board ≡ [] }
    requires plan { plan.now ≡ plan_of R.graph R.stack }
    requires graph { IsGraph R.graph }
    requires stack { stack.now ≡ R.stack }
    requires kept { IsKeptStack R.stack }
    requires files { (prefix : List ℕ) × (files ≡ file_nodes R.graph R.stack prefix) }
    ensures run { IfOk result (λ end. (new : Watched) × HasRun R.graph R.stack files
        (outside (K.held shelf.old) (K.faults shelf.old) (C.coming clock.old)) (outside (K.held shelf.new) (K.faults shelf.new) (C.coming clock.new))
        unwatched new end.run) }
    ensures elsewhere { HasOnlySaved R.graph R.stack files (K.held shelf.old) (K.held shelf.new) }
    ensures seen { IfOk result (λ end. end.run.fault ≡ false → AreSeenLines (run_setting R.graph R.stack) end.run.log.past (string_bytes end.seen)) }
    ensures unseen { IfOk result (λ end. end.run.fault ≡ true → string_bytes end.seen ≡ []) }
{
    let (mut publisher, mut monitor) = Monitor::new(rt, alloc, 1)?;
    let Some(peek) = monitor.reader() else {
        unreachable!()
    };
    let end = watch_by(
        rt,
        alloc,
        board,
        plan,
        stack,
        files,
        shelf,
        clock,
        gate,
        &mut publisher,
        peek,
    );
    publisher.end();
    end
}
