//! The drain as a worker, and as the feeder.

ghost use Rattle.std.specs.Prelude.{◌≡◌, ℕ, ◌<◌, ◌⊎◌, length, IfOk, OnOk, IsTrue, true, false, []};
ghost use Rattle.nd_base.specs.GraphRules.{IsGraph};
ghost use Rattle.chain_plain.specs.Plans.{plan_of};
ghost use Rattle.flow_journal.specs.Setting.{is_node, last_role};
ghost use Rattle.flow_journal.specs.Ended.{is_settled};
ghost use Rattle.flow_journal.specs.Queued.{queued};
ghost use Rattle.flow_journal.specs.Histories.{is_history};
ghost use Rattle.board_rules.specs.States.{past};
ghost use Rattle.board_rules.specs.RunMeasures.{run_setting};
ghost use Rattle.flow_drain.specs.Drains.{DrainMoves};
ghost use Rattle.flow_drain.specs.DrainSteps.{IsIdle, HasFrame, HasWork, IsFed, Waits, IsQuiet};

use board_rules::{BoardCalls, Load, Take};
use flow_roles::{Alone, frame_on, result_of};
use frame_store::{Blank, Frame};
use nd_base::{OutOfMemory, Plan, Run, Stack};
use std::alloc::Global;

/// Fills the loaded frame and issues it.
fn issue_frame<R: Run, B: BoardCalls<Frame<R>>>(
    board: &mut B,
    role: u32,
    stack: &Stack,
    index: u32,
    blank: Blank,
)
    requires role { role ≡ last_role (run_setting R.graph R.stack) }
    requires stack { stack.now ≡ R.stack }
    requires loaded { HasFrame (run_setting R.graph R.stack) index (length blank) (B.shown board.old) }
    ensures idle { IsIdle (run_setting R.graph R.stack) (B.shown board.new) }
    ensures moves { (tick : ℕ) → DrainMoves (run_setting R.graph R.stack) tick (B.shown board.old) (B.shown board.new) }
{
    let frame = frame_on::<R>(stack, index, blank);
    let Ok(()) = board.issue(role, frame) else {
        unreachable!()
    };
}

/// Loads the next frame with this tick and issues it. Where every frame was offered, it closes the feed.
///
/// # Errors
///
/// `OutOfMemory` where the block can't be had. Nothing has changed then.
pub(crate) fn feed_one<R: Run, B: BoardCalls<Frame<R>>>(
    alloc: Global,
    board: &mut B,
    role: u32,
    stack: &Stack,
    tick: u64,
) -> Result<(), OutOfMemory>
    requires role { role ≡ last_role (run_setting R.graph R.stack) }
    requires stack { stack.now ≡ R.stack }
    requires idle { IsIdle (run_setting R.graph R.stack) (B.shown board.old) }
    ensures idle { IsIdle (run_setting R.graph R.stack) (B.shown board.new) }
    ensures moves { DrainMoves (run_setting R.graph R.stack) tick (B.shown board.old) (B.shown board.new) }
    ensures fed { OnOk result (B.shown board.new ≡ B.shown board.old
        → IsFed (run_setting R.graph R.stack) (past (B.shown board.old)) ⊎ Waits (run_setting R.graph R.stack) (past (B.shown board.old))) }
    ensures still { IsFed (run_setting R.graph R.stack) (past (B.shown board.old)) → B.shown board.new ≡ B.shown board.old }
{
    match board.load(alloc, role, tick) {
        Load::Loaded { index, blank } => {
            issue_frame::<R, B>(board, role, stack, index, blank);
            Ok(())
        }
        Load::Ended => {
            board.close(role);
            Ok(())
        }
        Load::Refused { .. } => Ok(()),
        Load::NotYet => Ok(()),
        Load::OutOfMemory => Err(OutOfMemory),
        Load::Left => unreachable!(),
        Load::Busy => unreachable!(),
    }
}

/// Works on a job and puts its result.
///
/// # Errors
///
/// `OutOfMemory` where a measure finds no memory. The job stays in hand.
fn work_on<R: Run, B: BoardCalls<Frame<R>>>(
    alloc: Global,
    board: &mut B,
    role: u32,
    node: u32,
    plan: &Plan,
    stack: &Stack,
    input: Frame<R>,
    blank: Option<Blank>,
) -> Result<(), OutOfMemory>
    requires role { role ≡ last_role (run_setting R.graph R.stack) }
    requires plan { plan.now ≡ plan_of R.graph R.stack }
    requires graph { IsGraph R.graph }
    requires stack { stack.now ≡ R.stack }
    requires node { IsTrue (is_node (run_setting R.graph R.stack) node) }
    requires job { HasWork R.graph R.stack node input blank (B.shown board.old) }
    ensures legal { is_history (run_setting R.graph R.stack) (past (B.shown board.new)) ≡ true }
    ensures idle { OnOk result (IsIdle (run_setting R.graph R.stack) (B.shown board.new)) }
    ensures moves { (tick : ℕ) → DrainMoves (run_setting R.graph R.stack) tick (B.shown board.old) (B.shown board.new) }
{
    let Ok(done) = result_of(&Alone, alloc, plan, stack, node, input, blank) else {
        return Err(OutOfMemory);
    };
    let Ok(()) = board.put(role, done) else {
        unreachable!()
    };
    Ok(())
}

/// Takes the next array of a node's queue and works on it. Tells whether there was one.
fn work_once<R: Run, B: BoardCalls<Frame<R>>>(
    alloc: Global,
    board: &mut B,
    role: u32,
    node: u32,
    plan: &Plan,
    stack: &Stack,
) -> Result<bool, OutOfMemory>
    requires role { role ≡ last_role (run_setting R.graph R.stack) }
    requires plan { plan.now ≡ plan_of R.graph R.stack }
    requires graph { IsGraph R.graph }
    requires stack { stack.now ≡ R.stack }
    requires node { IsTrue (is_node (run_setting R.graph R.stack) node) }
    requires idle { IsIdle (run_setting R.graph R.stack) (B.shown board.old) }
    ensures legal { is_history (run_setting R.graph R.stack) (past (B.shown board.new)) ≡ true }
    ensures idle { OnOk result (IsIdle (run_setting R.graph R.stack) (B.shown board.new)) }
    ensures moves { (tick : ℕ) → DrainMoves (run_setting R.graph R.stack) tick (B.shown board.old) (B.shown board.new) }
    ensures some { IfOk result (λ some. some ≡ true → length (past (B.shown board.old)) < length (past (B.shown board.new))) }
    ensures none { IfOk result (λ some. some ≡ false → queued node (past (B.shown board.new)) ≡ []) }
    ensures still { queued node (past (B.shown board.old)) ≡ [] → B.shown board.new ≡ B.shown board.old }
{
    match board.take(alloc, role, node) {
        Take::Job {
            node: _,
            input,
            blank,
        } => {
            work_on(alloc, board, role, node, plan, stack, input, blank)?;
            Ok(true)
        }
        Take::PoolDrop { .. } => Ok(true),
        Take::Idle => Ok(false),
        Take::Ended => Ok(false),
        Take::OutOfMemory => Err(OutOfMemory),
        Take::Left => unreachable!(),
        Take::Busy => unreachable!(),
    }
}

/// Works off the queue of a node, and settles it where that can be.
fn finish_node<R: Run, B: BoardCalls<Frame<R>>>(
    alloc: Global,
    board: &mut B,
    role: u32,
    node: u32,
    plan: &Plan,
    stack: &Stack,
) -> Result<(), OutOfMemory>
    requires role { role ≡ last_role (run_setting R.graph R.stack) }
    requires plan { plan.now ≡ plan_of R.graph R.stack }
    requires graph { IsGraph R.graph }
    requires stack { stack.now ≡ R.stack }
    requires node { IsTrue (is_node (run_setting R.graph R.stack) node) }
    requires idle { IsIdle (run_setting R.graph R.stack) (B.shown board.old) }
    ensures legal { is_history (run_setting R.graph R.stack) (past (B.shown board.new)) ≡ true }
    ensures idle { OnOk result (IsIdle (run_setting R.graph R.stack) (B.shown board.new)) }
    ensures moves { (tick : ℕ) → DrainMoves (run_setting R.graph R.stack) tick (B.shown board.old) (B.shown board.new) }
    ensures quiet { OnOk result (B.shown board.new ≡ B.shown board.old → IsQuiet (run_setting R.graph R.stack) (past (B.shown board.old)) node) }
    ensures still { is_settled node (past (B.shown board.old)) ≡ true → B.shown board.new ≡ B.shown board.old }
{
    'queue: while work_once(alloc, board, role, node, plan, stack)? {}
    board.settle(role, node);
    Ok(())
}

/// Works off the queues of all nodes, in the order of the graph, and settles those that can be.
pub(crate) fn work_round<R: Run, B: BoardCalls<Frame<R>>>(
    alloc: Global,
    board: &mut B,
    role: u32,
    plan: &Plan,
    stack: &Stack,
) -> Result<(), OutOfMemory>
    requires role { role ≡ last_role (run_setting R.graph R.stack) }
    requires plan { plan.now ≡ plan_of R.graph R.stack }
    requires graph { IsGraph R.graph }
    requires stack { stack.now ≡ R.stack }
    requires idle { IsIdle (run_setting R.graph R.stack) (B.shown board.old) }
    ensures legal { is_history (run_setting R.graph R.stack) (past (B.shown board.new)) ≡ true }
    ensures idle { OnOk result (IsIdle (run_setting R.graph R.stack) (B.shown board.new)) }
    ensures moves { (tick : ℕ) → DrainMoves (run_setting R.graph R.stack) tick (B.shown board.old) (B.shown board.new) }
    ensures quiet { OnOk result (B.shown board.new ≡ B.shown board.old
        → (v : ℕ) → is_node (run_setting R.graph R.stack) v ≡ true → IsQuiet (run_setting R.graph R.stack) (past (B.shown board.old)) v) }
    ensures still { ((v : ℕ) → is_node (run_setting R.graph R.stack) v ≡ true → is_settled v (past (B.shown board.old)) ≡ true)
        → B.shown board.new ≡ B.shown board.old }
{
    let nodes = plan.graph.nodes.as_slice().len() as u32;
    for node in 1..nodes + 1 {
        finish_node(alloc, board, role, node, plan, stack)?;
    }
    Ok(())
}
