//! The drain.

ghost use Rattle.std.specs.Prelude.{◌≡◌, ℕ, OnOk, true, false, Some, slice_get, length, vec_len};
ghost use Rattle.nd_base.specs.GraphRules.{IsGraph};
ghost use Rattle.chain_plain.specs.Plans.{plan_of};
ghost use Rattle.flow_journal.specs.Setting.{last_role};
ghost use Rattle.flow_journal.specs.Hands.{is_free};
ghost use Rattle.flow_journal.specs.Ended.{was_reclaimed};
ghost use Rattle.flow_journal.specs.Histories.{is_history};
ghost use Rattle.board_rules.specs.States.{past};
ghost use Rattle.board_rules.specs.Leaving.{MayReclaim};
ghost use Rattle.board_rules.specs.RunMeasures.{run_setting};
ghost use Rattle.flow_roles.specs.Feeder.{name_of, parts_of};
ghost use Rattle.flow_roles.specs.TurnPasses.{BeginsWith};
ghost use Rattle.flow_drain.specs.Drains.{DrainMoves, IsDrained, taken_back};
ghost use Rattle.flow_drain.specs.DrainSteps.{IsIdle};

use crate::working::{feed_one, work_round};
use board_rules::{BoardCalls, Left};
use frame_store::Frame;
use nd_base::{OutOfMemory, Plan, Run, Stack};
use std::alloc::Global;

/// Takes back what the roles left, from role 0 on, and tells how many roles these are.
fn take_back_all<R: Run, B: BoardCalls<Frame<R>>>(board: &mut B, ends: Vec<Left<Frame<R>>>) -> u32
    requires graph { IsGraph R.graph }
    requires roles { vec_len ends ≡ last_role (run_setting R.graph R.stack) }
    requires legal { is_history (run_setting R.graph R.stack) (past (B.shown board.old)) ≡ true }
    requires free { is_free (last_role (run_setting R.graph R.stack)) (past (B.shown board.old)) ≡ true }
    requires once { (r : ℕ) → was_reclaimed r (past (B.shown board.old)) ≡ false }
    requires left { (k : ℕ) (left : _) → slice_get ends.items k ≡ Some left
        → MayReclaim name_of parts_of length (run_setting R.graph R.stack) (B.shown board.old) k left }
    ensures role { result ≡ last_role (run_setting R.graph R.stack) }
    ensures board { B.shown board.new ≡ taken_back name_of (run_setting R.graph R.stack) 0 ends.items (B.shown board.old) }
    ensures idle { IsIdle (run_setting R.graph R.stack) (B.shown board.new) }
{
    let mut role = 0;
    for left in ends {
        let _ = board.reclaim(role, left);
        role += 1;
    }
    role
}

/// Does what is left of a run whose roles have ended, as the last role: it takes back what they had in hand, feeds the frames
/// that are left, each load with this tick, works off all queues and settles all nodes, until nothing is left but pieces to save.
/// Item k of `ends` is what role k left.
///
/// # Errors
///
/// `OutOfMemory`: the log is legal, and begins with the one that was there.
pub fn drain<R: Run, B: BoardCalls<Frame<R>>>(
    alloc: Global,
    board: &mut B,
    ends: Vec<Left<Frame<R>>>,
    plan: &Plan,
    stack: &Stack,
    tick: u64,
) -> Result<(), OutOfMemory>
    requires plan { plan.now ≡ plan_of R.graph R.stack }
    requires graph { IsGraph R.graph }
    requires stack { stack.now ≡ R.stack }
    requires roles { vec_len ends ≡ last_role (run_setting R.graph R.stack) }
    requires free { is_free (last_role (run_setting R.graph R.stack)) (past (B.shown board.old)) ≡ true }
    requires once { (r : ℕ) → was_reclaimed r (past (B.shown board.old)) ≡ false }
    requires left { (k : ℕ) (left : _) → slice_get ends.items k ≡ Some left
        → MayReclaim name_of parts_of length (run_setting R.graph R.stack) (B.shown board.old) k left }
    ensures done { OnOk result (IsDrained (run_setting R.graph R.stack) (past (B.shown board.new))) }
    ensures moves { DrainMoves (run_setting R.graph R.stack) tick
        (taken_back name_of (run_setting R.graph R.stack) 0 ends.items (B.shown board.old)) (B.shown board.new) }
    ensures legal { is_history (run_setting R.graph R.stack) (past (B.shown board.new)) ≡ true }
    ensures begins { BeginsWith (B.shown board.new) (B.shown board.old) }
    ensures still { IsDrained (run_setting R.graph R.stack) (past (B.shown board.old)) → B.shown board.new ≡ B.shown board.old }
{
    if board.finished() {
        return Ok(());
    }
    let role = take_back_all(board, ends);
    'rounds: loop {
        let before = board.progress().entries;
        feed_one(alloc, board, role, stack, tick)?;
        work_round(alloc, board, role, plan, stack)?;
        if board.progress().entries == before {
            return Ok(());
        }
    }
}
