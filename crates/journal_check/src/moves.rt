//! The moves of a log, made by the course of a run.

ghost use Rattle.std.specs.Prelude.{◌≡◌, [], true, false, IfOk, OnOk};
ghost use Rattle.nd_base.specs.GraphRules.{IsGraph};
ghost use Rattle.flow_journal.specs.Histories.{is_history};
ghost use Rattle.board_rules.specs.States.{past};
ghost use Rattle.board_rules.specs.RunMeasures.{run_setting};
ghost use Rattle.journal_check.specs.Steps.{tick_for};
ghost use Rattle.journal_check.specs.Tries.{Tries};

use crate::endings::{try_leave, try_reclaim, try_settle};
use crate::frame::Name;
use crate::loads::{try_close, try_issue, try_load, try_refused_load};
use crate::puts::try_put;
use crate::saves::{try_save, try_saved};
use crate::source::{Act, Feed, Source};
use crate::takes::{try_pool_drop, try_take, try_take_block};
use flow_journal::Entry;
use nd_base::{OutOfMemory, Run};
use pool_ledger::Grant;
use run_course::Course;

/// Makes the move that begins with this entry, where there is one; a load is made with this tick.
///
/// # Errors
///
/// Only for want of memory.
pub(crate) fn try_move<R: Run>(
    source: &Source,
    course: &mut Course<Name<R>>,
    entry: Entry,
    tick: u64,
) -> Result<bool, OutOfMemory>
    requires still { course.old.transit ≡ [] }
    requires history { is_history (run_setting R.graph R.stack) (past course.old.told) ≡ true }
    requires graph { source.now.plan.now.graph ≡ R.graph }
    requires sound { IsGraph R.graph }
    requires stack { source.now.stack.now ≡ R.stack }
    ensures still { OnOk result (course.new.transit ≡ []) }
    ensures tries { IfOk result (λ made. Tries (run_setting R.graph R.stack) (tick_for entry tick) entry course.old.told made course.new.told) }
{
    match entry {
        Entry::Load {
            role,
            index,
            block,
            size,
            fresh,
            given,
            regrown,
        } => {
            let grant = Grant {
                block,
                size,
                fresh,
                given_up: given,
            };
            let feed = Feed { role, tick, index };
            try_load(source.alloc, course, feed, grant, regrown)
        }
        Entry::LoadRefused {
            role,
            index,
            need,
            held,
        } => Ok(try_refused_load(course, Feed { role, tick, index }, need, held)),
        Entry::Issue { role, index } => Ok(try_issue(course, role, index)),
        Entry::Take {
            role,
            node,
            maker,
            index,
        } => Ok(try_take(course, Act::new(role, node, maker, index))),
        Entry::TakeBlock {
            fresh,
            regrown,
            role,
            node,
            maker,
            index,
            block,
            size,
            given,
        } => {
            let grant = Grant {
                block,
                size,
                fresh,
                given_up: given,
            };
            let act = Act::new(role, node, maker, index);
            try_take_block(source.alloc, course, act, grant, regrown)
        }
        Entry::PoolDrop {
            role,
            node,
            maker,
            index,
            need,
            held,
        } => Ok(try_pool_drop(course, Act::new(role, node, maker, index), need, held)),
        Entry::Put {
            role,
            node,
            maker,
            index,
            fired,
        } => try_put(source, course, Act::new(role, node, maker, index), fired),
        Entry::Settle { role, node } => Ok(try_settle(course, role, node)),
        Entry::Save {
            role,
            node,
            maker,
            index,
            group,
        } => Ok(try_save(course, Act::new(role, node, maker, index), group)),
        Entry::Saved {
            role,
            node,
            maker,
            index,
        } => Ok(try_saved(course, Act::new(role, node, maker, index))),
        Entry::Close { role } => Ok(try_close(course, role)),
        Entry::Leave { role } => Ok(try_leave(course, role)),
        Entry::Reclaim { role } => Ok(try_reclaim(course, role)),
        Entry::Tick { .. }
        | Entry::Emit { .. }
        | Entry::Accept { .. }
        | Entry::Full { .. }
        | Entry::SortDrop { .. } => Ok(false),
    }
}
