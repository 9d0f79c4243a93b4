//! Moves of the feeder.

ghost use Rattle.std.specs.Prelude.{◌≡◌, [], true, IfOk, OnOk};
ghost use Rattle.flow_journal.specs.declared.entry.Entry.TheVariants as entries;
ghost use Rattle.flow_journal.specs.Histories.{is_history};
ghost use Rattle.flow_journal.specs.FirstEntries.{may_load};
ghost use Rattle.board_rules.specs.States.{past};
ghost use Rattle.board_rules.specs.RunMeasures.{run_setting};
ghost use Rattle.journal_check.specs.Tries.{Tries};

use crate::frame::{Name, Size};
use crate::grants::{grants, refuses};
use crate::source::Feed;
use frame_table::FrameTable;
use nd_base::{FrameName, OutOfMemory, Run};
use pool_ledger::Grant;
use run_course::Course;
use std::alloc::Global;

/// The driver's number.
const DRIVER: u32 = 0;

/// Whether the next frame, of this index, may be loaded by the role, whatever the pool says.
fn may_load<R: Run>(course: &Course<Name<R>>, role: u32, index: u32) -> bool
    ensures { result ≡ may_load (run_setting R.graph R.stack) role index (past course.now.told) }
{
    course.is_role(role)
        && course.load_refusal::<Size>(role).is_none()
        && index == course.next_index()
}

/// Loads the frame into the granted block, where that is the next move of the role.
///
/// # Errors
///
/// Only for want of memory.
pub(crate) fn try_load<R: Run>(
    alloc: Global,
    course: &mut Course<Name<R>>,
    feed: Feed,
    grant: Grant,
    regrown: bool,
) -> Result<bool, OutOfMemory>
    requires still { course.old.transit ≡ [] }
    requires history { is_history (run_setting R.graph R.stack) (past course.old.told) ≡ true }
    ensures still { OnOk result (course.new.transit ≡ []) }
    ensures tries { IfOk result (λ made. Tries (run_setting R.graph R.stack) feed.tick
        (entries.Load feed.role feed.index grant.block grant.size grant.fresh grant.given_up regrown) course.old.told made course.new.told) }
{
    if !may_load(course, feed.role, feed.index) || !grants(course, DRIVER, grant, regrown) {
        return Ok(false);
    }
    // A check keeps no storage.
    let mut table = FrameTable::new(alloc);
    flow_emit::load(
        course, alloc, feed.role, feed.tick, grant, regrown, &mut table,
    )?;
    Ok(true)
}

/// Notes that the pool refuses the frame a block, where that is the next move of the role.
pub(crate) fn try_refused_load<R: Run>(
    course: &mut Course<Name<R>>,
    feed: Feed,
    need: u32,
    held: u64,
) -> bool
    requires still { course.old.transit ≡ [] }
    requires history { is_history (run_setting R.graph R.stack) (past course.old.told) ≡ true }
    ensures still { course.new.transit ≡ [] }
    ensures tries { Tries (run_setting R.graph R.stack) feed.tick
        (entries.LoadRefused feed.role feed.index need held) course.old.told result course.new.told }
{
    if !may_load(course, feed.role, feed.index) || !refuses(course, DRIVER, need, held) {
        return false;
    }
    flow_emit::refuse_load(course, feed.role, feed.tick);
    true
}

/// Issues the frame of this index, where it is loaded in the role's hand.
pub(crate) fn try_issue<R: Run>(course: &mut Course<Name<R>>, role: u32, index: u32) -> bool
    requires still { course.old.transit ≡ [] }
    requires history { is_history (run_setting R.graph R.stack) (past course.old.told) ≡ true }
    ensures still { course.new.transit ≡ [] }
    ensures tries { Tries (run_setting R.graph R.stack) 0 (entries.Issue role index) course.old.told result course.new.told }
{
    if !course.is_role(role) || !course.is_load_of(role, FrameName { maker: 0, index }) {
        return false;
    }
    flow_emit::issue(course, role, index);
    true
}

/// Ends the feed, where that is the next move.
pub(crate) fn try_close<R: Run>(course: &mut Course<Name<R>>, role: u32) -> bool
    requires still { course.old.transit ≡ [] }
    requires history { is_history (run_setting R.graph R.stack) (past course.old.told) ≡ true }
    ensures still { course.new.transit ≡ [] }
    ensures tries { Tries (run_setting R.graph R.stack) 0 (entries.Close role) course.old.told result course.new.told }
{
    if !course.is_role(role) || course.is_closed() || course.waits_to_close() {
        return false;
    }
    course.close(role);
    true
}
