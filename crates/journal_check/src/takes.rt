//! Moves by which arrays leave their queues.

ghost use Rattle.std.specs.Prelude.{◌≡◌, [], true, IfOk, OnOk};
ghost use Rattle.flow_journal.specs.declared.entry.Entry.TheVariants as entries;
ghost use Rattle.flow_journal.specs.Setting.{is_node};
ghost use Rattle.flow_journal.specs.Histories.{is_history};
ghost use Rattle.flow_journal.specs.FirstEntries.{may_take};
ghost use Rattle.board_rules.specs.States.{past};
ghost use Rattle.board_rules.specs.RunMeasures.{run_setting};
ghost use Rattle.journal_check.specs.Tries.{Tries};

use crate::frame::Name;
use crate::grants::{grants, refuses};
use crate::source::Act;
use frame_table::FrameTable;
use nd_base::{OutOfMemory, Run};
use pool_ledger::Grant;
use run_course::Course;
use std::alloc::Global;

/// Whether a job of the node on this array may be taken by the role, whatever the pool says.
fn may_take<R: Run>(course: &mut Course<Name<R>>, act: Act) -> bool
    ensures answer { result ≡ may_take (run_setting R.graph R.stack) act.role act.node act.name (past course.old.told) }
    ensures same { course.new ≡ course.old }
{
    course.is_role(act.role)
        && course.is_node(act.node)
        && course.take_refusal(act.role, act.node).is_none()
        && course.next_queued(act.node) == act.name
}

/// Takes this array as a job of a node that makes none, where that is the next move of the role.
pub(crate) fn try_take<R: Run>(course: &mut Course<Name<R>>, act: Act) -> bool
    requires still { course.old.transit ≡ [] }
    requires history { is_history (run_setting R.graph R.stack) (past course.old.told) ≡ true }
    ensures still { course.new.transit ≡ [] }
    ensures tries { Tries (run_setting R.graph R.stack) 0 (entries.Take act.role act.node act.name.maker act.name.index)
        course.old.told result course.new.told }
{
    if !may_take(course, act) || course.is_maker(act.node) {
        return false;
    }
    course.take(act.role, act.node, &Name::new(act.name));
    true
}

/// Takes this array as a job of a node that makes arrays, with the granted block, where that is the next move of the role.
///
/// # Errors
///
/// Only for want of memory.
pub(crate) fn try_take_block<R: Run>(
    alloc: Global,
    course: &mut Course<Name<R>>,
    act: Act,
    grant: Grant,
    regrown: bool,
) -> Result<bool, OutOfMemory>
    requires still { course.old.transit ≡ [] }
    requires history { is_history (run_setting R.graph R.stack) (past course.old.told) ≡ true }
    ensures still { OnOk result (course.new.transit ≡ []) }
    ensures tries { IfOk result (λ made. Tries (run_setting R.graph R.stack) 0
        (entries.TakeBlock grant.fresh regrown act.role act.node act.name.maker act.name.index grant.block grant.size grant.given_up)
        course.old.told made course.new.told) }
{
    if !may_take(course, act)
        || !course.is_maker(act.node)
        || !grants(course, act.node, grant, regrown)
    {
        return Ok(false);
    }
    // A check keeps no storage.
    let mut table = FrameTable::new(alloc);
    course.take_block(
        alloc,
        act.role,
        act.node,
        &Name::new(act.name),
        grant,
        regrown,
        &mut table,
    )?;
    Ok(true)
}

/// Drops this array at a node that makes arrays, where the pool refuses a block and that is the next move of the role.
pub(crate) fn try_pool_drop<R: Run>(
    course: &mut Course<Name<R>>,
    act: Act,
    need: u32,
    held: u64,
) -> bool
    requires still { course.old.transit ≡ [] }
    requires history { is_history (run_setting R.graph R.stack) (past course.old.told) ≡ true }
    ensures still { course.new.transit ≡ [] }
    ensures tries { Tries (run_setting R.graph R.stack) 0 (entries.PoolDrop act.role act.node act.name.maker act.name.index need held)
        course.old.told result course.new.told }
{
    if !may_take(course, act)
        || !course.is_maker(act.node)
        || !refuses(course, act.node, need, held)
    {
        return false;
    }
    let _ = flow_emit::drop_at_pool(course, act.role, act.node);
    true
}
