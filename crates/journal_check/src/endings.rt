//! Moves by which nodes and roles end.

ghost use Rattle.std.specs.Prelude.{◌≡◌, [], true};
ghost use Rattle.flow_journal.specs.declared.entry.Entry.TheVariants as entries;
ghost use Rattle.flow_journal.specs.Histories.{is_history};
ghost use Rattle.board_rules.specs.States.{past};
ghost use Rattle.board_rules.specs.RunMeasures.{run_setting};
ghost use Rattle.journal_check.specs.Tries.{Tries};

use crate::frame::Name;
use nd_base::Run;
use run_course::Course;
use told_log::LostBlocks;

/// Settles the node, where that is the next move.
pub(crate) fn try_settle<R: Run>(course: &mut Course<Name<R>>, role: u32, node: u32) -> bool
    requires still { course.old.transit ≡ [] }
    requires history { is_history (run_setting R.graph R.stack) (past course.old.told) ≡ true }
    ensures still { course.new.transit ≡ [] }
    ensures tries { Tries (run_setting R.graph R.stack) 0 (entries.Settle role node) course.old.told result course.new.told }
{
    if !course.is_role(role) || !course.is_node(node) {
        return false;
    }
    if course.is_settled(node) || course.waits_to_settle(node) {
        return false;
    }
    flow_emit::settle(course, role, node);
    true
}

/// Ends the role for want of memory, where it hasn't left.
pub(crate) fn try_leave<R: Run>(course: &mut Course<Name<R>>, role: u32) -> bool
    requires still { course.old.transit ≡ [] }
    requires history { is_history (run_setting R.graph R.stack) (past course.old.told) ≡ true }
    ensures still { course.new.transit ≡ [] }
    ensures tries { Tries (run_setting R.graph R.stack) 0 (entries.Leave role) course.old.told result course.new.told }
{
    if !course.is_role(role) || course.has_left(role) {
        return false;
    }
    course.leave(role);
    true
}

/// Takes back what the role has in hand, where that may be.
pub(crate) fn try_reclaim<R: Run>(course: &mut Course<Name<R>>, role: u32) -> bool
    requires still { course.old.transit ≡ [] }
    requires history { is_history (run_setting R.graph R.stack) (past course.old.told) ≡ true }
    ensures still { course.new.transit ≡ [] }
    ensures tries { Tries (run_setting R.graph R.stack) 0 (entries.Reclaim role) course.old.told result course.new.told }
{
    if !course.is_role(role) || course.reclaim_refusal(role).is_some() {
        return false;
    }
    flow_emit::reclaim(course, role, LostBlocks::new(None, None));
    true
}
