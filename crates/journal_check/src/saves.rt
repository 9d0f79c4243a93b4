//! Moves by which pieces of files are saved.

ghost use Rattle.std.specs.Prelude.{◌≡◌, [], true};
ghost use Rattle.flow_journal.specs.declared.entry.Entry.TheVariants as entries;
ghost use Rattle.flow_journal.specs.Histories.{is_history};
ghost use Rattle.board_rules.specs.States.{past};
ghost use Rattle.board_rules.specs.RunMeasures.{run_setting};
ghost use Rattle.journal_check.specs.Tries.{Tries};

use crate::frame::Name;
use crate::source::Act;
use nd_base::Run;
use run_course::Course;

/// Saves this array as a piece of this group, where that is the next move of the role.
pub(crate) fn try_save<R: Run>(course: &mut Course<Name<R>>, act: Act, group: u32) -> bool
    requires still { course.old.transit ≡ [] }
    requires history { is_history (run_setting R.graph R.stack) (past course.old.told) ≡ true }
    ensures still { course.new.transit ≡ [] }
    ensures tries { Tries (run_setting R.graph R.stack) 0 (entries.Save act.role act.node act.name.maker act.name.index group)
        course.old.told result course.new.told }
{
    if !course.is_role(act.role)
        || !course.is_node(act.node)
        || course.save_refusal(act.role, act.node).is_some()
    {
        return false;
    }
    if course.next_unsaved(act.node) != act.name || group != course.next_group(act.node) {
        return false;
    }
    let _ = course.save(act.role, act.node, &Name::new(act.name));
    true
}

/// Ends the saving of this array of the node, where it is the piece that the role has in hand.
pub(crate) fn try_saved<R: Run>(course: &mut Course<Name<R>>, act: Act) -> bool
    requires still { course.old.transit ≡ [] }
    requires history { is_history (run_setting R.graph R.stack) (past course.old.told) ≡ true }
    ensures still { course.new.transit ≡ [] }
    ensures tries { Tries (run_setting R.graph R.stack) 0 (entries.Saved act.role act.node act.name.maker act.name.index)
        course.old.told result course.new.told }
{
    if !course.is_role(act.role)
        || !course.is_piece_on(act.role, act.name)
        || course.hand_node(act.role) != act.node
    {
        return false;
    }
    flow_emit::saved(course, act.role, act.name);
    true
}
