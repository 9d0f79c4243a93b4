//! Puts of results.

ghost use Rattle.std.specs.Prelude.{◌≡◌, ◌≤◌, [], true, false, IfOk, OnOk, Some, None};
ghost use Rattle.nd_base.specs.GraphRules.{IsGraph};
ghost use Rattle.flow_journal.specs.declared.entry.Entry.TheVariants as entries;
ghost use Rattle.flow_journal.specs.Setting.{is_node, last_role};
ghost use Rattle.flow_journal.specs.Hands.{hand};
ghost use Rattle.flow_journal.specs.Histories.{is_history};
ghost use Rattle.flow_journal.specs.FirstEntries.{is_result_of};
ghost use Rattle.board_rules.specs.States.{past};
ghost use Rattle.board_rules.specs.RunMeasures.{run_setting};
ghost use Rattle.journal_check.specs.Tries.{Tries, IsJobFor};

use crate::frame::Name;
use crate::measures::{fires, measured};
use crate::source::{Act, Source};
use nd_base::{FrameName, OutOfMemory, Run};
use run_course::{Course, Hand};

/// The array of the job of the node in the role's hand, where the result of that job has the name of the put.
fn job_for<R: Run>(course: &Course<Name<R>>, put: Act) -> Option<FrameName>
    requires history { is_history (run_setting R.graph R.stack) (past course.now.told) ≡ true }
    ensures none { result ≡ None → is_result_of put.node put.name (hand put.role (past course.now.told)) ≡ false }
    ensures some { (name : FrameName) → result ≡ Some name → IsJobFor (run_setting R.graph R.stack) put.role put.node put.name name (past course.now.told) }
{
    if !course.is_role(put.role) || !course.is_node(put.node) {
        return None;
    }
    let Hand::Job { node: at, name, .. } = course.hand(put.role) else {
        return None;
    };
    if at == put.node && course.result_name(put.node, name) == put.name {
        Some(name)
    } else {
        None
    }
}

/// Puts the result of this name, where the role has the job of the node that makes it in hand and the node fires so.
///
/// # Errors
///
/// Only for want of memory.
pub(crate) fn try_put<R: Run>(
    source: &Source,
    course: &mut Course<Name<R>>,
    put: Act,
    fired: bool,
) -> Result<bool, OutOfMemory>
    requires still { course.old.transit ≡ [] }
    requires history { is_history (run_setting R.graph R.stack) (past course.old.told) ≡ true }
    requires graph { source.now.plan.now.graph ≡ R.graph }
    requires sound { IsGraph R.graph }
    requires stack { source.now.stack.now ≡ R.stack }
    ensures still { OnOk result (course.new.transit ≡ []) }
    ensures tries { IfOk result (λ made. Tries (run_setting R.graph R.stack) 0 (entries.Put put.role put.node put.name.maker put.name.index fired)
        course.old.told made course.new.told) }
{
    let Some(name) = job_for(course, put) else {
        return Ok(false);
    };
    if fired != fires::<R>(source, put.node, put.name.index) {
        return Ok(false);
    }
    let numbers = measured::<R>(source, put.node, name)?;
    flow_emit::put(course, put.role, put.node, name, numbers, fired);
    Ok(true)
}
