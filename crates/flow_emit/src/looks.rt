//! Looks at sort lists: what of them goes out.

ghost use Rattle.std.specs.Prelude.{◌≡◌, ◌<◌, [], Some, true, false};
ghost use Rattle.flow_journal.specs.Setting.{is_node, is_sorted};
ghost use Rattle.flow_journal.specs.Histories.{is_legal};
ghost use Rattle.flow_journal.specs.Following.{look};
ghost use Rattle.board_rules.specs.States.{past};
ghost use Rattle.board_rules.specs.Moving.{with_all};
ghost use Rattle.board_rules.specs.RunMeasures.{run_setting};
ghost use Rattle.flow_emit.specs.Outs.{OneOut};

use crate::emission::pass_on;
use nd_base::Held;
use run_course::Course;

/// Lets the least waiting one out of the sort list of a node, where it keeps step or is late, and tells whether one went out.
fn emit_due<F: Held>(course: &mut Course<F>, node: u32) -> bool
    requires node { is_node (run_setting F.Of.graph F.Of.stack) node ≡ true }
    requires sorted { is_sorted (run_setting F.Of.graph F.Of.stack) node ≡ true }
    requires still { course.old.transit ≡ [] }
    requires legal { is_legal (run_setting F.Of.graph F.Of.stack)
        (past (with_all (run_setting F.Of.graph F.Of.stack) 0 2 (look (run_setting F.Of.graph F.Of.stack) node (past course.old.told)) course.old.told))
        ≡ true }
    ensures still { course.new.transit ≡ [] }
    ensures none { result ≡ false → (look (run_setting F.Of.graph F.Of.stack) node (past course.old.told) ≡ []) × (course.new ≡ course.old) }
    ensures some { result ≡ true → OneOut (run_setting F.Of.graph F.Of.stack) node (look (run_setting F.Of.graph F.Of.stack) node)
        course.old.told course.new.told }
{
    let Some(name) = course.leave_due(node) else {
        return false;
    };
    pass_on(course, node, name);
    true
}

/// Lets out of the sort list of a node what keeps step or is late, the least first.
pub(crate) fn look<F: Held>(course: &mut Course<F>, node: u32)
    requires node { is_node (run_setting F.Of.graph F.Of.stack) node ≡ true }
    requires sorted { is_sorted (run_setting F.Of.graph F.Of.stack) node ≡ true }
    requires still { course.old.transit ≡ [] }
    requires legal { is_legal (run_setting F.Of.graph F.Of.stack)
        (past (with_all (run_setting F.Of.graph F.Of.stack) 0 2 (look (run_setting F.Of.graph F.Of.stack) node (past course.old.told)) course.old.told))
        ≡ true }
    ensures { course.new ≡ record course.old {
      told = with_all (run_setting F.Of.graph F.Of.stack) 0 2
          (look (run_setting F.Of.graph F.Of.stack) node (past course.old.told)) course.old.told;
    } }
{
    while emit_due(course, node) {}
}
