//! Nodes that are settled: what waits there goes out, and what is kept for a window to come is given up.

ghost use Rattle.std.specs.Prelude.{◌≡◌, ◌<◌, ◌≤◌, [], Some, true, false};
ghost use Rattle.flow_journal.specs.declared.entry.Entry.TheVariants.{Settle};
ghost use Rattle.flow_journal.specs.Setting.{is_node, is_sorted, last_role};
ghost use Rattle.flow_journal.specs.Ended.{is_settled};
ghost use Rattle.flow_journal.specs.Histories.{is_legal, is_history};
ghost use Rattle.board_rules.specs.States.{past, plain};
ghost use Rattle.board_rules.specs.Moving.{moved, with_all};
ghost use Rattle.board_rules.specs.Working.{waits_to_settle};
ghost use Rattle.board_rules.specs.RunMeasures.{run_setting};
ghost use Rattle.run_course.specs.Puts.{watches};
ghost use Rattle.run_course.specs.Leaving.{flush};
ghost use Rattle.flow_emit.specs.Outs.{OneOut};

use crate::emission::pass_on;
use nd_base::Held;
use run_course::{Course, NodeWork};

/// The node is settled. What waits there goes out, the least first, and what it keeps for a window to come is given up.
pub fn settle<F: Held>(course: &mut Course<F>, role: u32, node: u32)
    requires still { course.old.transit ≡ [] }
    requires role { role ≤ last_role (run_setting F.Of.graph F.Of.stack) }
    requires node { is_node (run_setting F.Of.graph F.Of.stack) node ≡ true }
    requires history { is_history (run_setting F.Of.graph F.Of.stack) (past course.old.told) ≡ true }
    requires ready { waits_to_settle (run_setting F.Of.graph F.Of.stack) node (past course.old.told) ≡ false }
    requires unsettled { is_settled node (past course.old.told) ≡ false }
    ensures { course.new ≡ record course.old { told = moved (run_setting F.Of.graph F.Of.stack) (plain (Settle role node)) course.old.told } }
{
    match course.work(node) {
        NodeWork::Watches { .. } => settle_circular(course, role, node),
        NodeWork::Makes | NodeWork::Passes | NodeWork::Deals | NodeWork::Saves { .. } => {
            settle_plain(course, role, node);
        }
    }
}

/// A circular node is settled, and gives up its ring.
fn settle_circular<F: Held>(course: &mut Course<F>, role: u32, node: u32)
    requires still { course.old.transit ≡ [] }
    requires role { role ≤ last_role (run_setting F.Of.graph F.Of.stack) }
    requires node { is_node (run_setting F.Of.graph F.Of.stack) node ≡ true }
    requires kind { watches (run_setting F.Of.graph F.Of.stack) node ≡ true }
    requires history { is_history (run_setting F.Of.graph F.Of.stack) (past course.old.told) ≡ true }
    requires ready { waits_to_settle (run_setting F.Of.graph F.Of.stack) node (past course.old.told) ≡ false }
    requires unsettled { is_settled node (past course.old.told) ≡ false }
    ensures { course.new ≡ record course.old { told = moved (run_setting F.Of.graph F.Of.stack) (plain (Settle role node)) course.old.told } }
{
    course.note_ring(role, node);
    release_all(course);
}

/// Lets go of the holds of all arrays on their way.
fn release_all<F: Held>(course: &mut Course<F>)
    ensures { course.new ≡ record course.old { transit = [] } }
{
    while course.moving() > 0 {
        course.release();
    }
}

/// A node that keeps nothing for a window to come is settled, and what waits there goes out.
fn settle_plain<F: Held>(course: &mut Course<F>, role: u32, node: u32)
    requires still { course.old.transit ≡ [] }
    requires role { role ≤ last_role (run_setting F.Of.graph F.Of.stack) }
    requires node { is_node (run_setting F.Of.graph F.Of.stack) node ≡ true }
    requires kind { watches (run_setting F.Of.graph F.Of.stack) node ≡ false }
    requires history { is_history (run_setting F.Of.graph F.Of.stack) (past course.old.told) ≡ true }
    requires ready { waits_to_settle (run_setting F.Of.graph F.Of.stack) node (past course.old.told) ≡ false }
    requires unsettled { is_settled node (past course.old.told) ≡ false }
    ensures { course.new ≡ record course.old { told = moved (run_setting F.Of.graph F.Of.stack) (plain (Settle role node)) course.old.told } }
{
    course.note_settle(role, node);
    if course.is_sorted(node) {
        flush(course, node);
    }
}

/// Lets all that waits out of the sort list of a node, the least first.
fn flush<F: Held>(course: &mut Course<F>, node: u32)
    requires node { is_node (run_setting F.Of.graph F.Of.stack) node ≡ true }
    requires sorted { is_sorted (run_setting F.Of.graph F.Of.stack) node ≡ true }
    requires still { course.old.transit ≡ [] }
    requires legal { is_legal (run_setting F.Of.graph F.Of.stack)
        (past (with_all (run_setting F.Of.graph F.Of.stack) 0 2 (flush (run_setting F.Of.graph F.Of.stack) node (past course.old.told)) course.old.told))
        ≡ true }
    ensures { course.new ≡ record course.old {
      told = with_all (run_setting F.Of.graph F.Of.stack) 0 2
          (flush (run_setting F.Of.graph F.Of.stack) node (past course.old.told)) course.old.told;
    } }
{
    while emit_least(course, node) {}
}

/// Lets the least waiting one out of the sort list of a node, and tells whether one went out.
fn emit_least<F: Held>(course: &mut Course<F>, node: u32) -> bool
    requires node { is_node (run_setting F.Of.graph F.Of.stack) node ≡ true }
    requires sorted { is_sorted (run_setting F.Of.graph F.Of.stack) node ≡ true }
    requires still { course.old.transit ≡ [] }
    requires legal { is_legal (run_setting F.Of.graph F.Of.stack)
        (past (with_all (run_setting F.Of.graph F.Of.stack) 0 2 (flush (run_setting F.Of.graph F.Of.stack) node (past course.old.told)) course.old.told))
        ≡ true }
    ensures still { course.new.transit ≡ [] }
    ensures none { result ≡ false → (flush (run_setting F.Of.graph F.Of.stack) node (past course.old.told) ≡ []) × (course.new ≡ course.old) }
    ensures some { result ≡ true → OneOut (run_setting F.Of.graph F.Of.stack) node (flush (run_setting F.Of.graph F.Of.stack) node)
        course.old.told course.new.told }
{
    let Some(name) = course.leave_least(node) else {
        return false;
    };
    pass_on(course, node, name);
    true
}
