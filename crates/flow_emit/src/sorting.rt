//! Puts at nodes with a sort list.

ghost use Rattle.std.specs.Prelude.{◌≡◌, ◌<◌, ◌≤◌, [], true};
ghost use Rattle.flow_journal.specs.Setting.{is_node, is_sorted, last_role};
ghost use Rattle.flow_journal.specs.Hands.{hand};
ghost use Rattle.flow_journal.specs.Histories.{is_history};
ghost use Rattle.nd_base.specs.declared.measure.Measure.{Measure};
ghost use Rattle.board_rules.specs.InHand.{is_job_on};
ghost use Rattle.board_rules.specs.Moving.{moved};
ghost use Rattle.board_rules.specs.States.{past, plain};
ghost use Rattle.board_rules.specs.RunMeasures.{run_setting, run_measure};
ghost use Rattle.run_course.specs.Puts.{put_of, fires_for, inputs};

use crate::emission::pass_on;
use crate::looks::look;
use nd_base::{FrameName, Held, Measure};
use run_course::{Course, Placement};

/// Lets go of the array of a job, where its result was made of it.
fn release_input<F: Held>(course: &mut Course<F>, node: u32, name: FrameName)
    requires node { is_node (run_setting F.Of.graph F.Of.stack) node ≡ true }
    requires input { course.old.transit ≡ inputs (run_setting F.Of.graph F.Of.stack) node name }
    ensures { course.new ≡ record course.old { transit = [] } }
{
    if course.is_maker(node) {
        course.release();
    }
}

/// The result of a job at a node with a sort list, and what then goes out of the list.
pub(crate) fn put_sorted<F: Held>(
    course: &mut Course<F>,
    role: u32,
    node: u32,
    name: FrameName,
    measured: Option<Measure>,
    fired: bool,
)
    requires role { role ≤ last_role (run_setting F.Of.graph F.Of.stack) }
    requires node { is_node (run_setting F.Of.graph F.Of.stack) node ≡ true }
    requires sorted { is_sorted (run_setting F.Of.graph F.Of.stack) node ≡ true }
    requires still { course.old.transit ≡ [] }
    requires history { is_history (run_setting F.Of.graph F.Of.stack) (past course.old.told) ≡ true }
    requires hand { is_job_on node name (hand role (past course.old.told)) ≡ true }
    requires measured { measured ≡ run_measure F.Of.graph F.Of.stack node name }
    requires fired { fired ≡ fires_for (run_setting F.Of.graph F.Of.stack) node name }
    ensures { course.new ≡ record course.old {
      told = moved (run_setting F.Of.graph F.Of.stack)
          (plain (put_of (run_setting F.Of.graph F.Of.stack) role node name fired)) course.old.told;
    } }
{
    let made = course.result_name(node, name);
    match course.put_placed(role, node, name, measured, fired) {
        Placement::Out => pass_on(course, node, made),
        Placement::Waits => {}
        Placement::Full => course.release(),
    }
    release_input(course, node, name);
    look(course, node);
}
