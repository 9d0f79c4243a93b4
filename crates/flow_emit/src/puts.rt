//! Puts: what becomes of a result.

ghost use Rattle.std.specs.Prelude.{◌≡◌, ◌<◌, ◌≤◌, [], true, false};
ghost use Rattle.board_rules.specs.Moving.{moved};
ghost use Rattle.flow_journal.specs.Setting.{is_node, is_maker, is_sorted, last_role};
ghost use Rattle.flow_journal.specs.Hands.{hand};
ghost use Rattle.flow_journal.specs.Histories.{is_history};
ghost use Rattle.board_rules.specs.InHand.{is_job_on};
ghost use Rattle.flow_journal.specs.ResultNames.{result_name};
ghost use Rattle.board_rules.specs.States.{past, plain};
ghost use Rattle.board_rules.specs.RunMeasures.{run_setting, run_measure};
ghost use Rattle.run_course.specs.Puts.{passes_all, put_of, fires_for};

use crate::emission::emit;
use crate::sorting::put_sorted;
use crate::watching::put_watched;
use flow_journal::Why;
use nd_base::{FrameName, Held, Measure};
use run_course::{Course, NodeWork};

/// The result of a job at a node that makes or passes arrays on and has no sort list: it goes out at once.
fn put_at_once<F: Held>(
    course: &mut Course<F>,
    role: u32,
    node: u32,
    name: FrameName,
    measured: Option<Measure>,
    fired: bool,
)
    requires role { role ≤ last_role (run_setting F.Of.graph F.Of.stack) }
    requires node { is_node (run_setting F.Of.graph F.Of.stack) node ≡ true }
    requires kind { passes_all (run_setting F.Of.graph F.Of.stack) node ≡ true }
    requires unsorted { is_sorted (run_setting F.Of.graph F.Of.stack) node ≡ false }
    requires still { course.old.transit ≡ [] }
    requires history { is_history (run_setting F.Of.graph F.Of.stack) (past course.old.told) ≡ true }
    requires hand { is_job_on node name (hand role (past course.old.told)) ≡ true }
    requires measured { measured ≡ run_measure F.Of.graph F.Of.stack node name }
    requires fired { fired ≡ fires_for (run_setting F.Of.graph F.Of.stack) node name }
    ensures { course.new ≡ record course.old {
      told = moved (run_setting F.Of.graph F.Of.stack)
          (plain (put_of (run_setting F.Of.graph F.Of.stack) role node name fired)) course.old.told;
    } }
{
    let made = course.result_name(node, name);
    course.put_plain(role, node, name, fired);
    emit(course, node, made, Why::Plain, measured);
    if course.is_maker(node) {
        course.release();
    }
}

/// The result of a job of the role is put: it goes out, waits, is kept or is dropped, as its node does, with all that follows.
pub fn put<F: Held>(
    course: &mut Course<F>,
    role: u32,
    node: u32,
    name: FrameName,
    measured: Option<Measure>,
    fired: bool,
)
    requires role { role ≤ last_role (run_setting F.Of.graph F.Of.stack) }
    requires node { is_node (run_setting F.Of.graph F.Of.stack) node ≡ true }
    requires still { course.old.transit ≡ [] }
    requires history { is_history (run_setting F.Of.graph F.Of.stack) (past course.old.told) ≡ true }
    requires hand { is_job_on node name (hand role (past course.old.told)) ≡ true }
    requires measured { measured ≡ run_measure F.Of.graph F.Of.stack node name }
    requires fired { fired ≡ fires_for (run_setting F.Of.graph F.Of.stack) node name }
    ensures { course.new ≡ record course.old {
      told = moved (run_setting F.Of.graph F.Of.stack)
          (plain (put_of (run_setting F.Of.graph F.Of.stack) role node name fired)) course.old.told;
    } }
{
    match course.work(node) {
        NodeWork::Saves { .. } => course.put_to_save(role, node, name, fired),
        NodeWork::Watches { .. } => put_watched(course, role, node, name, fired),
        NodeWork::Makes | NodeWork::Passes | NodeWork::Deals => {
            if course.is_sorted(node) {
                put_sorted(course, role, node, name, measured, fired);
            } else {
                put_at_once(course, role, node, name, measured, fired);
            }
        }
    }
}
