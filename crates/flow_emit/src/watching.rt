//! Puts at circular nodes.

ghost use Rattle.std.specs.Prelude.{◌≡◌, ◌<◌, ◌≤◌, [], true, length, drop, take};
ghost use Rattle.nd_base.specs.declared.frame.FrameName.{FrameName};
ghost use Rattle.flow_journal.specs.Setting.{is_node, last_role};
ghost use Rattle.flow_journal.specs.Hands.{hand};
ghost use Rattle.flow_journal.specs.Histories.{is_legal, is_history};
ghost use Rattle.board_rules.specs.InHand.{is_job_on};
ghost use Rattle.board_rules.specs.Moving.{moved, with_all};
ghost use Rattle.board_rules.specs.States.{past, plain};
ghost use Rattle.board_rules.specs.RunMeasures.{run_setting};
ghost use Rattle.run_course.specs.Puts.{put_of, fires_for, watches};
ghost use Rattle.run_course.specs.Watched.{ring_outs};

use crate::emission::emit;
use flow_journal::Why;
use nd_base::{FrameName, Held};
use run_course::{Course, Watched};

/// The next array on its way goes out of a circular node.
fn let_next_out<F: Held>(course: &mut Course<F>, node: u32)
    requires node { is_node (run_setting F.Of.graph F.Of.stack) node ≡ true }
    requires kind { watches (run_setting F.Of.graph F.Of.stack) node ≡ true }
    requires some { 0 < length course.old.transit }
    requires legal { is_legal (run_setting F.Of.graph F.Of.stack)
        (past (with_all (run_setting F.Of.graph F.Of.stack) 0 2 (ring_outs node course.old.transit) course.old.told)) ≡ true }
    ensures { course.new ≡ record course.old {
      told = with_all (run_setting F.Of.graph F.Of.stack) 0 2 (take 1 (ring_outs node course.old.transit)) course.old.told;
      transit = drop 1 course.old.transit;
    } }
{
    let name = course.next_moving();
    let why = if course.moving() > 1 {
        Why::Ring
    } else {
        Why::Now
    };
    emit(course, node, name, why, None);
}

/// What is on its way goes out of a circular node: arrays of its ring, and behind them the newest one.
fn let_ring_out<F: Held>(course: &mut Course<F>, node: u32)
    requires node { is_node (run_setting F.Of.graph F.Of.stack) node ≡ true }
    requires kind { watches (run_setting F.Of.graph F.Of.stack) node ≡ true }
    requires legal { is_legal (run_setting F.Of.graph F.Of.stack)
        (past (with_all (run_setting F.Of.graph F.Of.stack) 0 2 (ring_outs node course.old.transit) course.old.told)) ≡ true }
    ensures { course.new ≡ record course.old {
      told = with_all (run_setting F.Of.graph F.Of.stack) 0 2 (ring_outs node course.old.transit) course.old.told;
      transit = [];
    } }
{
    while course.moving() > 0 {
        let_next_out(course, node);
    }
}

/// The result of a job at a circular node, and what then goes out of its ring.
pub(crate) fn put_watched<F: Held>(
    course: &mut Course<F>,
    role: u32,
    node: u32,
    name: FrameName,
    fired: bool,
)
    requires role { role ≤ last_role (run_setting F.Of.graph F.Of.stack) }
    requires node { is_node (run_setting F.Of.graph F.Of.stack) node ≡ true }
    requires kind { watches (run_setting F.Of.graph F.Of.stack) node ≡ true }
    requires still { course.old.transit ≡ [] }
    requires history { is_history (run_setting F.Of.graph F.Of.stack) (past course.old.told) ≡ true }
    requires hand { is_job_on node name (hand role (past course.old.told)) ≡ true }
    requires fired { fired ≡ fires_for (run_setting F.Of.graph F.Of.stack) node name }
    ensures { course.new ≡ record course.old {
      told = moved (run_setting F.Of.graph F.Of.stack)
          (plain (put_of (run_setting F.Of.graph F.Of.stack) role node name fired)) course.old.told;
    } }
{
    match course.put_in_ring(role, node, name, fired) {
        Watched::Kept => {}
        Watched::LetGo => course.release(),
        Watched::Out => let_ring_out(course, node),
    }
}
