//! Roles that get no thread.

ghost use Rattle.std.specs.Prelude.{◌≡◌, ◌<◌, ◌≤◌, Option, length, IsTrue, true};
ghost use Rattle.std.specs.List.{list_all};
ghost use Rattle.edge_traits.specs.Ticks.{Coming};
ghost use Rattle.flow_journal.specs.Setting.{last_role};
ghost use Rattle.flow_journal.specs.Hands.{hand};
ghost use Rattle.board_rules.specs.States.{past, lent_to};
ghost use Rattle.board_rules.specs.InHand.{IsOfHand};
ghost use Rattle.board_rules.specs.RunMeasures.{run_setting};
ghost use Rattle.flow_roles.specs.Lasts.{HasWanted};
ghost use Rattle.flow_roles.specs.RoleMoves.{feeder_logs, worker_logs, IsFresh};
ghost use Rattle.flow_roles.specs.RoleEnds.{feeder_ends, worker_ends, MayComeBack};
ghost use Rattle.flow_roles.specs.Feeder.{name_of, parts_of};
ghost use Rattle.flow_roles.specs.FeederTicks.{FeedsByTheClock};

use crate::feeding::FEEDER;
use crate::role_end::nothing;
use crate::{Desk, RoleEnd};
use frame_store::Frame;
use nd_base::Run;
use std::alloc::Global;
use std::sync::Wait;

/// Leaves in place of feeding, as [`feed_role`](crate::feed_role) does where memory is wanting.
pub fn leave_feed<R: Run, D: Desk<Frame<R>>, W: Wait>(
    rt: &W,
    alloc: Global,
    desk: &D,
    pass: D::Pass,
) -> RoleEnd<Frame<R>, D::Pass>
    requires ours { D.ours desk.now pass }
    requires fresh { IsFresh 0 (D.knows pass) }
    ensures ours { D.ours desk.now result.pass }
    ensures role { (D.knows result.pass).role ≡ 0 }
    ensures moves { list_all feeder_logs (past (D.knows result.pass).made) ≡ true }
    ensures owned { (D.knows result.pass).said.owned ≡ true }
    ensures wanted { HasWanted (D.knows result.pass).said }
    ensures last { IsTrue (feeder_ends (D.knows result.pass).said.last (past (D.knows result.pass).seen) result.want) }
    ensures left { IsOfHand name_of parts_of length (lent_to 0 (D.knows result.pass).made) (hand 0 (past (D.knows result.pass).made))
        result.left.input result.left.made result.left.blank }
    ensures reclaimed { MayComeBack name_of parts_of length (run_setting R.graph R.stack) 0 (D.knows result.pass).made result.left }
    ensures ticks { (coming : Option Coming) → FeedsByTheClock (run_setting R.graph R.stack) (D.knows pass) (D.knows result.pass) coming coming }
{
    let mut pass = pass;
    desk.leave(rt, alloc, &mut pass, FEEDER);
    RoleEnd {
        pass,
        left: nothing(),
        want: true,
    }
}

/// Leaves in place of working, as [`work_role`](crate::work_role) does where memory is wanting.
pub fn leave_work<R: Run, D: Desk<Frame<R>>, W: Wait>(
    rt: &W,
    alloc: Global,
    desk: &D,
    pass: D::Pass,
    role: u32,
    node: u32,
) -> RoleEnd<Frame<R>, D::Pass>
    requires ours { D.ours desk.now pass }
    requires fresh { IsFresh role (D.knows pass) }
    requires role { (1 ≤ role) × (role < last_role (run_setting R.graph R.stack)) }
    ensures ours { D.ours desk.now result.pass }
    ensures role { (D.knows result.pass).role ≡ role }
    ensures moves { list_all (worker_logs node) (past (D.knows result.pass).made) ≡ true }
    ensures owned { (D.knows result.pass).said.owned ≡ true }
    ensures wanted { HasWanted (D.knows result.pass).said }
    ensures last { IsTrue (worker_ends node (D.knows result.pass).said.last (past (D.knows result.pass).seen) result.want) }
    ensures left { IsOfHand name_of parts_of length (lent_to role (D.knows result.pass).made) (hand role (past (D.knows result.pass).made))
        result.left.input result.left.made result.left.blank }
    ensures reclaimed { MayComeBack name_of parts_of length (run_setting R.graph R.stack) role (D.knows result.pass).made result.left }
{
    let mut pass = pass;
    desk.leave(rt, alloc, &mut pass, role);
    RoleEnd {
        pass,
        left: nothing(),
        want: true,
    }
}
