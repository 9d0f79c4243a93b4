//! The workers.

ghost use Rattle.std.specs.Prelude.{◌≡◌, ◌<◌, ◌≤◌, length, IsTrue, true};
ghost use Rattle.std.specs.List.{list_all};
ghost use Rattle.nd_base.specs.GraphRules.{IsGraph};
ghost use Rattle.chain_plain.specs.Plans.{plan_of};
ghost use Rattle.flow_journal.specs.Setting.{is_node, last_role};
ghost use Rattle.flow_journal.specs.Hands.{hand};
ghost use Rattle.board_rules.specs.States.{past, lent_to};
ghost use Rattle.board_rules.specs.InHand.{IsOfHand};
ghost use Rattle.board_rules.specs.RunMeasures.{run_setting};
ghost use Rattle.board_rules.specs.Working.{SettleGives};
ghost use Rattle.flow_roles.specs.Lasts.{said_other, IsActive, HasWanted};
ghost use Rattle.flow_roles.specs.Passes.{Called};
ghost use Rattle.flow_roles.specs.RoleMoves.{worker_logs, IsFresh, HasNothing};
ghost use Rattle.flow_roles.specs.RoleEnds.{worker_ends, HasGone, MayComeBack};
ghost use Rattle.flow_roles.specs.Feeder.{name_of, parts_of};
ghost use Rattle.flow_roles.specs.Worker.{HasJob, HasAskedTake};

use crate::job::result_of;
use crate::measuring::{Crew, has_spare};
use crate::role_end::{Round, ended, nothing};
use crate::{Desk, RoleEnd};
use board_rules::{Settled, Take};
use edge_traits::Gate;
use frame_store::{Blank, Frame};
use nd_base::{Named, Plan, Run, Stack};
use std::alloc::Global;
use std::sync::Wait;
use std::thread::Threads;

/// Works on a job, puts its result, and takes the next array.
fn work_on<R: Run, D: Desk<Frame<R>>, G: Gate, W: Threads + Wait + Sync>(
    crew: &Crew<'_, W>,
    alloc: Global,
    desk: &D,
    pass: &mut D::Pass,
    role: u32,
    node: u32,
    plan: &Plan,
    stack: &Stack,
    gate: &G,
    input: Frame<R>,
    blank: Option<Blank>,
) -> Round<Frame<R>, Take<Frame<R>>>
    requires ours { D.ours desk.now pass.old }
    requires role { role < last_role (run_setting R.graph R.stack) }
    requires plan { plan.now ≡ plan_of R.graph R.stack }
    requires graph { IsGraph R.graph }
    requires stack { stack.now ≡ R.stack }
    requires node { IsTrue (is_node (run_setting R.graph R.stack) node) }
    requires job { HasJob R.graph R.stack role node input blank (D.knows pass.old) }
    requires active { IsActive (D.knows pass.old).said }
    ensures ours { D.ours desk.now pass.new }
    ensures gone { HasGone name_of parts_of length (HasAskedTake (run_setting R.graph R.stack) role node) (worker_logs node) (worker_ends node) role
        (D.knows pass.new) result }
    ensures owned { (D.knows pass.old).said.owned ≡ true → (D.knows pass.new).said.owned ≡ true }
{
    let index = input.name().index;
    gate.before(node, index);
    let result = result_of(crew, alloc, plan, stack, node, input, blank);
    gate.after(node, index);
    match result {
        Ok(done) => {
            let (put, next) = desk.put_take(crew.rt, alloc, pass, role, done, node);
            let Ok(()) = put else { unreachable!() };
            Round::Again(next)
        }
        Err(left) => {
            desk.leave(crew.rt, alloc, pass, role);
            Round::End { left, want: true }
        }
    }
}

/// Tries to settle the node, and waits where that can't be yet.
fn settle_or_wait<R: Run, D: Desk<Frame<R>>, G: Gate, W: Wait>(
    rt: &W,
    alloc: Global,
    desk: &D,
    pass: &mut D::Pass,
    role: u32,
    node: u32,
    gate: &G,
) -> Settled
    requires ours { D.ours desk.now pass.old }
    requires role { role < last_role (run_setting R.graph R.stack) }
    requires node { IsTrue (is_node (run_setting R.graph R.stack) node) }
    requires nothing { HasNothing (worker_logs node) role (D.knows pass.old) }
    ensures ours { D.ours desk.now pass.new }
    ensures nothing { HasNothing (worker_logs node) role (D.knows pass.new) }
    ensures tried { Called (run_setting R.graph R.stack) (λ old new. SettleGives (run_setting R.graph R.stack) old role node result new)
        said_other (D.knows pass.old) (D.knows pass.new) }
{
    let answer = desk.settle(rt, alloc, pass, role, node);
    if answer == Settled::NotYet {
        gate.idle();
    }
    answer
}

/// What a take asks for, and the next take.
fn work_round<R: Run, D: Desk<Frame<R>>, G: Gate, W: Threads + Wait + Sync>(
    crew: &Crew<'_, W>,
    alloc: Global,
    desk: &D,
    pass: &mut D::Pass,
    role: u32,
    node: u32,
    plan: &Plan,
    stack: &Stack,
    gate: &G,
    answer: Take<Frame<R>>,
) -> Round<Frame<R>, Take<Frame<R>>>
    requires ours { D.ours desk.now pass.old }
    requires role { role < last_role (run_setting R.graph R.stack) }
    requires plan { plan.now ≡ plan_of R.graph R.stack }
    requires graph { IsGraph R.graph }
    requires stack { stack.now ≡ R.stack }
    requires node { IsTrue (is_node (run_setting R.graph R.stack) node) }
    requires asked { HasAskedTake (run_setting R.graph R.stack) role node answer (D.knows pass.old) }
    ensures ours { D.ours desk.now pass.new }
    ensures gone { HasGone name_of parts_of length (HasAskedTake (run_setting R.graph R.stack) role node) (worker_logs node) (worker_ends node) role
        (D.knows pass.new) result }
    ensures owned { (D.knows pass.old).said.owned ≡ true → (D.knows pass.new).said.owned ≡ true }
{
    match answer {
        Take::Left => ended(),
        Take::Ended => ended(),
        Take::Busy => unreachable!(),
        Take::Idle => {
            settle_or_wait::<R, D, G, W>(crew.rt, alloc, desk, pass, role, node, gate);
            Round::Again(desk.take(crew.rt, alloc, pass, role, node))
        }
        Take::PoolDrop { .. } => Round::Again(desk.take(crew.rt, alloc, pass, role, node)),
        Take::OutOfMemory => {
            desk.leave(crew.rt, alloc, pass, role);
            Round::End {
                left: nothing(),
                want: true,
            }
        }
        Take::Job {
            node: _,
            input,
            blank,
        } => work_on(
            crew, alloc, desk, pass, role, node, plan, stack, gate, input, blank,
        ),
    }
}

/// Works at a node: takes the next array of its queue, makes, measures or judges it outside the lock, and puts the result together
/// with the next take, until the node is settled, another role has left, or memory is wanting. Where nothing is queued, it tries to settle the node.
pub fn work_role<R: Run, D: Desk<Frame<R>>, G: Gate, W: Threads + Wait + Sync>(
    rt: &W,
    alloc: Global,
    desk: &D,
    pass: D::Pass,
    role: u32,
    node: u32,
    plan: &Plan,
    stack: &Stack,
    gate: &G,
) -> RoleEnd<Frame<R>, D::Pass>
    requires ours { D.ours desk.now pass }
    requires fresh { IsFresh role (D.knows pass) }
    requires role { (1 ≤ role) × (role < last_role (run_setting R.graph R.stack)) }
    requires node { IsTrue (is_node (run_setting R.graph R.stack) node) }
    requires plan { plan.now ≡ plan_of R.graph R.stack }
    requires graph { IsGraph R.graph }
    requires stack { stack.now ≡ R.stack }
    ensures ours { D.ours desk.now result.pass }
    ensures role { (D.knows result.pass).role ≡ role }
    ensures moves { list_all (worker_logs node) (past (D.knows result.pass).made) ≡ true }
    ensures owned { (D.knows result.pass).said.owned ≡ true }
    ensures wanted { HasWanted (D.knows result.pass).said }
    ensures last { IsTrue (worker_ends node (D.knows result.pass).said.last (past (D.knows result.pass).seen) result.want) }
    ensures left { IsOfHand name_of parts_of length (lent_to role (D.knows result.pass).made) (hand role (past (D.knows result.pass).made))
        result.left.input result.left.made result.left.blank }
    ensures reclaimed { MayComeBack name_of parts_of length (run_setting R.graph R.stack) role (D.knows result.pass).made result.left }
{
    let crew = Crew {
        rt,
        spare: has_spare(rt, plan),
    };
    let mut pass = pass;
    let mut answer = desk.take(rt, alloc, &mut pass, role, node);
    for _ in rt.forever() {
        match work_round(
            &crew, alloc, desk, &mut pass, role, node, plan, stack, gate, answer,
        ) {
            Round::Again(next) => answer = next,
            Round::End { left, want } => return RoleEnd { pass, left, want },
        }
    }
    unreachable!()
}
