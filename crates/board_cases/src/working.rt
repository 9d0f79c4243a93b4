//! The calls of a worker.

ghost use Rattle.std.specs.Prelude.{◌≡◌, ◌<◌, IsTrue, OnOk};
ghost use Rattle.nd_base.specs.GraphRules.{IsGraph};
ghost use Rattle.chain_plain.specs.Plans.{plan_of};
ghost use Rattle.flow_journal.specs.Setting.{last_role, is_node};
ghost use Rattle.board_rules.specs.RunMeasures.{run_setting};
ghost use Rattle.flow_roles.specs.RoleMoves.{worker_logs, HasNothing};
ghost use Rattle.flow_roles.specs.Worker.{HasJob};
ghost use Rattle.board_cases.specs.Seats.{IsWorking};
ghost use Rattle.board_cases.specs.Hands.{is_still_take, job_of};

use crate::line::WorkCall;
use crate::printing::{settled_text, take_text};
use crate::seats::{Job, Worker};
use anyhow::{Result, bail};
use board_rules::{Settled, Take};
use flow_roles::{Alone, Desk, result_of};
use frame_store::{Blank, Frame};
use nd_base::{Plan, Run, Stack};
use std::alloc::Global;
use std::sync::Wait;

/// Whether a take changed nothing.
fn is_still<R: Run>(answer: &Take<Frame<R>>) -> bool
    ensures { result ≡ is_still_take answer.now }
{
    !matches!(answer, Take::PoolDrop { .. } | Take::Job { .. })
}

/// The array that was taken, if one was.
fn taken_job<R: Run>(answer: Take<Frame<R>>) -> Option<Job<Frame<R>>>
    ensures { result ≡ job_of answer }
{
    match answer {
        Take::Job {
            node: _,
            input,
            blank,
        } => Some(Job { input, blank }),
        _ => None,
    }
}

/// Takes the next array.
fn take<R: Run, D: Desk<Frame<R>>, W: Wait>(
    rt: &W,
    alloc: Global,
    desk: &D,
    role: u32,
    worker: &mut Worker<Frame<R>, D::Pass>,
) -> Result<String>
    requires role { role < last_role (run_setting R.graph R.stack) }
    requires graph { IsGraph R.graph }
    requires working { IsWorking (D.ours desk.now) D.knows R.graph R.stack role worker.old }
    ensures { OnOk result (IsWorking (D.ours desk.now) D.knows R.graph R.stack role worker.new) }
{
    let answer = desk.take(rt, alloc, &mut worker.pass, role, worker.node);
    let text = take_text(alloc, &answer)?;
    if is_still(&answer) {
        return Ok(text);
    }
    if worker.job.is_some() {
        bail!("an array is taken before the one before it is put");
    }
    worker.job = taken_job(answer);
    Ok(text)
}

/// Works on a job and puts its result.
fn put_job<R: Run, D: Desk<Frame<R>>, W: Wait>(
    rt: &W,
    alloc: Global,
    desk: &D,
    pass: &mut D::Pass,
    role: u32,
    node: u32,
    plan: &Plan,
    stack: &Stack,
    input: Frame<R>,
    blank: Option<Blank>,
) -> Result<()>
    requires ours { D.ours desk.now pass.old }
    requires role { role < last_role (run_setting R.graph R.stack) }
    requires plan { plan.now ≡ plan_of R.graph R.stack }
    requires graph { IsGraph R.graph }
    requires stack { stack.now ≡ R.stack }
    requires node { IsTrue (is_node (run_setting R.graph R.stack) node) }
    requires job { HasJob R.graph R.stack role node input blank (D.knows pass.old) }
    ensures ours { OnOk result (D.ours desk.now pass.new) }
    ensures put { OnOk result (HasNothing (worker_logs node) role (D.knows pass.new)) }
{
    let Ok(done) = result_of(&Alone, alloc, plan, stack, node, input, blank) else {
        bail!("out of memory");
    };
    match desk.put(rt, alloc, pass, role, done) {
        Ok(()) => Ok(()),
        Err(_) => bail!("the job isn't that of the worker"),
    }
}

/// Puts the result of the array that was taken.
fn put<R: Run, D: Desk<Frame<R>>, W: Wait>(
    rt: &W,
    alloc: Global,
    desk: &D,
    role: u32,
    worker: &mut Worker<Frame<R>, D::Pass>,
    plan: &Plan,
    stack: &Stack,
) -> Result<String>
    requires role { role < last_role (run_setting R.graph R.stack) }
    requires plan { plan.now ≡ plan_of R.graph R.stack }
    requires graph { IsGraph R.graph }
    requires stack { stack.now ≡ R.stack }
    requires working { IsWorking (D.ours desk.now) D.knows R.graph R.stack role worker.old }
    ensures { OnOk result (IsWorking (D.ours desk.now) D.knows R.graph R.stack role worker.new) }
{
    let Some(Job { input, blank }) = worker.job.take() else {
        bail!("no array was taken");
    };
    let node = worker.node;
    put_job(
        rt,
        alloc,
        desk,
        &mut worker.pass,
        role,
        node,
        plan,
        stack,
        input,
        blank,
    )?;
    Ok(String::from_str(alloc, "put")?)
}

/// Settles the node.
fn settle<R: Run, D: Desk<Frame<R>>, W: Wait>(
    rt: &W,
    alloc: Global,
    desk: &D,
    role: u32,
    worker: &mut Worker<Frame<R>, D::Pass>,
) -> Result<String>
    requires role { role < last_role (run_setting R.graph R.stack) }
    requires working { IsWorking (D.ours desk.now) D.knows R.graph R.stack role worker.old }
    ensures { OnOk result (IsWorking (D.ours desk.now) D.knows R.graph R.stack role worker.new) }
{
    let answer = desk.settle(rt, alloc, &mut worker.pass, role, worker.node);
    let text = settled_text(alloc, answer)?;
    match answer {
        Settled::NotYet => Ok(text),
        Settled::Done => {
            if worker.job.is_some() {
                bail!("the node is settled while an array is worked on");
            }
            Ok(text)
        }
    }
}

/// The worker leaves.
fn leave<R: Run, D: Desk<Frame<R>>, W: Wait>(
    rt: &W,
    alloc: Global,
    desk: &D,
    role: u32,
    worker: &mut Worker<Frame<R>, D::Pass>,
)
    requires role { role < last_role (run_setting R.graph R.stack) }
    requires working { IsWorking (D.ours desk.now) D.knows R.graph R.stack role worker.old }
    ensures { IsWorking (D.ours desk.now) D.knows R.graph R.stack role worker.new }
{
    desk.leave(rt, alloc, &mut worker.pass, role);
}

/// Makes a call of a worker, and tells what it answered.
pub fn work<R: Run, D: Desk<Frame<R>>, W: Wait>(
    rt: &W,
    alloc: Global,
    desk: &D,
    role: u32,
    worker: &mut Worker<Frame<R>, D::Pass>,
    plan: &Plan,
    stack: &Stack,
    call: WorkCall,
) -> Result<String>
    requires role { role < last_role (run_setting R.graph R.stack) }
    requires plan { plan.now ≡ plan_of R.graph R.stack }
    requires graph { IsGraph R.graph }
    requires stack { stack.now ≡ R.stack }
    requires working { IsWorking (D.ours desk.now) D.knows R.graph R.stack role worker.old }
    ensures { OnOk result (IsWorking (D.ours desk.now) D.knows R.graph R.stack role worker.new) }
{
    match call {
        WorkCall::Take => take(rt, alloc, desk, role, worker),
        WorkCall::Put => put(rt, alloc, desk, role, worker, plan, stack),
        WorkCall::Settle => settle(rt, alloc, desk, role, worker),
        WorkCall::Leave => {
            leave(rt, alloc, desk, role, worker);
            Ok(String::from_str(alloc, "done")?)
        }
    }
}
