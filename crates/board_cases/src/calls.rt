//! Makes the calls of a list.

ghost use Rattle.std.specs.Prelude.{◌≡◌, OnOk};
ghost use Rattle.nd_base.specs.GraphRules.{IsGraph};
ghost use Rattle.chain_plain.specs.Plans.{plan_of};
ghost use Rattle.flow_journal.specs.Setting.{last_role};
ghost use Rattle.board_rules.specs.RunMeasures.{run_setting};
ghost use Rattle.board_cases.specs.Seats.{AreSeated};

use crate::feeding::feed;
use crate::line::{Call, NamedCall, WorkCall};
use crate::saving::keep;
use crate::seats::Seats;
use crate::working::work;
use anyhow::{Result, bail};
use flow_roles::Desk;
use frame_store::Frame;
use nd_base::{Plan, Run, Stack};
use std::alloc::Global;
use std::sync::Wait;

/// Makes a call of the worker of this role.
fn work_as<R: Run, D: Desk<Frame<R>>, W: Wait>(
    rt: &W,
    alloc: Global,
    desk: &D,
    role: u32,
    seats: &mut Seats<Frame<R>, D::Pass>,
    plan: &Plan,
    stack: &Stack,
    call: WorkCall,
) -> Result<String>
    requires plan { plan.now ≡ plan_of R.graph R.stack }
    requires graph { IsGraph R.graph }
    requires stack { stack.now ≡ R.stack }
    requires seated { AreSeated (D.ours desk.now) D.knows R.graph R.stack seats.old }
    ensures { OnOk result (AreSeated (D.ours desk.now) D.knows R.graph R.stack seats.new) }
{
    if role == 0 || role as usize > seats.workers.len() {
        bail!("no worker has role {role}");
    }
    let worker = &mut seats.workers[role as usize - 1];
    work(rt, alloc, desk, role, worker, plan, stack, call)
}

/// Makes a call, and tells what it answered.
fn make<R: Run, D: Desk<Frame<R>>, W: Wait>(
    rt: &W,
    alloc: Global,
    desk: &D,
    last: u32,
    seats: &mut Seats<Frame<R>, D::Pass>,
    plan: &Plan,
    stack: &Stack,
    call: Call,
) -> Result<String>
    requires last { last ≡ last_role (run_setting R.graph R.stack) }
    requires plan { plan.now ≡ plan_of R.graph R.stack }
    requires graph { IsGraph R.graph }
    requires stack { stack.now ≡ R.stack }
    requires seated { AreSeated (D.ours desk.now) D.knows R.graph R.stack seats.old }
    ensures { OnOk result (AreSeated (D.ours desk.now) D.knows R.graph R.stack seats.new) }
{
    match call {
        Call::Feed(call) => feed::<R, D, W>(rt, alloc, desk, &mut seats.feeder, stack, call),
        Call::Work { role, call } => work_as(rt, alloc, desk, role, seats, plan, stack, call),
        Call::Save(call) => keep(rt, alloc, desk, last, &mut seats.saver, plan, call),
    }
}

/// Makes calls, and prints what each answers.
pub fn make_all<R: Run, D: Desk<Frame<R>>, W: Print + Wait>(
    rt: &W,
    alloc: Global,
    desk: &D,
    last: u32,
    seats: &mut Seats<Frame<R>, D::Pass>,
    plan: &Plan,
    stack: &Stack,
    calls: &[NamedCall],
) -> Result<()>
    requires last { last ≡ last_role (run_setting R.graph R.stack) }
    requires plan { plan.now ≡ plan_of R.graph R.stack }
    requires graph { IsGraph R.graph }
    requires stack { stack.now ≡ R.stack }
    requires seated { AreSeated (D.ours desk.now) D.knows R.graph R.stack seats.old }
    ensures { OnOk result (AreSeated (D.ours desk.now) D.knows R.graph R.stack seats.new) }
{
    for NamedCall { line, call } in calls {
        let answer = make(rt, alloc, desk, last, seats, plan, stack, *call)?;
        println!(rt; "{line}: {answer}")?;
    }
    Ok(())
}
