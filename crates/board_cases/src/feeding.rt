//! The calls of the feeder.

ghost use Rattle.std.specs.Prelude.{◌≡◌, ◌<◌, length, OnOk};
ghost use Rattle.flow_journal.specs.Setting.{last_role};
ghost use Rattle.board_rules.specs.RunMeasures.{run_setting};
ghost use Rattle.flow_roles.specs.RoleMoves.{feeder_logs, HasNothing};
ghost use Rattle.flow_roles.specs.Feeder.{HasLoaded};
ghost use Rattle.board_cases.specs.Seats.{IsFeeding};
ghost use Rattle.board_cases.specs.Hands.{is_still_load, frame_of};

use crate::line::FeedCall;
use crate::printing::{load_text, settled_text};
use crate::seats::{Feeder, LoadedFrame};
use anyhow::{Result, bail};
use board_rules::{Load, Settled};
use flow_roles::{Desk, frame_on};
use frame_store::{Blank, Frame};
use nd_base::{Run, Stack};
use std::alloc::Global;
use std::sync::Wait;

/// The feeder's role.
const FEEDER: u32 = 0;

/// Whether a load changed nothing.
fn is_still(answer: &Load<Blank>) -> bool
    ensures { result ≡ is_still_load answer.now }
{
    !matches!(answer, Load::Refused { .. } | Load::Loaded { .. })
}

/// The frame that was loaded, if one was.
fn loaded_frame(answer: Load<Blank>) -> Option<LoadedFrame>
    ensures { result ≡ frame_of answer }
{
    match answer {
        Load::Loaded { index, blank } => Some(LoadedFrame { index, blank }),
        _ => None,
    }
}

/// Loads the next frame.
fn load<R: Run, D: Desk<Frame<R>>, W: Wait>(
    rt: &W,
    alloc: Global,
    desk: &D,
    feeder: &mut Feeder<D::Pass>,
    tick: u64,
) -> Result<String>
    requires { IsFeeding (D.ours desk.now) D.knows R.graph R.stack feeder.old }
    ensures { OnOk result (IsFeeding (D.ours desk.now) D.knows R.graph R.stack feeder.new) }
{
    let answer = desk.load(rt, alloc, &mut feeder.pass, FEEDER, tick);
    let text = load_text(alloc, &answer)?;
    if is_still(&answer) {
        return Ok(text);
    }
    if feeder.frame.is_some() {
        bail!("a frame is loaded before the one before it is issued");
    }
    feeder.frame = loaded_frame(answer);
    Ok(text)
}

/// Fills the loaded frame and issues it.
fn issue_frame<R: Run, D: Desk<Frame<R>>, W: Wait>(
    rt: &W,
    alloc: Global,
    desk: &D,
    pass: &mut D::Pass,
    stack: &Stack,
    index: u32,
    blank: Blank,
) -> Result<()>
    requires ours { D.ours desk.now pass.old }
    requires stack { stack.now ≡ R.stack }
    requires loaded { HasLoaded (run_setting R.graph R.stack) index (length blank) (D.knows pass.old) }
    ensures ours { D.ours desk.now pass.new }
    ensures issued { OnOk result (HasNothing feeder_logs 0 (D.knows pass.new)) }
{
    let frame = frame_on::<R>(stack, index, blank);
    match desk.issue(rt, alloc, pass, FEEDER, frame) {
        Ok(()) => Ok(()),
        Err(_) => bail!("the frame isn't that of the feeder"),
    }
}

/// Issues the frame that was loaded.
fn issue<R: Run, D: Desk<Frame<R>>, W: Wait>(
    rt: &W,
    alloc: Global,
    desk: &D,
    feeder: &mut Feeder<D::Pass>,
    stack: &Stack,
) -> Result<String>
    requires stack { stack.now ≡ R.stack }
    requires feeding { IsFeeding (D.ours desk.now) D.knows R.graph R.stack feeder.old }
    ensures { OnOk result (IsFeeding (D.ours desk.now) D.knows R.graph R.stack feeder.new) }
{
    let Some(LoadedFrame { index, blank }) = feeder.frame.take() else {
        bail!("no frame is loaded");
    };
    issue_frame::<R, D, W>(rt, alloc, desk, &mut feeder.pass, stack, index, blank)?;
    Ok(String::from_str(alloc, "issued")?)
}

/// Closes the feed.
fn close<R: Run, D: Desk<Frame<R>>, W: Wait>(
    rt: &W,
    alloc: Global,
    desk: &D,
    feeder: &mut Feeder<D::Pass>,
) -> Result<String>
    requires { IsFeeding (D.ours desk.now) D.knows R.graph R.stack feeder.old }
    ensures { OnOk result (IsFeeding (D.ours desk.now) D.knows R.graph R.stack feeder.new) }
{
    let answer = desk.close(rt, alloc, &mut feeder.pass, FEEDER);
    let text = settled_text(alloc, answer)?;
    match answer {
        Settled::NotYet => Ok(text),
        Settled::Done => {
            if feeder.frame.is_some() {
                bail!("the feed is closed while a frame is loaded");
            }
            Ok(text)
        }
    }
}

/// The feeder leaves.
fn leave<R: Run, D: Desk<Frame<R>>, W: Wait>(
    rt: &W,
    alloc: Global,
    desk: &D,
    feeder: &mut Feeder<D::Pass>,
)
    requires { IsFeeding (D.ours desk.now) D.knows R.graph R.stack feeder.old }
    ensures { IsFeeding (D.ours desk.now) D.knows R.graph R.stack feeder.new }
{
    desk.leave(rt, alloc, &mut feeder.pass, FEEDER);
}

/// Makes a call of the feeder, and tells what it answered.
pub fn feed<R: Run, D: Desk<Frame<R>>, W: Wait>(
    rt: &W,
    alloc: Global,
    desk: &D,
    feeder: &mut Feeder<D::Pass>,
    stack: &Stack,
    call: FeedCall,
) -> Result<String>
    requires stack { stack.now ≡ R.stack }
    requires feeding { IsFeeding (D.ours desk.now) D.knows R.graph R.stack feeder.old }
    ensures { OnOk result (IsFeeding (D.ours desk.now) D.knows R.graph R.stack feeder.new) }
{
    match call {
        FeedCall::Load { tick } => load::<R, D, W>(rt, alloc, desk, feeder, tick),
        FeedCall::Issue => issue::<R, D, W>(rt, alloc, desk, feeder, stack),
        FeedCall::Close => close::<R, D, W>(rt, alloc, desk, feeder),
        FeedCall::Leave => {
            leave::<R, D, W>(rt, alloc, desk, feeder);
            Ok(String::from_str(alloc, "done")?)
        }
    }
}
