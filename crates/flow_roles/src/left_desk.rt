//! A desk at which another role has left.

ghost use Rattle.std.specs.Prelude.{◌≡◌, ◌<◌, None, true, false, length};
ghost use Rattle.board_rules.specs.States.{BoardState};
ghost use Rattle.board_rules.specs.InHand.{at, just};
ghost use Rattle.board_rules.specs.RunMeasures.{run_setting, run_measure};
ghost use Rattle.flow_roles.specs.Operations.{frames_of, role_of, tick_of, MayPlay, Replies, Lends, said_reply};
ghost use Rattle.flow_roles.specs.Passes.{Called, CalledBoth};
ghost use Rattle.flow_roles.specs.Leaving.{told_by, stage_after, leaves_at, seen_at, made_at, pass_at};

use crate::{Desk, DeskOp, DeskReply, Said};
use board_rules::{Done, HandName, Load, NotYours, Save, Settled, Take};
use flow_journal::Progress;
use nd_base::Held;
use std::alloc::Global;
use std::sync::Wait;

/// How far a role has come at such a desk.
#[derive(Clone, Copy, Debug, PartialEq, Eq)]
pub enum Stage {
    /// It made no call.
    New,
    /// It knows that another role has left.
    Told,
    /// It has left, too.
    Gone,
}

#[derive(Debug, Drop)]
pub struct LeftPass {
    pub role: u32,
    pub stage: Stage,
    pub said: Said,
}

/// How far the role has come with this call. After its first call it knows that another has left.
fn next_stage<F>(op: &DeskOp<F>, stage: Stage) -> Stage
    ensures { result ≡ stage_after op.now stage }
{
    match op {
        DeskOp::Leave { role: _ } => Stage::Gone,
        _ if stage == Stage::New => Stage::Told,
        _ => stage,
    }
}

/// How many roles have left, once the role was told.
fn leaves(stage: Stage) -> u32
    ensures { result ≡ leaves_at stage }
{
    match stage {
        Stage::Gone => 2,
        _ => 1,
    }
}

/// Gives a frame back to a role with nothing in hand.
fn frame_back<F: Held>(frame: F) -> NotYours<F>
    ensures { result ≡ record { kept = None; given = at 0 (F.name_of frame); back = just 0 frame } }
{
    let given = HandName {
        node: 0,
        name: frame.name(),
    };
    NotYours::of_frame(None, given, frame)
}

/// Gives what was done back to a role with nothing in hand.
fn job_back<F: Held>(done: Done<F>) -> NotYours<F>
    ensures { result ≡ record { kept = None; given = at done.node (F.name_of done.input); back = done } }
{
    let given = HandName {
        node: done.node,
        name: done.input.name(),
    };
    NotYours {
        kept: None,
        given,
        back: done,
    }
}

/// How far such a run has come.
fn progress_told(stage: Stage) -> Progress
    ensures { result ≡ record { entries = leaves_at stage; offered = 0; dropped = 0; saved = 0; left = true; done = false } }
{
    Progress {
        entries: leaves(stage),
        offered: 0,
        dropped: 0,
        saved: 0,
        left: true,
        done: false,
    }
}

/// What the board answers to a role that has come so far.
fn answer<F: Held>(stage: Stage, op: DeskOp<F>) -> DeskReply<F>
    requires some { 0 < length F.Of.stack.arrays }
    requires may { MayPlay (frames_of F.name_of F.parts F.bytes_of (run_measure F.Of.graph F.Of.stack)) (run_setting F.Of.graph F.Of.stack)
        (made_at (role_of op) stage) op }
    ensures replies { Replies (frames_of F.name_of F.parts F.bytes_of (run_measure F.Of.graph F.Of.stack)) (run_setting F.Of.graph F.Of.stack)
        (seen_at (run_setting F.Of.graph F.Of.stack) (role_of op) (told_by stage)) op result
        (seen_at (run_setting F.Of.graph F.Of.stack) (role_of op) (stage_after op stage)) }
    ensures lends { (made : BoardState) → Lends (frames_of F.name_of F.parts F.bytes_of (run_measure F.Of.graph F.Of.stack))
        (run_setting F.Of.graph F.Of.stack) op result made }
{
    match op {
        DeskOp::Load { role: _, tick: _ } => DeskReply::Load(Load::Left),
        DeskOp::Issue { role: _, frame } => DeskReply::Issue(Err(frame_back(frame))),
        DeskOp::Take { role: _, node: _ } => DeskReply::Take(Take::Left),
        DeskOp::Put { role: _, done } => DeskReply::Put(Err(job_back(done))),
        DeskOp::Settle { role: _, node: _ } => DeskReply::Settle(Settled::NotYet),
        DeskOp::Close { role: _ } => DeskReply::Close(Settled::NotYet),
        DeskOp::Leave { role: _ } => DeskReply::Leave,
        DeskOp::Save { role: _, node: _ } => DeskReply::Save(Save::NotYet),
        DeskOp::Saved { role: _, frame } => DeskReply::Saved(Err(frame_back(frame))),
        DeskOp::Progress { role: _ } => DeskReply::Progress(progress_told(stage)),
    }
}

/// A board over frames that nobody works on, since some role left before the first call. It stands for a real one where a
/// role is tried alone, and shows that the calls of a desk can be answered as their contracts say.
#[derive(Clone, Copy, Debug)]
pub struct LeftDesk;

impl<F: Held> Desk<F> for LeftDesk {
    type Pass = LeftPass;

    ghost ours = { λ d p. 0 < length F.Of.stack.arrays };

    ghost knows = { λ p. pass_at (run_setting F.Of.graph F.Of.stack) p.role p.stage p.said };

    fn call<W: Wait>(
        &self,
        rt: &W,
        alloc: Global,
        pass: &mut LeftPass,
        op: DeskOp<F>,
    ) -> DeskReply<F>
        requires pass { (0 < length F.Of.stack.arrays) × (pass.old.role ≡ role_of op) }
        requires may { MayPlay (frames_of F.name_of F.parts F.bytes_of (run_measure F.Of.graph F.Of.stack)) (run_setting F.Of.graph F.Of.stack)
            (made_at pass.old.role pass.old.stage) op }
        ensures ours { 0 < length F.Of.stack.arrays }
        ensures called { Called (run_setting F.Of.graph F.Of.stack)
            (λ old new. Replies (frames_of F.name_of F.parts F.bytes_of (run_measure F.Of.graph F.Of.stack)) (run_setting F.Of.graph F.Of.stack)
            old op result new)
            (said_reply (tick_of op) result) (pass_at (run_setting F.Of.graph F.Of.stack) pass.old.role pass.old.stage pass.old.said)
            (pass_at (run_setting F.Of.graph F.Of.stack) pass.new.role pass.new.stage pass.new.said) }
        ensures lends { Lends (frames_of F.name_of F.parts F.bytes_of (run_measure F.Of.graph F.Of.stack)) (run_setting F.Of.graph F.Of.stack) op result
            (made_at pass.new.role pass.new.stage) }
    {
        let tick = op.tick();
        let stage = next_stage(&op, pass.stage);
        let reply = answer(pass.stage, op);
        pass.stage = stage;
        pass.said.note(tick, &reply);
        reply
    }

    fn call_both<W: Wait>(
        &self,
        rt: &W,
        alloc: Global,
        pass: &mut LeftPass,
        first: DeskOp<F>,
        second: DeskOp<F>,
    ) -> (DeskReply<F>, DeskReply<F>)
        requires pass { (0 < length F.Of.stack.arrays) × (pass.old.role ≡ role_of first) × (pass.old.role ≡ role_of second) }
        requires first { MayPlay (frames_of F.name_of F.parts F.bytes_of (run_measure F.Of.graph F.Of.stack)) (run_setting F.Of.graph F.Of.stack)
            (made_at pass.old.role pass.old.stage) first }
        requires second { (made : BoardState) → MayPlay (frames_of F.name_of F.parts F.bytes_of (run_measure F.Of.graph F.Of.stack))
            (run_setting F.Of.graph F.Of.stack) made second }
        ensures ours { 0 < length F.Of.stack.arrays }
        ensures called { CalledBoth (run_setting F.Of.graph F.Of.stack)
            (λ old new. Replies (frames_of F.name_of F.parts F.bytes_of (run_measure F.Of.graph F.Of.stack)) (run_setting F.Of.graph F.Of.stack)
            old first result.0 new)
            (λ old new. Replies (frames_of F.name_of F.parts F.bytes_of (run_measure F.Of.graph F.Of.stack)) (run_setting F.Of.graph F.Of.stack)
            old second result.1 new)
            (said_reply (tick_of first) result.0) (said_reply (tick_of second) result.1)
            (pass_at (run_setting F.Of.graph F.Of.stack) pass.old.role pass.old.stage pass.old.said)
            (pass_at (run_setting F.Of.graph F.Of.stack) pass.new.role pass.new.stage pass.new.said) }
        ensures lends { Lends (frames_of F.name_of F.parts F.bytes_of (run_measure F.Of.graph F.Of.stack)) (run_setting F.Of.graph F.Of.stack) second result.1
            (made_at pass.new.role pass.new.stage) }
    {
        let one = self.call(rt, alloc, pass, first);
        let two = self.call(rt, alloc, pass, second);
        (one, two)
    }
}
