//! The feeder.

ghost use Rattle.std.specs.Prelude.{◌≡◌, ℕ, ◌<◌, ◌≤◌, ◌^◌, ◌++◌, Option, length, drop, IsTrue, true};
ghost use Rattle.std.specs.List.{list_all};
ghost use Rattle.nd_base.specs.Stacks.{frame_size};
ghost use Rattle.chain_plain.specs.Content.{IsContent};
ghost use Rattle.flow_journal.specs.Hands.{hand};
ghost use Rattle.board_rules.specs.States.{past, lent_to};
ghost use Rattle.board_rules.specs.InHand.{IsOfHand};
ghost use Rattle.board_rules.specs.RunMeasures.{run_setting};
ghost use Rattle.flow_roles.specs.Lasts.{IsActive, HasWanted};
ghost use Rattle.flow_roles.specs.RoleMoves.{feeder_logs, IsFresh, HasNothing};
ghost use Rattle.edge_traits.specs.Ticks.{Coming};
ghost use Rattle.flow_roles.specs.Passes.{Pass};
ghost use Rattle.flow_roles.specs.RoleEnds.{feeder_ends, MayComeBack};
ghost use Rattle.flow_roles.specs.Feeder.{name_of, parts_of, HasLoaded, HasAskedLoad};
ghost use Rattle.flow_roles.specs.FeederTicks.{FeedsByTheClock, FeedsUpTo, HasFed, LoadsAreTicks};

use crate::role_end::{Round, ended, nothing};
use crate::{Desk, RoleEnd};
use board_rules::{Load, Settled};
use edge_traits::{Clock, Gate};
use frame_store::{Blank, Frame};
use nd_base::{FrameName, Run, Stack};
use std::alloc::Global;
use std::sync::Wait;

/// The feeder's role.
pub(crate) const FEEDER: u32 = 0;

/// The driver's number.
const DRIVER: u32 = 0;

/// Writes bytes over others, which are as many.
fn write_all(from: &[u8], to: &mut [u8])
    requires { length from.now ≡ length to.old }
    ensures { to.new ≡ from.now }
{
    to.copy_from_slice(from);
}

/// Writes bytes over the front of others, which are no fewer.
fn write_front(from: &[u8], to: &mut [u8])
    requires { length from.now ≤ length to.old }
    ensures { to.new ≡ from.now ++ drop (length from.now) to.old }
{
    write_all(from, &mut to[..from.len()]);
}

/// The frame of this name with these samples, on this storage.
fn filled<R: Run>(name: FrameName, samples: &[u8], blank: Blank) -> Frame<R>
    requires few { length samples.now < 2 ^ 32 }
    requires room { length samples.now ≤ length blank }
    requires content { IsContent R.graph R.stack name samples.now }
    ensures name { result.name ≡ name }
    ensures parts { (result.parts.size ≡ length blank) × (result.parts.here ≡ 2 ^ 32) }
{
    let mut blank = blank;
    write_front(samples, blank.bytes());
    blank.seal(name, samples.len() as u32)
}

/// Frame `index` of the stack, on this storage.
pub fn frame_on<R: Run>(stack: &Stack, index: u32, blank: Blank) -> Frame<R>
    requires stack { stack.now ≡ R.stack }
    requires frame { index < length stack.now.arrays }
    requires room { frame_size stack.now.shape ≤ length blank }
    ensures name { result.name ≡ record { maker = 0; index = index } }
    ensures parts { (result.parts.size ≡ length blank) × (result.parts.here ≡ 2 ^ 32) }
{
    let _shape = stack.shape();
    let name = FrameName {
        maker: DRIVER,
        index,
    };
    filled(name, stack.frame(index), blank)
}

/// Loads the next frame, at the clock's next moment.
fn load_next<R: Run, D: Desk<Frame<R>>, C: Clock, W: Wait>(
    rt: &W,
    alloc: Global,
    desk: &D,
    pass: &mut D::Pass,
    clock: &mut C,
) -> Load<Blank>
    requires ours { D.ours desk.now pass.old }
    requires nothing { HasNothing feeder_logs 0 (D.knows pass.old) }
    requires active { IsActive (D.knows pass.old).said }
    ensures ours { D.ours desk.now pass.new }
    ensures fed { (first : Pass) (old : Option Coming)
        → FeedsByTheClock (run_setting R.graph R.stack) first (D.knows pass.old) old (C.coming clock.old)
        → FeedsUpTo (run_setting R.graph R.stack) first result (D.knows pass.new) old (C.coming clock.new) }
    ensures owned { (D.knows pass.old).said.owned ≡ true → (D.knows pass.new).said.owned ≡ true }
{
    let tick = clock.tick();
    desk.load(rt, alloc, pass, FEEDER, tick)
}

/// Fills the loaded frame, issues it, and loads the next one.
fn issue_loaded<R: Run, D: Desk<Frame<R>>, C: Clock, G: Gate, W: Wait>(
    rt: &W,
    alloc: Global,
    desk: &D,
    pass: &mut D::Pass,
    stack: &Stack,
    clock: &mut C,
    gate: &G,
    index: u32,
    blank: Blank,
) -> Load<Blank>
    requires ours { D.ours desk.now pass.old }
    requires stack { stack.now ≡ R.stack }
    requires loaded { HasLoaded (run_setting R.graph R.stack) index (length blank) (D.knows pass.old) }
    requires active { IsActive (D.knows pass.old).said }
    ensures ours { D.ours desk.now pass.new }
    ensures fed { (first : Pass) (old : Option Coming)
        → FeedsByTheClock (run_setting R.graph R.stack) first (D.knows pass.old) old (C.coming clock.old)
        → FeedsUpTo (run_setting R.graph R.stack) first result (D.knows pass.new) old (C.coming clock.new) }
    ensures owned { (D.knows pass.old).said.owned ≡ true → (D.knows pass.new).said.owned ≡ true }
{
    gate.before(DRIVER, index);
    let frame = frame_on::<R>(stack, index, blank);
    gate.after(DRIVER, index);
    let tick = clock.tick();
    let (issued, next) = desk.issue_load(rt, alloc, pass, FEEDER, frame, tick);
    let Ok(()) = issued else { unreachable!() };
    next
}

/// Closes the feed, once every frame was offered.
fn close_feed<R: Run, D: Desk<Frame<R>>, C: Clock, G: Gate, W: Wait>(
    rt: &W,
    alloc: Global,
    desk: &D,
    pass: &mut D::Pass,
    clock: &mut C,
    gate: &G,
) -> Round<Frame<R>, Load<Blank>>
    requires ours { D.ours desk.now pass.old }
    requires nothing { HasNothing feeder_logs 0 (D.knows pass.old) }
    requires active { IsActive (D.knows pass.old).said }
    ensures ours { D.ours desk.now pass.new }
    ensures fed { (first : Pass) (old : Option Coming)
        → FeedsByTheClock (run_setting R.graph R.stack) first (D.knows pass.old) old (C.coming clock.old)
        → HasFed (run_setting R.graph R.stack) first (D.knows pass.new) old (C.coming clock.new) result }
    ensures owned { (D.knows pass.old).said.owned ≡ true → (D.knows pass.new).said.owned ≡ true }
{
    match desk.close(rt, alloc, pass, FEEDER) {
        Settled::Done => ended(),
        Settled::NotYet => {
            gate.idle();
            Round::Again(load_next::<R, D, C, W>(rt, alloc, desk, pass, clock))
        }
    }
}

/// What a load asks for, and the next load.
fn feed_round<R: Run, D: Desk<Frame<R>>, C: Clock, G: Gate, W: Wait>(
    rt: &W,
    alloc: Global,
    desk: &D,
    pass: &mut D::Pass,
    stack: &Stack,
    clock: &mut C,
    gate: &G,
    answer: Load<Blank>,
) -> Round<Frame<R>, Load<Blank>>
    requires ours { D.ours desk.now pass.old }
    requires stack { stack.now ≡ R.stack }
    requires asked { (tick : ℕ) × HasAskedLoad (run_setting R.graph R.stack) tick answer (D.knows pass.old) }
    ensures ours { D.ours desk.now pass.new }
    ensures fed { (first : Pass) (old : Option Coming)
        → FeedsUpTo (run_setting R.graph R.stack) first answer (D.knows pass.old) old (C.coming clock.old)
        → HasFed (run_setting R.graph R.stack) first (D.knows pass.new) old (C.coming clock.new) result }
    ensures owned { (D.knows pass.old).said.owned ≡ true → (D.knows pass.new).said.owned ≡ true }
{
    match answer {
        Load::Left => ended(),
        Load::Busy => {
            gate.idle();
            Round::Again(load_next::<R, D, C, W>(rt, alloc, desk, pass, clock))
        }
        Load::NotYet => {
            gate.idle();
            Round::Again(load_next::<R, D, C, W>(rt, alloc, desk, pass, clock))
        }
        Load::Ended => close_feed(rt, alloc, desk, pass, clock, gate),
        Load::Refused { .. } => {
            Round::Again(load_next::<R, D, C, W>(rt, alloc, desk, pass, clock))
        }
        Load::OutOfMemory => {
            desk.leave(rt, alloc, pass, FEEDER);
            Round::End {
                left: nothing(),
                want: true,
            }
        }
        Load::Loaded { index, blank } => Round::Again(issue_loaded(
            rt, alloc, desk, pass, stack, clock, gate, index, blank,
        )),
    }
}

/// Feeds the frames of the stack: reads the clock, loads the next frame, fills the storage that it got, and issues it together with
/// the next load, until every frame was offered and the feed is closed, another role has left, or memory is wanting.
pub fn feed_role<R: Run, D: Desk<Frame<R>>, C: Clock, G: Gate, W: Wait>(
    rt: &W,
    alloc: Global,
    desk: &D,
    pass: D::Pass,
    stack: &Stack,
    clock: &mut C,
    gate: &G,
) -> RoleEnd<Frame<R>, D::Pass>
    requires ours { D.ours desk.now pass }
    requires fresh { IsFresh 0 (D.knows pass) }
    requires stack { stack.now ≡ R.stack }
    ensures ours { D.ours desk.now result.pass }
    ensures role { (D.knows result.pass).role ≡ 0 }
    ensures moves { list_all feeder_logs (past (D.knows result.pass).made) ≡ true }
    ensures owned { (D.knows result.pass).said.owned ≡ true }
    ensures wanted { HasWanted (D.knows result.pass).said }
    ensures last { IsTrue (feeder_ends (D.knows result.pass).said.last (past (D.knows result.pass).seen) result.want) }
    ensures left { IsOfHand name_of parts_of length (lent_to 0 (D.knows result.pass).made) (hand 0 (past (D.knows result.pass).made))
        result.left.input result.left.made result.left.blank }
    ensures reclaimed { MayComeBack name_of parts_of length (run_setting R.graph R.stack) 0 (D.knows result.pass).made result.left }
    ensures ticks { FeedsByTheClock (run_setting R.graph R.stack) (D.knows pass) (D.knows result.pass) (C.coming clock.old) (C.coming clock.new) }
{
    let mut pass = pass;
    let mut answer = load_next::<R, D, C, W>(rt, alloc, desk, &mut pass, clock);
    for _ in rt.forever() {
        match feed_round(rt, alloc, desk, &mut pass, stack, clock, gate, answer) {
            Round::Again(next) => answer = next,
            Round::End { left, want } => return RoleEnd { pass, left, want },
        }
    }
    unreachable!()
}

/// What a pass says after the feeder's calls: how many were loads, what the last load was handed, and where there was no memory.
pub fn loads_are_ticks()
    ensures { LoadsAreTicks }
{}
