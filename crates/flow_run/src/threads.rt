//! The roles of a run, each in its thread.

ghost use Rattle.std.specs.Prelude.{◌≡◌, ◌<◌, ◌+◌, Option, Some, length, vec_len};
ghost use Rattle.nd_base.specs.GraphRules.{IsGraph};
ghost use Rattle.nd_stack.specs.KeptStacks.{IsKeptStack};
ghost use Rattle.chain_plain.specs.Plans.{plan_of};
ghost use Rattle.flow_journal.specs.Setting.{last_role};
ghost use Rattle.board_rules.specs.RunMeasures.{run_setting};
ghost use Rattle.flow_roles.specs.TurnPasses.{known_by, IsPassOf, IsFreshOf};
ghost use Rattle.board_rules.specs.States.{past};
ghost use Rattle.flow_saver.specs.Saver.{CountsSo};
ghost use Rattle.flow_saver.specs.Turns.{AreNotesOf};
ghost use Rattle.flow_run.specs.SaverEnds.{SaverBegins, SaverEnds};
ghost use Rattle.flow_roles.specs.Workers as roles;
ghost use Rattle.flow_roles.specs.Workers.{workers};
ghost use Rattle.flow_run.specs.Seats.{IsReady, IsBack, AreReady, AreBack, SomeWorker, HasWorked, HasFed};

use crate::seats::Seat;
use board_rules::BoardCalls;
use edge_traits::{Clock, Gate, Shelf};
use flow_journal::Watch;
use flow_roles::{Played, TurnPass, feed_role, leave_feed, leave_work, work_role};
use flow_saver::{SaveEnd, save_role};
use frame_store::Frame;
use graph_files::OpenFiles;
use nd_base::{Plan, Run, Stack};
use side_threads::{each_beside, work_beside};
use std::alloc::Global;
use std::mem;
use std::sync::Wait;
use std::thread::Threads;
use turn_lock::TurnLock;

/// The feeder at its seat, until it ends. Without a thread of its own it leaves.
fn feed_at<R: Run, B: BoardCalls<Frame<R>>, C: Clock, G: Gate, W: Wait>(
    rt: &W,
    alloc: Global,
    desk: &TurnLock<Played<Frame<R>, B>>,
    stack: &Stack,
    gate: &G,
    has_thread: bool,
    clock: &mut C,
    seat: &mut Seat<Frame<R>, TurnPass<Frame<R>, B>>,
)
    requires stack { stack.now ≡ R.stack }
    requires ready { IsReady (λ p. IsPassOf desk.now.id p.inner) (λ p. known_by p.inner p.said) 0 0 seat.old }
    ensures back { IsBack (λ p. IsPassOf desk.now.id p.inner) (λ p. known_by p.inner p.said) (run_setting R.graph R.stack) 0 0 seat.new }
    ensures ticks { HasFed (λ p. known_by p.inner p.said) (run_setting R.graph R.stack) (C.coming clock.old) (C.coming clock.new) seat.new }
{
    match mem::replace(seat, Seat::Away) {
        Seat::Ready {
            role: _,
            node: _,
            pass,
        } => {
            if has_thread {
                let end = feed_role(rt, alloc, desk, pass, stack, clock, gate);
                *seat = Seat::Back(end);
            } else {
                let end = leave_feed(rt, alloc, desk, pass);
                *seat = Seat::Back(end);
            }
        }
        _ => unreachable!(),
    }
}

/// The worker of this seat, until it ends. Without a thread of its own it leaves.
fn work_at<R: Run, B: BoardCalls<Frame<R>>, G: Gate, W: Threads + Wait + Sync>(
    rt: &W,
    alloc: Global,
    desk: &TurnLock<Played<Frame<R>, B>>,
    plan: &Plan,
    stack: &Stack,
    gate: &G,
    has_thread: bool,
    seat: &mut Seat<Frame<R>, TurnPass<Frame<R>, B>>,
)
    requires plan { plan.now ≡ plan_of R.graph R.stack }
    requires graph { IsGraph R.graph }
    requires stack { stack.now ≡ R.stack }
    requires ready { SomeWorker (λ p. IsPassOf desk.now.id p.inner) (λ p. known_by p.inner p.said) (run_setting R.graph R.stack) seat.old }
    ensures back { HasWorked (λ p. IsPassOf desk.now.id p.inner) (λ p. known_by p.inner p.said) (run_setting R.graph R.stack) seat.old seat.new }
{
    match mem::replace(seat, Seat::Away) {
        Seat::Ready { role, node, pass } => {
            if has_thread {
                let end = work_role(rt, alloc, desk, pass, role, node, plan, stack, gate);
                *seat = Seat::Back(end);
            } else {
                let end = leave_work(rt, alloc, desk, pass, role, node);
                *seat = Seat::Back(end);
            }
        }
        _ => unreachable!(),
    }
}

/// All workers, each in a thread of its own, and the rest of the run in this one.
fn work_all<
    R: Run + Send + Sync,
    B: BoardCalls<Frame<R>> + Send,
    G: Gate + Sync,
    T: Threads + Wait + Sync,
    F: FnMut() -> E,
    E,
>(
    rt: &T,
    alloc: Global,
    desk: &TurnLock<Played<Frame<R>, B>>,
    plan: &Plan,
    stack: &Stack,
    gate: &G,
    rest: &mut F,
    seats: &mut [Seat<Frame<R>, TurnPass<Frame<R>, B>>],
) -> E
    requires plan { plan.now ≡ plan_of R.graph R.stack }
    requires graph { IsGraph R.graph }
    requires stack { stack.now ≡ R.stack }
    requires seats { length seats.old ≡ length (workers (run_setting R.graph R.stack)) }
    requires ready { AreReady (λ p. IsPassOf desk.now.id p.inner) (λ p. known_by p.inner p.said) 1 (workers (run_setting R.graph R.stack)) seats.old }
    requires rest { F.pre rest.old }
    ensures seats { length seats.new ≡ length seats.old }
    ensures back { AreBack (λ p. IsPassOf desk.now.id p.inner) (λ p. known_by p.inner p.said) (run_setting R.graph R.stack) 1
        (workers (run_setting R.graph R.stack)) seats.new }
    ensures rest { F.step rest.old result rest.new }
{
    let work = |has_thread: bool, seat: &mut Seat<Frame<R>, TurnPass<Frame<R>, B>>|
        requires { (plan.now ≡ plan_of R.graph R.stack) × IsGraph R.graph × (stack.now ≡ R.stack)
            × SomeWorker (λ p. IsPassOf desk.now.id p.inner) (λ p. known_by p.inner p.said) (run_setting R.graph R.stack) seat.now }
        ensures { HasWorked (λ p. IsPassOf desk.entry.now.id p.inner) (λ p. known_by p.inner p.said) (run_setting R.graph R.stack)
            seat.entry.now seat.exit.now }
    {
        work_at(rt, alloc, desk, plan, stack, gate, has_thread, seat);
    };
    each_beside(rt, &work, rest, seats)
}

/// The role that saves, with what it begins with.
fn save_at<R: Run, B: BoardCalls<Frame<R>>, K: Shelf, N: Watch, G: Gate, W: Wait>(
    rt: &W,
    alloc: Global,
    desk: &TurnLock<Played<Frame<R>, B>>,
    role: u32,
    stack: &Stack,
    gate: &G,
    watch: &mut N,
    shelf: &mut K,
    begins: &mut Option<(TurnPass<Frame<R>, B>, OpenFiles)>,
) -> SaveEnd<Frame<R>, TurnPass<Frame<R>, B>>
    requires role { role ≡ last_role (run_setting R.graph R.stack) }
    requires graph { IsGraph R.graph }
    requires stack { stack.now ≡ R.stack }
    requires kept { IsKeptStack R.stack }
    requires begins { SaverBegins (λ p. IsFreshOf desk.now.id role p.inner p.said) R.graph R.stack begins.old }
    ensures end { SaverEnds (λ p. IsPassOf desk.now.id p.inner) (λ p. known_by p.inner p.said) R.graph R.stack (K.held shelf.old) begins.old
        result.pass result.left result.files result.fault (K.held shelf.new) }
    ensures fault { CountsSo result.fault (K.faults shelf.old) (K.faults shelf.new) }
    ensures notes { AreNotesOf (run_setting R.graph R.stack) (past (known_by result.pass.inner result.pass.said).seen) result.want
        (N.watched watch.old) (N.watched watch.new) }
    ensures home { N.home watch.new ≡ N.home watch.old }
{
    let Some((pass, files)) = begins.take() else {
        unreachable!()
    };
    save_role(
        rt, alloc, desk, pass, role, shelf, watch, stack, files, gate,
    )
}

/// The same reference, lent on here. The borrow checker has no rule yet for a second closure over references of parameters alone.
fn lend_on<T>(x: &mut T) -> &mut T
    ensures { result.now ≡ x.old }
{
    x
}

/// The feeder in a thread of its own, and the role that saves in this one.
fn feed_and_save<
    R: Run + Send + Sync,
    B: BoardCalls<Frame<R>> + Send,
    K: Shelf,
    C: Clock + Send,
    G: Gate + Sync,
    N: Watch,
    T: Threads + Wait + Sync,
>(
    rt: &T,
    alloc: Global,
    desk: &TurnLock<Played<Frame<R>, B>>,
    role: u32,
    stack: &Stack,
    gate: &G,
    watch: &mut N,
    shelf: &mut K,
    begins: &mut Option<(TurnPass<Frame<R>, B>, OpenFiles)>,
    clock: &mut C,
    feeder: &mut Seat<Frame<R>, TurnPass<Frame<R>, B>>,
) -> SaveEnd<Frame<R>, TurnPass<Frame<R>, B>>
    requires role { role ≡ last_role (run_setting R.graph R.stack) }
    requires graph { IsGraph R.graph }
    requires stack { stack.now ≡ R.stack }
    requires kept { IsKeptStack R.stack }
    requires begins { SaverBegins (λ p. IsFreshOf desk.now.id role p.inner p.said) R.graph R.stack begins.old }
    requires feeder { IsReady (λ p. IsPassOf desk.now.id p.inner) (λ p. known_by p.inner p.said) 0 0 feeder.old }
    ensures fed { IsBack (λ p. IsPassOf desk.now.id p.inner) (λ p. known_by p.inner p.said) (run_setting R.graph R.stack) 0 0 feeder.new }
    ensures ticks { HasFed (λ p. known_by p.inner p.said) (run_setting R.graph R.stack) (C.coming clock.old) (C.coming clock.new) feeder.new }
    ensures end { SaverEnds (λ p. IsPassOf desk.now.id p.inner) (λ p. known_by p.inner p.said) R.graph R.stack (K.held shelf.old) begins.old
        result.pass result.left result.files result.fault (K.held shelf.new) }
    ensures fault { CountsSo result.fault (K.faults shelf.old) (K.faults shelf.new) }
    ensures notes { AreNotesOf (run_setting R.graph R.stack) (past (known_by result.pass.inner result.pass.said).seen) result.want
        (N.watched watch.old) (N.watched watch.new) }
    ensures home { N.home watch.new ≡ N.home watch.old }
{
    let begins = lend_on(begins);
    let (_, end) = work_beside(
        rt,
        &mut |has_thread: bool|
            requires { (stack.now ≡ R.stack) × IsReady (λ p. IsPassOf desk.now.id p.inner) (λ p. known_by p.inner p.said) 0 0 feeder.now }
            ensures { IsBack (λ p. IsPassOf desk.entry.now.id p.inner) (λ p. known_by p.inner p.said) (run_setting R.graph R.stack) 0 0 feeder.exit.now
                × HasFed (λ p. known_by p.inner p.said) (run_setting R.graph R.stack) (C.coming clock.entry.now) (C.coming clock.exit.now) feeder.exit.now }
        { feed_at(rt, alloc, desk, stack, gate, has_thread, clock, feeder) },
        &mut || -> SaveEnd<Frame<R>, TurnPass<Frame<R>, B>>
            requires { (role ≡ last_role (run_setting R.graph R.stack)) × IsGraph R.graph × (stack.now ≡ R.stack) × IsKeptStack R.stack
                × SaverBegins (λ p. IsFreshOf desk.now.id role p.inner p.said) R.graph R.stack begins.now }
            ensures { SaverEnds (λ p. IsPassOf desk.entry.now.id p.inner) (λ p. known_by p.inner p.said) R.graph R.stack
                (K.held shelf.entry.now) begins.entry.now
                result.pass result.left result.files result.fault (K.held shelf.exit.now)
                × CountsSo result.fault (K.faults shelf.entry.now) (K.faults shelf.exit.now)
                × AreNotesOf (run_setting R.graph R.stack) (past (known_by result.pass.inner result.pass.said).seen) result.want
                (N.watched watch.entry.now) (N.watched watch.exit.now)
                × (N.home watch.exit.now ≡ N.home watch.entry.now) }
        { save_at(rt, alloc, desk, role, stack, gate, watch, shelf, begins) },
    );
    end
}

/// All roles of a run, each in a thread of its own but for the one that saves, which has this one. A role that gets no thread leaves, and so
/// all others end.
pub(crate) fn run_roles<
    R: Run + Send + Sync,
    B: BoardCalls<Frame<R>> + Send,
    K: Shelf,
    C: Clock + Send,
    G: Gate + Sync,
    N: Watch,
    T: Threads + Wait + Sync,
>(
    rt: &T,
    alloc: Global,
    desk: &TurnLock<Played<Frame<R>, B>>,
    role: u32,
    plan: &Plan,
    stack: &Stack,
    gate: &G,
    watch: &mut N,
    shelf: &mut K,
    begins: &mut Option<(TurnPass<Frame<R>, B>, OpenFiles)>,
    clock: &mut C,
    feeder: &mut Seat<Frame<R>, TurnPass<Frame<R>, B>>,
    workers: &mut Vec<Seat<Frame<R>, TurnPass<Frame<R>, B>>>,
) -> SaveEnd<Frame<R>, TurnPass<Frame<R>, B>>
    requires role { role ≡ last_role (run_setting R.graph R.stack) }
    requires plan { plan.now ≡ plan_of R.graph R.stack }
    requires graph { IsGraph R.graph }
    requires stack { stack.now ≡ R.stack }
    requires kept { IsKeptStack R.stack }
    requires begins { SaverBegins (λ p. IsFreshOf desk.now.id role p.inner p.said) R.graph R.stack begins.old }
    requires feeder { IsReady (λ p. IsPassOf desk.now.id p.inner) (λ p. known_by p.inner p.said) 0 0 feeder.old }
    requires many { vec_len workers.old ≡ length (roles.workers (run_setting R.graph R.stack)) }
    requires ready { AreReady (λ p. IsPassOf desk.now.id p.inner) (λ p. known_by p.inner p.said) 1
        (roles.workers (run_setting R.graph R.stack)) workers.old.items }
    ensures fed { IsBack (λ p. IsPassOf desk.now.id p.inner) (λ p. known_by p.inner p.said) (run_setting R.graph R.stack) 0 0 feeder.new }
    ensures ticks { HasFed (λ p. known_by p.inner p.said) (run_setting R.graph R.stack) (C.coming clock.old) (C.coming clock.new) feeder.new }
    ensures many { vec_len workers.new ≡ vec_len workers.old }
    ensures back { AreBack (λ p. IsPassOf desk.now.id p.inner) (λ p. known_by p.inner p.said) (run_setting R.graph R.stack) 1
        (roles.workers (run_setting R.graph R.stack)) workers.new.items }
    ensures end { SaverEnds (λ p. IsPassOf desk.now.id p.inner) (λ p. known_by p.inner p.said) R.graph R.stack (K.held shelf.old) begins.old
        result.pass result.left result.files result.fault (K.held shelf.new) }
    ensures fault { CountsSo result.fault (K.faults shelf.old) (K.faults shelf.new) }
    ensures notes { AreNotesOf (run_setting R.graph R.stack) (past (known_by result.pass.inner result.pass.said).seen) result.want
        (N.watched watch.old) (N.watched watch.new) }
    ensures home { N.home watch.new ≡ N.home watch.old }
{
    let begins = lend_on(begins);
    work_all(
        rt,
        alloc,
        desk,
        plan,
        stack,
        gate,
        &mut || -> SaveEnd<Frame<R>, TurnPass<Frame<R>, B>>
            requires { (role ≡ last_role (run_setting R.graph R.stack)) × IsGraph R.graph × (stack.now ≡ R.stack) × IsKeptStack R.stack
                × SaverBegins (λ p. IsFreshOf desk.now.id role p.inner p.said) R.graph R.stack begins.now
                × IsReady (λ p. IsPassOf desk.now.id p.inner) (λ p. known_by p.inner p.said) 0 0 feeder.now }
            ensures { IsBack (λ p. IsPassOf desk.entry.now.id p.inner) (λ p. known_by p.inner p.said) (run_setting R.graph R.stack) 0 0 feeder.exit.now
                × HasFed (λ p. known_by p.inner p.said) (run_setting R.graph R.stack) (C.coming clock.entry.now) (C.coming clock.exit.now) feeder.exit.now
                × SaverEnds (λ p. IsPassOf desk.entry.now.id p.inner) (λ p. known_by p.inner p.said) R.graph R.stack
                (K.held shelf.entry.now) begins.entry.now
                result.pass result.left result.files result.fault (K.held shelf.exit.now)
                × CountsSo result.fault (K.faults shelf.entry.now) (K.faults shelf.exit.now)
                × AreNotesOf (run_setting R.graph R.stack) (past (known_by result.pass.inner result.pass.said).seen) result.want
                (N.watched watch.entry.now) (N.watched watch.exit.now)
                × (N.home watch.exit.now ≡ N.home watch.entry.now) }
        {
            feed_and_save(
                rt, alloc, desk, role, stack, gate, watch, shelf, begins, clock, feeder,
            )
        },
        workers.as_mut_slice(),
    )
}
