//! The lock and its passes.

ghost use Rattle.std.specs.Prelude.{◌≡◌, ◌<◌, ◌≤◌, ◌^◌, true, false, [], ◌∷◌, ◌++◌, length, vec_len, vec_capacity, IfOk, IfErr, IsOk};
ghost use mathlib.Core.Logic.{◌↔◌};
ghost use Rattle.turn_lock.specs.declared.rule.Stage.TheVariants.{Idle};
ghost use Rattle.turn_lock.specs.Logs.{IsPrefix, longer, moves_of};
ghost use Rattle.turn_lock.specs.Views.{view, unused};
ghost use Rattle.turn_lock.specs.Steps.{HasDrawn, InTurn};
ghost use Rattle.turn_lock.specs.Passes.{LockFacts, lock_facts, PassFacts, pass_facts, MayCall, MayFollow, PlayedBoth, Called, CalledBoth, Closes, new_passes};

use crate::object::Object;
use crate::rule::{Turns, View};
use crate::steps::{Draw, End, JoinBoth, Poll, Settle, SplitFirst, Stay};
use atomic_table::{Refused, Seat, Shared, Table};
use std::alloc::{AllocError, Global};
use std::hint::spin_loop;
use std::marker::Model;
use std::sync::Wait;

// The words of the table: how many tickets were drawn, how many turns have ended, and the door: 0 where nobody has it, 2 where
// somebody may sleep before it, else 1.
const DRAWN: usize = 0;

const ENDED: usize = 1;

const DOOR: usize = 2;

// How often a thread looks at the door before it sleeps. After each look it waits twice as long as before.
const LOOKS: u32 = 8;

/// A lock whose callers take turns in the order of their tickets.
#[derive(Drop)]
pub struct TurnLock<S: Object> {
    table: Table<S, View<S::Entry>, u32, Turns, Global>,
    seats: u32,
}

impl<S: Object> Model for TurnLock<S> {
    ghost Value = { LockFacts };

    ghost view = { λ l. lock_facts l.table.shared.table_id l.seats };

    ghost invariant = { λ l. (l.table.shared.table_id.words ≡ 3) × (l.table.shared.table_id.slots ≡ 1) × (l.table.shared.key ≡ l.seats) };
}

/// What one caller calls with. It means what its roles have made and what it has seen.
#[derive(Drop)]
pub struct Pass<S: Object> {
    seat: Seat<S, View<S::Entry>>,
    count: u32,
}

impl<S: Object> Model for Pass<S> {
    ghost Value = { PassFacts S.Entry };

    ghost view = { λ p. pass_facts p.seat.table_id p.seat.me.0.seen p.seat.me.0.made };

    ghost invariant = { λ p. (p.seat.me.0.stage ≡ Idle) × (p.seat.me.1 ≡ []) × (length p.seat.me.0.made ≡ p.count) };
}

/// A lock that could not be closed, since other passes are out.
#[derive(Drop)]
pub struct Open<S: Object> {
    pub lock: TurnLock<S>,
    pub keep: Pass<S>,
}

// Plays two operations of one role.
fn play_both<S: Object>(
    state: &mut S,
    alloc: Global,
    first: S::Op,
    second: S::Op,
) -> (S::Reply, S::Reply)
    requires role { S.role second ≡ S.role first }
    requires first { S.may (moves_of S.begins (S.role first) (S.entries state.old)) first }
    requires second { MayFollow S.may S.answers first second (moves_of S.begins (S.role first) (S.entries state.old)) }
    ensures { PlayedBoth S.begins (S.role first) (λ before added. S.answers before first result.0 added)
        (λ before added. S.answers before second result.1 added) (S.entries state.old) (S.entries state.new) }
{
    let one = state.play(alloc, first);
    let two = state.play(alloc, second);
    (one, two)
}

impl<S: Object> TurnLock<S> {
    // Takes the door if nobody has it.
    fn try_door(&self, seat: &mut Seat<S, View<S::Entry>>) -> bool
        requires { seat.old.table_id ≡ self.now.id }
        ensures seat { (seat.new.table_id ≡ seat.old.table_id) × (seat.new.id ≡ seat.old.id) }
        ensures stays { seat.new.me ≡ seat.old.me }
    {
        self.table.shared.compare_exchange::<Stay>(seat, DOOR, 0, 1) == 0
    }

    // Polls the door some times, and tells whether this thread has it.
    fn spin(&self, seat: &mut Seat<S, View<S::Entry>>) -> bool
        requires { seat.old.table_id ≡ self.now.id }
        ensures seat { (seat.new.table_id ≡ seat.old.table_id) × (seat.new.id ≡ seat.old.id) }
        ensures stays { seat.new.me ≡ seat.old.me }
    {
        for tried in 0..LOOKS {
            if self.table.shared.peek(DOOR) == 0 && self.try_door(seat) {
                return true;
            }
            for _ in 0..(1u32 << tried) {
                spin_loop();
            }
        }
        false
    }

    // Takes the door, and sleeps as long as others have it.
    fn take_door<R: Wait>(&self, rt: &R, seat: &mut Seat<S, View<S::Entry>>)
        requires { seat.old.table_id ≡ self.now.id }
        ensures seat { (seat.new.table_id ≡ seat.old.table_id) × (seat.new.id ≡ seat.old.id) }
        ensures stays { seat.new.me ≡ seat.old.me }
    {
        if self.try_door(seat) || self.spin(seat) {
            return;
        }
        for _ in rt.forever() {
            if self.table.shared.swap::<Stay>(seat, DOOR, 2) == 0 {
                return;
            }
            self.table.shared.park(rt, DOOR, 2);
        }
        unreachable!()
    }

    // Lets the door go, and wakes one who sleeps before it.
    fn leave_door(&self, seat: &mut Seat<S, View<S::Entry>>)
        requires { seat.old.table_id ≡ self.now.id }
        ensures seat { (seat.new.table_id ≡ seat.old.table_id) × (seat.new.id ≡ seat.old.id) }
        ensures stays { seat.new.me ≡ seat.old.me }
    {
        if self.table.shared.swap::<Stay>(seat, DOOR, 0) == 2 {
            self.table.shared.wake_one(DOOR);
        }
    }

    // Waits until the ticket is served.
    fn wait_turn<R: Wait>(&self, rt: &R, seat: &mut Seat<S, View<S::Entry>>, ticket: u64)
        requires { (seat.old.table_id ≡ self.now.id) × HasDrawn seat.old.me.0 ticket seat.old.me }
        ensures seat { (seat.new.table_id ≡ seat.old.table_id) × (seat.new.id ≡ seat.old.id) }
        ensures turn { InTurn S.entries S.begins seat.old.me.0 seat.new.me }
    {
        for _ in rt.forever() {
            if self.table.shared.load::<Poll>(seat, ENDED) == ticket {
                return;
            }
            spin_loop();
        }
        unreachable!()
    }

    // Takes the door, draws a ticket and waits until it is served. Who has the door draws alone, so its turn comes at once.
    fn begin<R: Wait>(&self, rt: &R, seat: &mut Seat<S, View<S::Entry>>)
        requires { (seat.old.table_id ≡ self.now.id) × (seat.old.me.0.stage ≡ Idle) × (seat.old.me.1 ≡ []) × (0 < length seat.old.me.0.made) }
        ensures seat { (seat.new.table_id ≡ seat.old.table_id) × (seat.new.id ≡ seat.old.id) }
        ensures turn { InTurn S.entries S.begins seat.old.me.0 seat.new.me }
    {
        self.take_door(rt, seat);
        let ticket = self.table.shared.fetch_add::<Draw>(seat, DRAWN, 1);
        self.wait_turn(rt, seat, ticket);
    }

    // A whole turn.
    fn turn<R: Wait>(
        &self,
        rt: &R,
        alloc: Global,
        seat: &mut Seat<S, View<S::Entry>>,
        op: S::Op,
    ) -> S::Reply
        requires own { seat.old.table_id ≡ self.now.id }
        requires idle { (seat.old.me.0.stage ≡ Idle) × (seat.old.me.1 ≡ []) }
        requires may { MayCall (S.role op) (λ mine. S.may mine op) seat.old.me.0.made }
        ensures seat { (seat.new.table_id ≡ seat.old.table_id) × (seat.new.id ≡ seat.old.id) }
        ensures idle { (seat.new.me.0.stage ≡ Idle) × (seat.new.me.1 ≡ []) }
        ensures call { Called S.begins (S.role op) (λ before added. S.answers before op result added)
            (pass_facts seat.old.table_id seat.old.me.0.seen seat.old.me.0.made) (pass_facts seat.new.table_id seat.new.me.0.seen seat.new.me.0.made) }
    {
        self.begin(rt, seat);
        let state = seat.slot_mut(&self.table.shared, 0);
        let reply = state.play(alloc, op);
        self.table.shared.fetch_add::<End>(seat, ENDED, 1);
        self.leave_door(seat);
        reply
    }

    /// Waits for its turn, plays the operation, and gives the object's reply. Conditions: the pass is of this lock, the
    /// operation's role is the pass's first, and what this role has made allows the operation.
    pub fn call<R: Wait>(&self, rt: &R, alloc: Global, pass: &mut Pass<S>, op: S::Op) -> S::Reply
        requires own { pass.old.lock ≡ self.now.id }
        requires may { MayCall (S.role op) (λ mine. S.may mine op) pass.old.made }
        ensures own { pass.new.lock ≡ pass.old.lock }
        ensures call { Called S.begins (S.role op) (λ before added. S.answers before op result added) pass.old pass.new }
    {
        self.turn(rt, alloc, &mut pass.seat, op)
    }

    // A whole turn of two operations.
    fn turn_both<R: Wait>(
        &self,
        rt: &R,
        alloc: Global,
        seat: &mut Seat<S, View<S::Entry>>,
        first: S::Op,
        second: S::Op,
    ) -> (S::Reply, S::Reply)
        requires own { seat.old.table_id ≡ self.now.id }
        requires idle { (seat.old.me.0.stage ≡ Idle) × (seat.old.me.1 ≡ []) }
        requires first { MayCall (S.role first) (λ mine. S.may mine first) seat.old.me.0.made }
        requires second { MayCall (S.role second) (λ mine. MayFollow S.may S.answers first second mine) seat.old.me.0.made }
        ensures seat { (seat.new.table_id ≡ seat.old.table_id) × (seat.new.id ≡ seat.old.id) }
        ensures idle { (seat.new.me.0.stage ≡ Idle) × (seat.new.me.1 ≡ []) }
        ensures calls { CalledBoth S.begins (S.role first) (λ before added. S.answers before first result.0 added)
            (λ before added. S.answers before second result.1 added)
            (pass_facts seat.old.table_id seat.old.me.0.seen seat.old.me.0.made) (pass_facts seat.new.table_id seat.new.me.0.seen seat.new.me.0.made) }
    {
        self.begin(rt, seat);
        let state = seat.slot_mut(&self.table.shared, 0);
        let replies = play_both(state, alloc, first, second);
        self.table.shared.fetch_add::<End>(seat, ENDED, 1);
        self.leave_door(seat);
        replies
    }

    /// Waits for its turn, plays both operations in it, one after the other, and gives the object's replies. Conditions: those
    /// of two calls, where the second is allowed whatever the first is answered.
    pub fn call_both<R: Wait>(
        &self,
        rt: &R,
        alloc: Global,
        pass: &mut Pass<S>,
        first: S::Op,
        second: S::Op,
    ) -> (S::Reply, S::Reply)
        requires own { pass.old.lock ≡ self.now.id }
        requires first { MayCall (S.role first) (λ mine. S.may mine first) pass.old.made }
        requires second { MayCall (S.role second) (λ mine. MayFollow S.may S.answers first second mine) pass.old.made }
        ensures own { pass.new.lock ≡ pass.old.lock }
        ensures calls { CalledBoth S.begins (S.role first) (λ before added. S.answers before first result.0 added)
            (λ before added. S.answers before second result.1 added) pass.old pass.new }
    {
        self.turn_both(rt, alloc, &mut pass.seat, first, second)
    }

    fn take_in(&self, seat: &mut Seat<S, View<S::Entry>>, other: Seat<S, View<S::Entry>>)
        requires own { (seat.old.table_id ≡ self.now.id) × (other.table_id ≡ self.now.id) }
        requires idle { (seat.old.me.0.stage ≡ Idle) × (seat.old.me.1 ≡ []) × (other.me.0.stage ≡ Idle) × (other.me.1 ≡ []) }
        ensures seat { (seat.new.table_id ≡ seat.old.table_id) × (seat.new.id ≡ seat.old.id) }
        ensures me { seat.new.me ≡ (view Idle (longer seat.old.me.0.seen other.me.0.seen) (seat.old.me.0.made ++ other.me.0.made), []) }
        ensures few { length (seat.old.me.0.made ++ other.me.0.made) < 2 ^ 32 }
        ensures seen { IsPrefix seat.old.me.0.seen (longer seat.old.me.0.seen other.me.0.seen)
            × IsPrefix other.me.0.seen (longer seat.old.me.0.seen other.me.0.seen) }
    {
        self.table.shared.join_seat::<JoinBoth>(seat, other);
        self.table.shared.load::<Settle>(seat, DRAWN);
    }

    /// Takes the other pass in: `keep` then has the roles of both, and has seen the longer of the two prefixes. Condition: both
    /// are of this lock.
    pub fn join(&self, keep: &mut Pass<S>, other: Pass<S>)
        requires { (keep.old.lock ≡ self.now.id) × (other.lock ≡ self.now.id) }
        ensures pass { keep.new ≡ pass_facts keep.old.lock (longer keep.old.seen other.seen) (keep.old.made ++ other.made) }
        ensures seen { IsPrefix keep.old.seen keep.new.seen × IsPrefix other.seen keep.new.seen }
    {
        let Pass { seat, count } = other;
        self.take_in(&mut keep.seat, seat);
        keep.count += count;
    }

    /// The object, where `keep` has taken in all other passes; else all is as it was. Condition: the pass is of this lock.
    pub fn close(self, keep: Pass<S>) -> Result<S, Open<S>>
        requires { keep.lock ≡ self.id }
        ensures state { IfOk result (λ s. Closes S.begins self.seats keep (S.entries s)) }
        ensures all { IsOk result ↔ (length keep.made ≡ self.seats) }
        ensures open { IfErr result (λ o. (o.keep ≡ keep) × (o.lock ≡ self)) }
    {
        if keep.count != self.seats {
            return Err(Open { lock: self, keep });
        }
        let TurnLock { table, seats: _ } = self;
        let Pass { seat, count: _ } = keep;
        let mut closed = table.close_with(seat);
        let state = closed.take(0);
        closed.free();
        Ok(state)
    }
}

// One pass for each role, from 0 on.
fn deal<S: Object>(
    shared: &Shared<S, View<S::Entry>, u32, Turns>,
    mut seat: Seat<S, View<S::Entry>>,
    seats: u32,
    passes: &mut Vec<Pass<S>>,
)
    requires seat { (seat.table_id ≡ shared.now.table_id) × (seat.me ≡ (view Idle [] (unused 0 seats), [])) }
    requires words { (shared.now.table_id.words ≡ 3) × (0 < seats) }
    requires room { (passes.old.items ≡ []) × (vec_len passes.old ≡ 0) × (seats ≤ vec_capacity passes.old) }
    ensures dealt { passes.new.items ≡ new_passes shared.now.table_id 0 seats }
    ensures len { vec_len passes.new ≡ seats }
{
    let mut k = 0;
    while k < seats - 1 {
        let others = shared.split_seat::<SplitFirst>(&mut seat);
        passes.push_reserved(Pass { seat, count: 1 });
        seat = others;
        k += 1;
    }
    passes.push_reserved(Pass { seat, count: 1 });
}

fn one_slot<S: Drop>(alloc: Global, state: S) -> Result<Vec<S>, AllocError>
    ensures { IfOk result (λ v. v.items ≡ state ∷ []) }
{
    let mut slots = Vec::with_capacity(alloc, 1)?;
    slots.push_reserved(state);
    Ok(slots)
}

impl<S: Object + Drop> TurnLock<S> {
    /// A lock round the state, and its passes, where pass k, from 0 on, is that of role k. Conditions: there is a seat, and the
    /// state's log is empty.
    pub fn new(
        alloc: Global,
        state: S,
        seats: u32,
    ) -> Result<(TurnLock<S>, Vec<Pass<S>>), AllocError>
        requires { (0 < seats) × (S.entries state ≡ []) }
        ensures passes { IfOk result (λ r. r.1.items ≡ new_passes r.0.id 0 seats) }
        ensures seats { IfOk result (λ r. (r.0.seats ≡ seats) × (vec_len r.1 ≡ seats)) }
    {
        let mut passes = Vec::with_capacity(alloc, seats as usize)?;
        let slots = one_slot(alloc, state)?;
        match Table::new(alloc, &[0; 3], slots, &seats) {
            Ok((table, seat)) => {
                deal(&table.shared, seat, seats, &mut passes);
                Ok((TurnLock { table, seats }, passes))
            }
            Err(Refused { slots }) => {
                drop(slots);
                Err(AllocError)
            }
        }
    }
}
