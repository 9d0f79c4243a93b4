//! A board that roles share under the turn lock.

ghost use Rattle.std.specs.Prelude.{◌≡◌, ℕ, ◌<◌, ◌≤◌, true, [], reverse, All, Any, Some, slice_get, map, length, vec_len, IfOk};
ghost use Rattle.flow_journal.specs.Histories.{is_history};
ghost use Rattle.board_rules.specs.States.{BoardState, past};
ghost use Rattle.board_rules.specs.Movers.{moves_by};
ghost use Rattle.board_rules.specs.Storage.{HasAllStorage};
ghost use Rattle.board_rules.specs.RunMeasures.{run_setting, run_measure};
ghost use Rattle.flow_roles.specs.Lasts.{fresh_said};
ghost use Rattle.flow_roles.specs.Passes.{Called, CalledBoth, only_drain_saves};
ghost use Rattle.flow_roles.specs.Operations.{frames_of, role_of, tick_of, MayPlay, Replies, Lends, said_reply};
ghost use Rattle.flow_roles.specs.TurnPasses.{role_in, moves_in, known_by, IsPassOf, IsFreshOf, IsPassWithin, HasMade};

use crate::{Desk, DeskOp, DeskReply, Last, Played, Said};
use board_rules::BoardCalls;
use nd_base::{Held, OutOfMemory};
use std::alloc::{AllocError, Global};
use std::sync::Wait;
use turn_lock::{Pass, TurnLock};

/// What a role makes its calls with, where the board is under a turn lock.
#[derive(Drop)]
pub struct TurnPass<F: Held, B: BoardCalls<F>> {
    pub inner: Pass<Played<F, B>>,
    pub said: Said,
}

/// Each call is one call of the board, in a turn of the role.
impl<F: Held, B: BoardCalls<F>> Desk<F> for TurnLock<Played<F, B>> {
    type Pass = TurnPass<F, B>;

    ghost ours = { λ l p. IsPassOf l.id p.inner };

    ghost knows = { λ p. known_by p.inner p.said };

    fn call<W: Wait>(
        &self,
        rt: &W,
        alloc: Global,
        pass: &mut TurnPass<F, B>,
        op: DeskOp<F>,
    ) -> DeskReply<F>
        requires pass { IsPassOf self.now.id pass.old.inner × ((known_by pass.old.inner pass.old.said).role ≡ role_of op) }
        requires may { MayPlay (frames_of F.name_of F.parts F.bytes_of (run_measure F.Of.graph F.Of.stack)) (run_setting F.Of.graph F.Of.stack)
            (known_by pass.old.inner pass.old.said).made op }
        ensures ours { IsPassOf self.now.id pass.new.inner }
        ensures called { Called (run_setting F.Of.graph F.Of.stack)
            (λ old new. Replies (frames_of F.name_of F.parts F.bytes_of (run_measure F.Of.graph F.Of.stack)) (run_setting F.Of.graph F.Of.stack)
            old op result new)
            (said_reply (tick_of op) result) (known_by pass.old.inner pass.old.said) (known_by pass.new.inner pass.new.said) }
        ensures lends { Lends (frames_of F.name_of F.parts F.bytes_of (run_measure F.Of.graph F.Of.stack)) (run_setting F.Of.graph F.Of.stack) op result
            (known_by pass.new.inner pass.new.said).made }
    {
        let tick = op.tick();
        let reply = self.call(rt, alloc, &mut pass.inner, op);
        pass.said.note(tick, &reply);
        reply
    }

    fn call_both<W: Wait>(
        &self,
        rt: &W,
        alloc: Global,
        pass: &mut TurnPass<F, B>,
        first: DeskOp<F>,
        second: DeskOp<F>,
    ) -> (DeskReply<F>, DeskReply<F>)
        requires pass { IsPassOf self.now.id pass.old.inner × ((known_by pass.old.inner pass.old.said).role ≡ role_of first)
            × ((known_by pass.old.inner pass.old.said).role ≡ role_of second) }
        requires first { MayPlay (frames_of F.name_of F.parts F.bytes_of (run_measure F.Of.graph F.Of.stack)) (run_setting F.Of.graph F.Of.stack)
            (known_by pass.old.inner pass.old.said).made first }
        requires second { (made : BoardState) → MayPlay (frames_of F.name_of F.parts F.bytes_of (run_measure F.Of.graph F.Of.stack))
            (run_setting F.Of.graph F.Of.stack) made second }
        ensures ours { IsPassOf self.now.id pass.new.inner }
        ensures called { CalledBoth (run_setting F.Of.graph F.Of.stack)
            (λ old new. Replies (frames_of F.name_of F.parts F.bytes_of (run_measure F.Of.graph F.Of.stack)) (run_setting F.Of.graph F.Of.stack)
            old first result.0 new)
            (λ old new. Replies (frames_of F.name_of F.parts F.bytes_of (run_measure F.Of.graph F.Of.stack)) (run_setting F.Of.graph F.Of.stack)
            old second result.1 new)
            (said_reply (tick_of first) result.0) (said_reply (tick_of second) result.1)
            (known_by pass.old.inner pass.old.said) (known_by pass.new.inner pass.new.said) }
        ensures lends { Lends (frames_of F.name_of F.parts F.bytes_of (run_measure F.Of.graph F.Of.stack)) (run_setting F.Of.graph F.Of.stack) second result.1
            (known_by pass.new.inner pass.new.said).made }
    {
        let ticks = (first.tick(), second.tick());
        let (one, two) = self.call_both(rt, alloc, &mut pass.inner, first, second);
        pass.said.note(ticks.0, &one);
        pass.said.note(ticks.1, &two);
        (one, two)
    }
}

/// Passes with which no call was made.
fn fresh_passes<F: Held, B: BoardCalls<F>>(
    alloc: Global,
    inners: Vec<Pass<Played<F, B>>>,
) -> Result<Vec<TurnPass<F, B>>, AllocError>
    ensures { IfOk result (λ passes. passes.items ≡ map (λ p. record { inner = p; said = fresh_said }) inners.items) }
{
    inners
        .into_iter()
        .map(|inner| TurnPass {
            inner,
            said: Said {
                last: Last::Fresh,
                owned: true,
                loads: 0,
                tick: 0,
                wanted: 0,
                asked: 0,
            },
        })
        .collect(alloc)
}

/// A board that nobody has called under a turn lock, with a pass for each of so many roles: pass k, from 0, is that of role k.
///
/// # Errors
///
/// `OutOfMemory`: the board is gone then.
pub fn share_board<F: Held, B: BoardCalls<F>>(
    alloc: Global,
    board: B,
    roles: u32,
) -> Result<(TurnLock<Played<F, B>>, Vec<TurnPass<F, B>>), OutOfMemory>
    requires started { B.shown board ≡ [] }
    requires some { 0 < roles }
    ensures seats { IfOk result (λ r. (r.0.seats ≡ roles) × (vec_len r.1 ≡ roles)) }
    ensures fresh { IfOk result (λ r. (k : ℕ) (p : _) → slice_get r.1.items k ≡ Some p → IsFreshOf r.0.id k p.inner p.said) }
{
    let (desk, inners) = TurnLock::new(alloc, Played::new(board), roles)?;
    let passes = fresh_passes(alloc, inners)?;
    Ok((desk, passes))
}

/// The passes of all roles as one.
fn join_all<F: Held, B: BoardCalls<F>>(
    desk: &TurnLock<Played<F, B>>,
    mut passes: Vec<TurnPass<F, B>>,
) -> Pass<Played<F, B>>
    requires ours { All (λ p. IsPassOf desk.now.id p.inner) passes.items }
    requires some { 0 < vec_len passes }
    ensures lock { result.lock ≡ desk.now.id }
    ensures roles { length result.made ≡ vec_len passes }
    ensures each { All (λ p. IsPassWithin p.inner result) passes.items }
    ensures seen { Any (λ p. p.inner.seen ≡ result.seen) passes.items }
{
    let TurnPass { inner, said: _ } = passes.pop().unwrap();
    let mut keep = inner;
    while let Some(pass) = passes.pop() {
        let TurnPass { inner, said: _ } = pass;
        desk.join(&mut keep, inner);
    }
    keep
}

/// The board again, once the passes of all roles are back. All that a pass has seen stands there, and of its role's moves just
/// those that the pass made; no other role has made any, and nothing of the storage has stayed away.
pub fn take_back<F: Held, B: BoardCalls<F>>(
    desk: TurnLock<Played<F, B>>,
    passes: Vec<TurnPass<F, B>>,
) -> B
    requires ours { All (λ p. IsPassOf desk.id p.inner) passes.items }
    requires all { (0 < vec_len passes) × (vec_len passes ≡ desk.seats) }
    ensures moves { All (λ p. HasMade (B.shown result) (known_by p.inner p.said)) passes.items }
    ensures seen { Any (λ p. (known_by p.inner p.said).seen ≡ B.shown result) passes.items }
    ensures others { (r : ℕ) → desk.seats ≤ r → moves_by r (B.shown result) ≡ [] }
    ensures legal { is_history (run_setting F.Of.graph F.Of.stack) (past (B.shown result)) ≡ true }
    ensures drained { only_drain_saves (run_setting F.Of.graph F.Of.stack) (past (B.shown result)) ≡ true }
    ensures storage { HasAllStorage F.parts (B.shown result) }
{
    let keep = join_all(&desk, passes);
    match desk.close(keep) {
        Ok(played) => {
            let Played { board, frames: _ } = played;
            board
        }
        Err(_) => unreachable!(),
    }
}
