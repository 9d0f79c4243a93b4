//! The seats of the feeder and the workers.

ghost use Rattle.std.specs.Prelude.{◌≡◌, ℕ, ◌+◌, ◌++◌, ◌≤◌, ◌^◌, ◌<◌, true, [], ◌∷◌, map, length, vec_len, vec_capacity, Some, slice_get, IfOk};
ghost use Rattle.std.specs.List.{list_all};
ghost use Rattle.flow_roles.specs.Workers.{workers};
ghost use Rattle.flow_roles.specs.TurnPasses.{known_by, IsPassOf, IsFreshOf};
ghost use Rattle.flow_run.specs.Seats.{seats_from, is_back, ends_of, IsReady, AreReady};

use board_rules::{BoardCalls, Left};
use flow_roles::{Played, RoleEnd, TurnPass};
use frame_store::Frame;
use nd_base::{Held, OutOfMemory, Run};
use std::alloc::Global;
use turn_lock::TurnLock;

/// The seat of a role that runs in a thread of its own.
#[derive(Drop)]
pub enum Seat<F: Held, P> {
    /// The role hasn't begun.
    Ready { role: u32, node: u32, pass: P },
    /// It is at work.
    Away,
    /// It has ended.
    Back(RoleEnd<F, P>),
}

/// What the roles of a run begin with: the seats of the feeder and the workers, and the pass of the last role.
#[derive(Drop)]
pub struct Dealt<F: Held, P> {
    pub feeder: Seat<F, P>,
    pub workers: Vec<Seat<F, P>>,
    pub last: P,
}

/// A seat for each of these passes, at its node: the first is that of role 1.
pub(crate) fn worker_seats<F: Held, P: Drop>(
    alloc: Global,
    passes: Vec<P>,
    nodes: &[u32],
) -> Result<Vec<Seat<F, P>>, OutOfMemory>
    requires nodes { (vec_len passes ≡ length nodes.now) × (length nodes.now + 1 < 2 ^ 32) }
    ensures { IfOk result (λ seats. seats.items ≡ seats_from 1 nodes.now passes.items) }
{
    let mut seats = Vec::with_capacity(alloc, passes.len())?;
    let mut role = 0u32;
    for pass in passes {
        let node = nodes[role as usize];
        role += 1;
        seats.push_reserved(Seat::Ready { role, node, pass });
    }
    Ok(seats)
}

/// The pass of the role of this seat, which is back, and what it left.
pub(crate) fn part_one<F: Held, P: Drop>(
    seat: Seat<F, P>,
    passes: &mut Vec<P>,
    lefts: &mut Vec<Left<F>>,
)
    requires back { is_back seat ≡ true }
    requires room { (vec_len passes.old < vec_capacity passes.old) × (vec_len lefts.old < vec_capacity lefts.old) }
    ensures passes { passes.new.items ≡ passes.old.items ++ map (λ e. e.pass) (ends_of (seat ∷ [])) }
    ensures lefts { lefts.new.items ≡ lefts.old.items ++ map (λ e. e.left) (ends_of (seat ∷ [])) }
    ensures room { (vec_capacity passes.new ≡ vec_capacity passes.old) × (vec_capacity lefts.new ≡ vec_capacity lefts.old) }
    ensures many { (vec_len passes.new ≡ vec_len passes.old + 1) × (vec_len lefts.new ≡ vec_len lefts.old + 1) }
{
    match seat {
        Seat::Back(end) => {
            let RoleEnd {
                pass,
                left,
                want: _,
            } = end;
            passes.push_reserved(pass);
            lefts.push_reserved(left);
        }
        _ => unreachable!(),
    }
}

/// The passes of the roles of these seats, which are back, and what these left.
pub(crate) fn part_all<F: Held, P: Drop>(
    seats: Vec<Seat<F, P>>,
    passes: &mut Vec<P>,
    lefts: &mut Vec<Left<F>>,
)
    requires back { list_all is_back seats.items ≡ true }
    requires room { (vec_len passes.old + vec_len seats ≤ vec_capacity passes.old) × (vec_len lefts.old + vec_len seats ≤ vec_capacity lefts.old) }
    ensures passes { passes.new.items ≡ passes.old.items ++ map (λ e. e.pass) (ends_of seats.items) }
    ensures lefts { lefts.new.items ≡ lefts.old.items ++ map (λ e. e.left) (ends_of seats.items) }
    ensures room { vec_capacity passes.new ≡ vec_capacity passes.old }
    ensures many { vec_len passes.new ≡ vec_len passes.old + vec_len seats }
{
    for seat in seats {
        part_one(seat, passes, lefts);
    }
}

/// The passes of all roles, of which the last one has this, and what the others left. The lists are empty, and have room.
pub(crate) fn gather<F: Held, P: Drop>(
    feeder: Seat<F, P>,
    seats: Vec<Seat<F, P>>,
    last: P,
    passes: Vec<P>,
    lefts: Vec<Left<F>>,
) -> (Vec<P>, Vec<Left<F>>)
    requires back { (is_back feeder ≡ true) × (list_all is_back seats.items ≡ true) }
    requires empty { (vec_len passes ≡ 0) × (vec_len lefts ≡ 0) }
    requires room { (vec_len seats + 2 ≤ vec_capacity passes) × (vec_len seats + 1 ≤ vec_capacity lefts) }
    ensures passes { result.0.items ≡ map (λ e. e.pass) (ends_of (feeder ∷ seats.items)) ++ last ∷ [] }
    ensures lefts { result.1.items ≡ map (λ e. e.left) (ends_of (feeder ∷ seats.items)) }
{
    let mut passes = passes;
    let mut lefts = lefts;
    part_one(feeder, &mut passes, &mut lefts);
    part_all(seats, &mut passes, &mut lefts);
    passes.push_reserved(last);
    (passes, lefts)
}

/// The seat of the feeder, the seats of the workers at these nodes, and the pass of the last role, of passes that were dealt out.
pub(crate) fn deal<R: Run, B: BoardCalls<Frame<R>>>(
    alloc: Global,
    desk: &TurnLock<Played<Frame<R>, B>>,
    passes: Vec<TurnPass<Frame<R>, B>>,
    nodes: &[u32],
) -> Result<Dealt<Frame<R>, TurnPass<Frame<R>, B>>, OutOfMemory>
    requires many { (vec_len passes ≡ length nodes.now + 2) × (length nodes.now + 2 < 2 ^ 32) }
    requires fresh { (k : ℕ) (p : _) → slice_get passes.items k ≡ Some p → IsFreshOf desk.now.id k p.inner p.said }
    ensures feeder { IfOk result (λ d. IsReady (λ p. IsPassOf desk.now.id p.inner) (λ p. known_by p.inner p.said) 0 0 d.feeder) }
    ensures seats { IfOk result (λ d. vec_len d.workers ≡ length nodes.now) }
    ensures workers { IfOk result (λ d. AreReady (λ p. IsPassOf desk.now.id p.inner) (λ p. known_by p.inner p.said) 1 nodes.now d.workers.items) }
    ensures last { IfOk result (λ d. IsFreshOf desk.now.id (length nodes.now + 1) d.last.inner d.last.said) }
{
    let mut passes = passes;
    let last = passes.pop().unwrap();
    let feeder = Seat::Ready {
        role: 0,
        node: 0,
        pass: passes.remove(0),
    };
    Ok(Dealt {
        feeder,
        workers: worker_seats(alloc, passes, nodes)?,
        last,
    })
}
