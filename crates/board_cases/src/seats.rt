//! The seats of the roles: what each makes its calls with, and what it has in hand.

ghost use Rattle.std.specs.Prelude.{◌≡◌, ◌+◌, ◌<◌, ℕ, length, vec_len, Some, slice_get, IfOk};
ghost use Rattle.board_rules.specs.RunMeasures.{run_setting};
ghost use Rattle.flow_roles.specs.TurnPasses.{known_by, IsPassOf, IsFreshOf};
ghost use Rattle.flow_roles.specs.Workers as roles;
ghost use Rattle.board_cases.specs.Seats.{workers_of, AreSeated};

use board_rules::BoardCalls;
use flow_roles::{Played, TurnPass};
use frame_store::{Blank, Frame};
use nd_base::{OutOfMemory, Run};
use std::alloc::Global;
use turn_lock::TurnLock;

/// A frame that was loaded, and is to be filled into this storage and issued.
#[derive(Drop)]
pub struct LoadedFrame {
    pub index: u32,
    pub blank: Blank,
}

/// The seat of the feeder.
#[derive(Drop)]
pub struct Feeder<P> {
    pub pass: P,
    pub frame: Option<LoadedFrame>,
}

/// An array to work on, at a maker with storage for what is made of it.
#[derive(Drop)]
pub struct Job<F> {
    pub input: F,
    pub blank: Option<Blank>,
}

/// The seat of a worker at a node.
#[derive(Drop)]
pub struct Worker<F, P> {
    pub node: u32,
    pub pass: P,
    pub job: Option<Job<F>>,
}

/// The seat of the role that saves.
#[derive(Drop)]
pub struct Saver<F, P> {
    pub pass: P,
    pub piece: Option<F>,
}

/// The seats of all roles. Worker k, from 0, has role k + 1.
#[derive(Drop)]
pub struct Seats<F, P> {
    pub feeder: Feeder<P>,
    pub workers: Vec<Worker<F, P>>,
    pub saver: Saver<F, P>,
}

/// The workers at these nodes, with these passes.
fn seat_workers<F: Drop, P: Drop>(
    alloc: Global,
    passes: Vec<P>,
    nodes: &[u32],
) -> Result<Vec<Worker<F, P>>, OutOfMemory>
    requires nodes { vec_len passes ≡ length nodes.now }
    ensures { IfOk result (λ workers. workers.items ≡ workers_of nodes.now passes.items) }
{
    let mut workers = Vec::new(alloc);
    let mut count = 0usize;
    for pass in passes {
        let node = nodes[count];
        count += 1;
        workers.push(Worker {
            node,
            pass,
            job: None,
        })?;
    }
    Ok(workers)
}

/// The seats of the feeder, of the workers at these nodes, and of the last role, with passes that were dealt out.
pub fn deal<R: Run, B: BoardCalls<Frame<R>>>(
    alloc: Global,
    desk: &TurnLock<Played<Frame<R>, B>>,
    passes: Vec<TurnPass<Frame<R>, B>>,
    nodes: &[u32],
) -> Result<Seats<Frame<R>, TurnPass<Frame<R>, B>>, OutOfMemory>
    requires nodes { nodes.now ≡ roles.workers (run_setting R.graph R.stack) }
    requires many { vec_len passes ≡ length nodes.now + 2 }
    requires fresh { (k : ℕ) (p : _) → slice_get passes.items k ≡ Some p → IsFreshOf desk.now.id k p.inner p.said }
    ensures { IfOk result (λ seats. AreSeated (λ p. IsPassOf desk.now.id p.inner) (λ p. known_by p.inner p.said) R.graph R.stack seats) }
{
    let mut passes = passes;
    let last = passes.pop().unwrap();
    let first = passes.remove(0);
    Ok(Seats {
        feeder: Feeder {
            pass: first,
            frame: None,
        },
        workers: seat_workers(alloc, passes, nodes)?,
        saver: Saver {
            pass: last,
            piece: None,
        },
    })
}
