//! The end of a list of calls.

ghost use Rattle.std.specs.Prelude.{◌≡◌, ◌∷◌, ◌++◌, [], None, map, IfOk, OnOk, IsTrue};
ghost use Rattle.nd_base.specs.GraphRules.{IsGraph};
ghost use Rattle.chain_plain.specs.Plans.{plan_of};
ghost use Rattle.flow_journal.specs.Setting.{last_role, is_node};
ghost use Rattle.board_rules.specs.RunMeasures.{run_setting};
ghost use Rattle.board_cases.specs.Ends.{left_of_frame, left_of_job, passes_of, lefts_of};

use crate::seats::{Feeder, Job, LoadedFrame, Saver, Seats, Worker};
use anyhow::{Result, bail};
use board_rules::{BoardCalls, Left, Save};
use flow_roles::nothing;
use frame_store::Frame;
use nd_base::{Plan, Run};
use std::alloc::Global;

/// What the feeder leaves.
fn left_of_feeder<R: Run>(frame: Option<LoadedFrame>) -> Left<Frame<R>>
    ensures { result ≡ left_of_frame frame }
{
    match frame {
        Some(LoadedFrame { index: _, blank }) => Left {
            input: None,
            made: None,
            blank: Some(blank),
        },
        None => nothing(),
    }
}

/// What a worker leaves.
fn left_of_worker<R: Run>(job: Option<Job<Frame<R>>>) -> Left<Frame<R>>
    ensures { result ≡ left_of_job job }
{
    match job {
        Some(Job { input, blank }) => Left {
            input: Some(input),
            made: None,
            blank,
        },
        None => nothing(),
    }
}

/// The passes of all roles, and what all but the last have in hand. The last one has nothing.
pub fn gather<R: Run, P: Drop>(
    alloc: Global,
    seats: Seats<Frame<R>, P>,
) -> Result<(Vec<P>, Vec<Left<Frame<R>>>)>
    ensures passes { IfOk result (λ r. r.0.items ≡ passes_of seats) }
    ensures lefts { IfOk result (λ r. r.1.items ≡ lefts_of seats) }
    ensures piece { OnOk result (seats.saver.piece ≡ None) }
{
    let Seats {
        feeder: Feeder { pass, frame },
        workers,
        saver: Saver { pass: last, piece },
    } = seats;
    let None = piece else {
        bail!("a piece isn't saved");
    };
    let mut passes = Vec::new(alloc);
    let mut lefts = Vec::new(alloc);
    passes.push(pass)?;
    lefts.push(left_of_feeder(frame))?;
    for worker in workers {
        let Worker { node: _, pass, job } = worker;
        passes.push(pass)?;
        lefts.push(left_of_worker(job))?;
    }
    passes.push(last)?;
    Ok((passes, lefts))
}

/// Saves the next piece of a node, if one is due. Tells whether one was.
fn save_one<R: Run, B: BoardCalls<Frame<R>>>(board: &mut B, role: u32, node: u32) -> Result<bool>
    requires role { role ≡ last_role (run_setting R.graph R.stack) }
    requires node { IsTrue (is_node (run_setting R.graph R.stack) node) }
{
    match board.save(role, node) {
        Save::Piece { input, .. } => match board.saved(role, input) {
            Ok(()) => Ok(true),
            Err(_) => bail!("the piece isn't that of the role"),
        },
        _ => Ok(false),
    }
}

/// Saves all that is due: no node has more pieces than there are frames.
pub fn save_all<R: Run, B: BoardCalls<Frame<R>>>(
    board: &mut B,
    role: u32,
    plan: &Plan,
) -> Result<()>
    requires role { role ≡ last_role (run_setting R.graph R.stack) }
    requires plan { plan.now ≡ plan_of R.graph R.stack }
    requires graph { IsGraph R.graph }
{
    let nodes = plan.graph.nodes.as_slice().len() as u32;
    for node in 1..nodes + 1 {
        for _ in 0..plan.ids.as_slice().len() {
            if !save_one::<R, B>(board, role, node)? {
                break;
            }
        }
    }
    Ok(())
}
