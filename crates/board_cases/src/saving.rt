//! The calls of the role that saves.

ghost use Rattle.std.specs.Prelude.{◌≡◌, IsTrue, OnOk};
ghost use Rattle.flow_journal.specs.Setting.{last_role, is_node};
ghost use Rattle.board_rules.specs.RunMeasures.{run_setting};
ghost use Rattle.chain_plain.specs.Plans.{plan_of};
ghost use Rattle.board_cases.specs.Seats.{IsSaving};
ghost use Rattle.board_cases.specs.Hands.{is_still_save, piece_of};

use crate::line::SaveCall;
use crate::printing::{progress_text, save_text};
use crate::seats::Saver;
use anyhow::{Result, bail};
use board_rules::Save;
use flow_roles::Desk;
use frame_store::Frame;
use nd_base::{Plan, Run};
use std::alloc::Global;
use std::sync::Wait;

/// Whether a save changed nothing.
fn is_still<R: Run>(answer: &Save<Frame<R>>) -> bool
    ensures { result ≡ is_still_save answer.now }
{
    !matches!(answer, Save::Piece { .. })
}

/// The piece to save, if there is one.
fn due_piece<R: Run>(answer: Save<Frame<R>>) -> Option<Frame<R>>
    ensures { result ≡ piece_of answer }
{
    match answer {
        Save::Piece { input, .. } => Some(input),
        _ => None,
    }
}

/// Takes the next piece of a node.
fn save<R: Run, D: Desk<Frame<R>>, W: Wait>(
    rt: &W,
    alloc: Global,
    desk: &D,
    role: u32,
    saver: &mut Saver<Frame<R>, D::Pass>,
    node: u32,
) -> Result<String>
    requires role { role ≡ last_role (run_setting R.graph R.stack) }
    requires node { IsTrue (is_node (run_setting R.graph R.stack) node) }
    requires saving { IsSaving (D.ours desk.now) D.knows R.graph R.stack saver.old }
    ensures { OnOk result (IsSaving (D.ours desk.now) D.knows R.graph R.stack saver.new) }
{
    let answer = desk.save(rt, alloc, &mut saver.pass, role, node);
    let text = save_text(alloc, &answer)?;
    if is_still(&answer) {
        return Ok(text);
    }
    if saver.piece.is_some() {
        bail!("a piece is taken before the one before it is saved");
    }
    saver.piece = due_piece(answer);
    Ok(text)
}

/// Gives the piece back.
pub fn saved<R: Run, D: Desk<Frame<R>>, W: Wait>(
    rt: &W,
    alloc: Global,
    desk: &D,
    role: u32,
    saver: &mut Saver<Frame<R>, D::Pass>,
) -> Result<String>
    requires role { role ≡ last_role (run_setting R.graph R.stack) }
    requires saving { IsSaving (D.ours desk.now) D.knows R.graph R.stack saver.old }
    ensures { OnOk result (IsSaving (D.ours desk.now) D.knows R.graph R.stack saver.new) }
{
    let Some(piece) = saver.piece.take() else {
        bail!("no piece is saved");
    };
    match desk.saved(rt, alloc, &mut saver.pass, role, piece) {
        Ok(()) => Ok(String::from_str(alloc, "saved")?),
        Err(_) => bail!("the piece isn't that of the role"),
    }
}

/// Asks how far the run has come.
fn progress<R: Run, D: Desk<Frame<R>>, W: Wait>(
    rt: &W,
    alloc: Global,
    desk: &D,
    role: u32,
    saver: &mut Saver<Frame<R>, D::Pass>,
) -> Result<String>
    requires role { role ≡ last_role (run_setting R.graph R.stack) }
    requires saving { IsSaving (D.ours desk.now) D.knows R.graph R.stack saver.old }
    ensures { OnOk result (IsSaving (D.ours desk.now) D.knows R.graph R.stack saver.new) }
{
    let answer = desk.progress(rt, alloc, &mut saver.pass, role);
    Ok(progress_text(alloc, answer)?)
}

/// Makes a call of the role that saves, and tells what it answered.
pub fn keep<R: Run, D: Desk<Frame<R>>, W: Wait>(
    rt: &W,
    alloc: Global,
    desk: &D,
    role: u32,
    saver: &mut Saver<Frame<R>, D::Pass>,
    plan: &Plan,
    call: SaveCall,
) -> Result<String>
    requires role { role ≡ last_role (run_setting R.graph R.stack) }
    requires plan { plan.now ≡ plan_of R.graph R.stack }
    requires saving { IsSaving (D.ours desk.now) D.knows R.graph R.stack saver.old }
    ensures { OnOk result (IsSaving (D.ours desk.now) D.knows R.graph R.stack saver.new) }
{
    match call {
        SaveCall::Save { node } => {
            let nodes = plan.graph.nodes.as_slice().len();
            if node == 0 || node as usize > nodes {
                bail!("there is no node {node}");
            }
            save(rt, alloc, desk, role, saver, node)
        }
        SaveCall::Saved => saved(rt, alloc, desk, role, saver),
        SaveCall::Progress => progress(rt, alloc, desk, role, saver),
    }
}
