//! An operation, played on a board.

ghost use Rattle.board_rules.specs.Movers.{moves_by};
ghost use Rattle.board_rules.specs.RunMeasures.{run_setting, run_measure};
ghost use Rattle.flow_roles.specs.Operations.{frames_of, role_of, MayPlay, Replies, Lends, RepliesAreMoves, MovesAllow};

use crate::{DeskOp, DeskReply};
use board_rules::BoardCalls;
use nd_base::Held;
use std::alloc::Global;

/// Makes the call that the operation is. It may be played by what its role has made, and the reply is the board's answer.
pub fn play<F: Held, B: BoardCalls<F>>(board: &mut B, alloc: Global, op: DeskOp<F>) -> DeskReply<F>
    requires { MayPlay (frames_of F.name_of F.parts F.bytes_of (run_measure F.Of.graph F.Of.stack)) (run_setting F.Of.graph F.Of.stack)
        (moves_by (role_of op) (B.shown board.old)) op }
    ensures replies { Replies (frames_of F.name_of F.parts F.bytes_of (run_measure F.Of.graph F.Of.stack)) (run_setting F.Of.graph F.Of.stack)
        (B.shown board.old) op result (B.shown board.new) }
    ensures lends { Lends (frames_of F.name_of F.parts F.bytes_of (run_measure F.Of.graph F.Of.stack)) (run_setting F.Of.graph F.Of.stack)
        op result (B.shown board.new) }
{
    match op {
        DeskOp::Load { role, tick } => DeskReply::Load(board.load(alloc, role, tick)),
        DeskOp::Issue { role, frame } => DeskReply::Issue(board.issue(role, frame)),
        DeskOp::Take { role, node } => DeskReply::Take(board.take(alloc, role, node)),
        DeskOp::Put { role, done } => DeskReply::Put(board.put(role, done)),
        DeskOp::Settle { role, node } => DeskReply::Settle(board.settle(role, node)),
        DeskOp::Close { role } => DeskReply::Close(board.close(role)),
        DeskOp::Leave { role } => {
            board.leave(role);
            DeskReply::Leave
        }
        DeskOp::Save { role, node } => DeskReply::Save(board.save(role, node)),
        DeskOp::Saved { role, frame } => DeskReply::Saved(board.saved(role, frame)),
        DeskOp::Progress { role: _ } => DeskReply::Progress(board.progress()),
    }
}

/// What holds of each operation that is played: it adds nothing or one move of its role, keeps histories legal, and leaves
/// saving to the drain, and nothing of the storage stays away; and what a role has made allows what the board asks.
pub fn operations_are_moves<F: Held>()
    ensures moves { RepliesAreMoves F F.Blank F.Of }
    ensures allowed { MovesAllow F F.Blank }
{}
