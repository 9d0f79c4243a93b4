//! A board under the turn lock.

ghost use Rattle.std.specs.Prelude.{◌≡◌, true, []};
ghost use Rattle.flow_journal.specs.Histories.{is_history};
ghost use Rattle.board_rules.specs.States.{past};
ghost use Rattle.board_rules.specs.Storage.{HasAllStorage};
ghost use Rattle.board_rules.specs.RunMeasures.{run_setting};
ghost use Rattle.flow_roles.specs.Passes.{only_drain_saves};

use crate::{DeskOp, DeskReply, play};
use board_rules::{BoardCalls, Told};
use nd_base::Held;
use std::alloc::Global;
use std::marker::PhantomData;
use turn_lock::Object;

/// A board whose calls are operations. Its log is legal, the drain alone has saved, and no storage has stayed away.
#[derive(Drop)]
pub struct Played<F: Held, B: BoardCalls<F>> {
    pub board: B,
    pub frames: PhantomData<F>,
    ghost legal: { is_history (run_setting F.Of.graph F.Of.stack) (past (B.shown board)) ≡ true },
    ghost drained: { only_drain_saves (run_setting F.Of.graph F.Of.stack) (past (B.shown board)) ≡ true },
    ghost storage: { HasAllStorage F.parts (B.shown board) },
}

impl<F: Held, B: BoardCalls<F>> Played<F, B> {
    /// A board that nobody has called.
    pub fn new(board: B) -> Played<F, B>
        requires { B.shown board ≡ [] }
        ensures { result.board ≡ board }
    {
        Played {
            board,
            frames: PhantomData,
        }
    }
}

/// The lock has the oldest entries first.
impl<F: Held, B: BoardCalls<F>> Object for Played<F, B> {
    type Op = DeskOp<F>;

    type Reply = DeskReply<F>;

    type Entry = Told;

    ghost use Rattle.std.specs.Prelude.{reverse};
    ghost use Rattle.board_rules.specs.RunMeasures.{run_setting, run_measure};
    ghost use Rattle.flow_roles.specs.Operations.{frames_of, role_of, begins_of, MayBePlayed, IsPlayed};

    ghost entries = { λ p. reverse (B.shown p.board) };

    ghost role = { role_of };

    ghost begins = { begins_of };

    ghost may = { λ mine op. MayBePlayed (frames_of F.name_of F.parts F.bytes_of (run_measure F.Of.graph F.Of.stack))
        (run_setting F.Of.graph F.Of.stack) mine op };

    ghost answers = { λ old op reply added. IsPlayed (frames_of F.name_of F.parts F.bytes_of (run_measure F.Of.graph F.Of.stack))
        (run_setting F.Of.graph F.Of.stack) old op reply added };

    fn play(&mut self, alloc: Global, op: DeskOp<F>) -> DeskReply<F> {
        play(&mut self.board, alloc, op)
    }
}
