//! The board.

ghost use Rattle.std.specs.Prelude.{◌≢◌, ◌≤◌, IsTrue};
ghost use Rattle.pool_ledger.specs.Grants.{has_number, sizes};
ghost use Rattle.flow_journal.specs.Accounts.{known};
ghost use Rattle.board_rules.specs.States.{past};
ghost use Rattle.board_rules.specs.RunMeasures.{run_setting};
ghost use Rattle.board_rules.specs.InHand.{TellParts};
ghost use Rattle.board_rules.specs.LastGrants.{last_grant};
ghost use Rattle.board_rules.specs.Storage.{is_away};
ghost use Rattle.flow_core.specs.Boards.{TellsKept};

use frame_table::FrameTable;
use nd_base::Held;
use run_course::{Course, MeasureRoom};
use std::marker::Model;

/// A board over the frames `F`, for the stack and the graph of their run. Contracts see it as the list `BoardState` of its log.
#[derive(Drop)]
pub struct Board<F: Held> {
    pub(crate) course: Course<F>,
    pub(crate) table: FrameTable<F>,
    /// Room for what `into_parts` gives.
    pub(crate) room: MeasureRoom,
}

impl<F: Held> Model for Board<F> {
    ghost use Rattle.board_rules.specs.States.{BoardState};
    ghost use Rattle.board_rules.specs.RunMeasures.{run_setting};
    ghost use Rattle.flow_core.specs.Boards.{IsBoard};

    ghost Value = { BoardState };

    ghost view = { λ b. b.course.told };

    ghost invariant = { λ b. IsBoard F.parts (run_setting F.Of.graph F.Of.stack) b.course b.table };
}

impl<F: Held> Board<F> {
    /// Whether a frame or storage is kept for the block with this number. Only of known blocks, whose sizes together are within the pool's
    /// limit, anything is kept: where frames tell their parts, nothing while an array is in the making there, and then the array.
    pub fn keeps(&self, number: u32) -> bool
        ensures told { TellParts F.parts → IsTrue (has_number number (known (run_setting F.Of.graph F.Of.stack) (past self.now)))
            → TellsKept (is_away number self.now) (last_grant number (past self.now)) result }
        ensures known { IsTrue result → IsTrue (has_number number (known (run_setting F.Of.graph F.Of.stack) (past self.now))) }
        ensures within { (run_setting F.Of.graph F.Of.stack).limit ≢ 0
            → sizes (known (run_setting F.Of.graph F.Of.stack) (past self.now)) ≤ (run_setting F.Of.graph F.Of.stack).limit }
    {
        self.table.keeps(number)
    }
}
