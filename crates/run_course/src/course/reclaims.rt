//! A hand that is taken back.

ghost use Rattle.std.specs.Prelude.{◌≡◌, ◌≤◌, ◌∷◌, [], true, Some, None};
ghost use Rattle.flow_journal.specs.Setting.{last_role};
ghost use Rattle.flow_journal.specs.Hands.{hand};
ghost use Rattle.flow_journal.specs.Histories.{is_history};
ghost use Rattle.board_rules.specs.States.{past, loses};
ghost use Rattle.board_rules.specs.Leaving.{reclaim_refusal};
ghost use Rattle.board_rules.specs.RunMeasures.{run_setting};
ghost use Rattle.course_parts.specs.declared.hand.Hand.TheVariants.{Loaded, Job, Piece};
ghost use Rattle.course_parts.specs.RoleStates.{hand_of};

use crate::Course;
use course_parts::{Block, Hand};
use nd_base::{FrameName, Held};
use told_log::LostBlocks;

impl<F: Held> Course<F> {
    /// A loaded frame is taken back: it is offered again, and its block let go of. Of the blocks in `lost` something stayed away.
    pub fn reclaim_load(&mut self, role: u32, index: u32, block: Block, lost: LostBlocks)
        requires still { self.old.transit ≡ [] }
        requires role { role ≤ last_role (run_setting F.Of.graph F.Of.stack) }
        requires history { is_history (run_setting F.Of.graph F.Of.stack) (past self.old.told) ≡ true }
        requires allowed { reclaim_refusal (run_setting F.Of.graph F.Of.stack) role (past self.old.told) ≡ None }
        requires hand { hand_of (hand role (past self.old.told)) ≡ Loaded index block }
        ensures { self.new ≡ record self.old { told = loses role lost ∷ self.old.told } }
    {
        let state = &mut self.roles[role as usize];
        state.hand = Hand::Free;
        state.was_reclaimed = true;
        self.facts.offered -= 1;
        self.facts.loaded = false;
        self.pool.drop_hold(block.number);
        self.log.push_reclaim(role, lost);
    }

    /// A job without a block of its own is taken back: the array is the next one of its queue again.
    pub fn reclaim_taken(&mut self, role: u32, node: u32, name: FrameName, lost: LostBlocks)
        requires still { self.old.transit ≡ [] }
        requires role { role ≤ last_role (run_setting F.Of.graph F.Of.stack) }
        requires history { is_history (run_setting F.Of.graph F.Of.stack) (past self.old.told) ≡ true }
        requires allowed { reclaim_refusal (run_setting F.Of.graph F.Of.stack) role (past self.old.told) ≡ None }
        requires hand { hand_of (hand role (past self.old.told)) ≡ Job node name None }
        ensures { self.new ≡ record self.old { told = loses role lost ∷ self.old.told } }
    {
        let state = &mut self.nodes[node as usize - 1];
        state.inbox.put_back(name);
        state.jobs -= 1;
        let state = &mut self.roles[role as usize];
        state.hand = Hand::Free;
        state.was_reclaimed = true;
        self.log.push_reclaim(role, lost);
    }

    /// A job that makes an array is taken back: the same, with the block for what was to be made let go of.
    pub fn reclaim_making(
        &mut self,
        role: u32,
        node: u32,
        name: FrameName,
        block: Block,
        lost: LostBlocks,
    )
        requires still { self.old.transit ≡ [] }
        requires role { role ≤ last_role (run_setting F.Of.graph F.Of.stack) }
        requires history { is_history (run_setting F.Of.graph F.Of.stack) (past self.old.told) ≡ true }
        requires allowed { reclaim_refusal (run_setting F.Of.graph F.Of.stack) role (past self.old.told) ≡ None }
        requires hand { hand_of (hand role (past self.old.told)) ≡ Job node name (Some block) }
        ensures { self.new ≡ record self.old { told = loses role lost ∷ self.old.told } }
    {
        let state = &mut self.nodes[node as usize - 1];
        state.inbox.put_back(name);
        state.jobs -= 1;
        let state = &mut self.roles[role as usize];
        state.hand = Hand::Free;
        state.was_reclaimed = true;
        self.pool.drop_hold(block.number);
        self.log.push_reclaim(role, lost);
    }

    /// A piece is taken back: the array is the first unsaved one again.
    pub fn reclaim_piece(&mut self, role: u32, node: u32, name: FrameName, lost: LostBlocks)
        requires still { self.old.transit ≡ [] }
        requires role { role ≤ last_role (run_setting F.Of.graph F.Of.stack) }
        requires history { is_history (run_setting F.Of.graph F.Of.stack) (past self.old.told) ≡ true }
        requires allowed { reclaim_refusal (run_setting F.Of.graph F.Of.stack) role (past self.old.told) ≡ None }
        requires hand { hand_of (hand role (past self.old.told)) ≡ Piece node name }
        ensures { self.new ≡ record self.old { told = loses role lost ∷ self.old.told } }
    {
        let state = &mut self.nodes[node as usize - 1];
        state.unsaved.push_front_reserved(name);
        state.saves -= 1;
        state.saving = false;
        let state = &mut self.roles[role as usize];
        state.hand = Hand::Free;
        state.was_reclaimed = true;
        self.log.push_reclaim(role, lost);
    }
}
