//! How a hand is taken back.

ghost use Rattle.std.specs.Prelude.{◌≡◌, ◌≤◌, ◌∷◌, [], true, false, None};
ghost use Rattle.nd_base.specs.declared.frame.FrameName.{FrameName};
ghost use Rattle.flow_journal.specs.Setting.{last_role};
ghost use Rattle.flow_journal.specs.Hands.{hand};
ghost use Rattle.board_rules.specs.States.{past};
ghost use Rattle.board_rules.specs.InHand.{granted_block, has_grant, has_part_of};
ghost use Rattle.board_rules.specs.Leaving.{reclaim_refusal, MayReclaim};
ghost use Rattle.board_rules.specs.RunMeasures.{run_setting};
ghost use Rattle.kept_blocks.specs.MoveLaws.{taken_back};

use crate::Board;
use crate::storage::{keep_grant, keep_input};
use board_rules::Left;
use nd_base::{FrameName, Held};
use told_log::LostBlocks;

impl<F: Held> Board<F> {
    /// Takes a loaded frame back, which has this block.
    pub(crate) fn reclaim_load(&mut self, role: u32, block: u32, left: Left<F>)
        requires role { role ≤ last_role (run_setting F.Of.graph F.Of.stack) }
        requires allowed { reclaim_refusal (run_setting F.Of.graph F.Of.stack) role (past self.old) ≡ None }
        requires brings { MayReclaim F.name_of F.parts F.bytes_of (run_setting F.Of.graph F.Of.stack) self.old role left }
        requires granted { granted_block (hand role (past self.old)) ≡ block ∷ [] }
        requires alone { (a : FrameName) → has_part_of a (hand role (past self.old)) ≡ false }
        ensures { self.new ≡ taken_back F.name_of (run_setting F.Of.graph F.Of.stack) role left self.old }
    {
        let Left {
            input: _,
            made,
            blank,
        } = left;
        let lost = keep_grant(&mut self.table, block, made, blank);
        flow_emit::reclaim(&mut self.course, role, LostBlocks::new(lost, None));
    }

    /// Takes a job or a piece of this array back with which no block was granted.
    pub(crate) fn reclaim_shared(&mut self, role: u32, name: FrameName, left: Left<F>)
        requires role { role ≤ last_role (run_setting F.Of.graph F.Of.stack) }
        requires allowed { reclaim_refusal (run_setting F.Of.graph F.Of.stack) role (past self.old) ≡ None }
        requires brings { MayReclaim F.name_of F.parts F.bytes_of (run_setting F.Of.graph F.Of.stack) self.old role left }
        requires part { has_part_of name (hand role (past self.old)) ≡ true }
        requires ungranted { has_grant (hand role (past self.old)) ≡ false }
        ensures { self.new ≡ taken_back F.name_of (run_setting F.Of.graph F.Of.stack) role left self.old }
    {
        let Left {
            input,
            made: _,
            blank: _,
        } = left;
        let block = self.course.block(name);
        let lost = keep_input(&mut self.table, block, name, input);
        flow_emit::reclaim(&mut self.course, role, LostBlocks::new(None, lost));
    }

    /// Takes a job on this array back with which this block was granted.
    pub(crate) fn reclaim_making(&mut self, role: u32, name: FrameName, granted: u32, left: Left<F>)
        requires role { role ≤ last_role (run_setting F.Of.graph F.Of.stack) }
        requires allowed { reclaim_refusal (run_setting F.Of.graph F.Of.stack) role (past self.old) ≡ None }
        requires brings { MayReclaim F.name_of F.parts F.bytes_of (run_setting F.Of.graph F.Of.stack) self.old role left }
        requires part { has_part_of name (hand role (past self.old)) ≡ true }
        requires granted { granted_block (hand role (past self.old)) ≡ granted ∷ [] }
        ensures { self.new ≡ taken_back F.name_of (run_setting F.Of.graph F.Of.stack) role left self.old }
    {
        let Left { input, made, blank } = left;
        let block = self.course.block(name);
        let array = keep_input(&mut self.table, block, name, input);
        let lost = keep_grant(&mut self.table, granted, made, blank);
        flow_emit::reclaim(&mut self.course, role, LostBlocks::new(lost, array));
    }
}
