//! What the roles have in hand.

ghost use Rattle.std.specs.Prelude.{◌≡◌, ◌≤◌, [], ◌∷◌, true, false, MatchOption};
ghost use Rattle.flow_journal.specs.Setting.{last_role};
ghost use Rattle.flow_journal.specs.Hands.{hand, is_free};
ghost use Rattle.flow_journal.specs.Ended.{has_left};
ghost use Rattle.board_rules.specs.States.{past};
ghost use Rattle.board_rules.specs.InHand.{hand_name, hand_node, is_load_of, is_job_on, is_piece_on, has_part_of, granted_block, granted_size, has_grant};
ghost use Rattle.board_rules.specs.RunMeasures.{run_setting};
ghost use Rattle.course_parts.specs.RoleStates.{role_of, hand_of};

use crate::Course;
use board_rules::HandName;
use course_parts::{Block, Hand, RoleState};
use nd_base::{FrameName, Held};

impl<F: Held> Course<F> {
    /// What is kept of a role.
    pub(crate) fn role(&self, role: u32) -> RoleState
        requires { role ≤ last_role (run_setting F.Of.graph F.Of.stack) }
        ensures { result ≡ role_of (past self.now.told) role }
    {
        self.roles[role as usize]
    }

    /// What a role has in hand.
    pub fn hand(&self, role: u32) -> Hand
        requires { role ≤ last_role (run_setting F.Of.graph F.Of.stack) }
        ensures { result ≡ hand_of (hand role (past self.now.told)) }
    {
        self.role(role).hand
    }

    /// Whether a role has nothing in hand.
    pub fn is_free(&self, role: u32) -> bool
        requires { role ≤ last_role (run_setting F.Of.graph F.Of.stack) }
        ensures { result ≡ is_free role (past self.now.told) }
    {
        self.hand(role).is_free()
    }

    /// Whether a role has left.
    pub fn has_left(&self, role: u32) -> bool
        requires { role ≤ last_role (run_setting F.Of.graph F.Of.stack) }
        ensures { result ≡ has_left role (past self.now.told) }
    {
        self.role(role).has_left
    }

    /// The array in a role's hand, and its node.
    pub fn hand_name(&self, role: u32) -> Option<HandName>
        requires { role ≤ last_role (run_setting F.Of.graph F.Of.stack) }
        ensures { result ≡ hand_name (hand role (past self.now.told)) }
    {
        self.hand(role).array()
    }

    /// The node of a role's hand, or 0 without one.
    pub fn hand_node(&self, role: u32) -> u32
        requires { role ≤ last_role (run_setting F.Of.graph F.Of.stack) }
        ensures { result ≡ hand_node (hand role (past self.now.told)) }
    {
        self.hand(role).node()
    }

    /// Whether this frame is loaded in a role's hand.
    pub fn is_load_of(&self, role: u32, name: FrameName) -> bool
        requires { role ≤ last_role (run_setting F.Of.graph F.Of.stack) }
        ensures { result ≡ is_load_of name (hand role (past self.now.told)) }
    {
        self.hand(role).is_load_of(name)
    }

    /// Whether a role's hand is a job of the node on this array.
    pub fn is_job_on(&self, role: u32, node: u32, name: FrameName) -> bool
        requires { role ≤ last_role (run_setting F.Of.graph F.Of.stack) }
        ensures { result ≡ is_job_on node name (hand role (past self.now.told)) }
    {
        self.hand(role).is_job_on(node, name)
    }

    /// Whether a role's hand is a piece of this array.
    pub fn is_piece_on(&self, role: u32, name: FrameName) -> bool
        requires { role ≤ last_role (run_setting F.Of.graph F.Of.stack) }
        ensures { result ≡ is_piece_on name (hand role (past self.now.told)) }
    {
        self.hand(role).is_piece_on(name)
    }

    /// Whether a role's hand is a job or a piece of this array.
    pub fn has_part_of(&self, role: u32, name: FrameName) -> bool
        requires { role ≤ last_role (run_setting F.Of.graph F.Of.stack) }
        ensures { result ≡ has_part_of name (hand role (past self.now.told)) }
    {
        self.hand(role).has_part_of(name)
    }

    /// The block that was granted with a role's hand.
    pub fn granted(&self, role: u32) -> Option<Block>
        requires { role ≤ last_role (run_setting F.Of.graph F.Of.stack) }
        ensures block { MatchOption result (granted_block (hand role (past self.now.told)) ≡ [])
            (λ b. granted_block (hand role (past self.now.told)) ≡ b.number ∷ []) }
        ensures size { MatchOption result (has_grant (hand role (past self.now.told)) ≡ false) (λ b. granted_size (hand role (past self.now.told)) ≡ b.size) }
        ensures some { MatchOption result (has_grant (hand role (past self.now.told)) ≡ false) (λ b. has_grant (hand role (past self.now.told)) ≡ true) }
    {
        self.hand(role).granted()
    }
}
