//! What stands against a call.

ghost use Rattle.std.specs.Prelude.{◌≡◌, ◌≤◌, ◌<◌, ◌+◌, ◌||◌, true, false, not, nat_le, nat_lt, slice_get, length, Some};
ghost use Rattle.std.specs.List.{list_all, list_any, All};
ghost use Rattle.flow_journal.specs.Setting.{last_role, is_node, node as node_of};
ghost use Rattle.flow_journal.specs.Queued.{queued, has_room};
ghost use Rattle.flow_journal.specs.Offered.{next_index};
ghost use Rattle.flow_journal.specs.Unsaved.{unsaved, standing_saves};
ghost use Rattle.flow_journal.specs.Ended.{is_closed, is_settled, has_ended};
ghost use Rattle.flow_journal.specs.FirstEntries.{is_next};
ghost use Rattle.flow_journal.specs.Finished.{none_left};
ghost use Rattle.flow_journal.specs.Puts.{puts};
ghost use Rattle.flow_journal.specs.Hands.{hands, jobs, is_piece};
ghost use Rattle.board_rules.specs.States.{past};
ghost use Rattle.board_rules.specs.Feeding.{is_sent_away, load_refusal, waits_to_close};
ghost use Rattle.board_rules.specs.Working.{take_refusal, waits_to_settle};
ghost use Rattle.board_rules.specs.Saving.{has_due, save_refusal, place_of, group_size, is_whole_group, size_of_group};
ghost use Rattle.board_rules.specs.Leaving.{reclaim_refusal};
ghost use Rattle.board_rules.specs.RunMeasures.{run_setting, run_measure};
ghost use Rattle.course_parts.specs.NodeStates.{IsNode};

use crate::Course;
use board_rules::{Load, NoWhy, Save, Take};
use course_parts::{NodeState, NodeWork, is_whole_group, size_of_group};
use nd_base::{FrameName, Held};
use queue_sort::Inbox;

/// The next item of an inbox.
fn next_of(inbox: &mut Inbox<FrameName>) -> FrameName
    requires some { 0 < length inbox.old.items }
    requires fits { length inbox.old.items ≤ inbox.old.size + inbox.old.extra }
    ensures next { slice_get inbox.old.items 0 ≡ Some result }
    ensures same { inbox.new ≡ inbox.old }
{
    let Some(name) = inbox.pop() else {
        unreachable!()
    };
    inbox.put_back(name);
    name
}

impl<F: Held> Course<F> {
    /// What is kept of a node.
    pub(crate) fn state(&self, node: u32) -> &NodeState
        requires { is_node (run_setting F.Of.graph F.Of.stack) node ≡ true }
        ensures kept { IsNode (run_measure F.Of.graph F.Of.stack) (run_setting F.Of.graph F.Of.stack) node (past self.now.told) result.now }
        ensures few { result.now.saves ≤ 65536 }
    {
        &self.nodes[node as usize - 1]
    }

    /// Whether some role has left, and this one isn't the drain.
    fn is_sent_away(&self, role: u32) -> bool
        ensures { result ≡ is_sent_away (run_setting F.Of.graph F.Of.stack) role (past self.now.told) }
    {
        self.facts.left && role != self.rules.last_role()
    }

    /// Whether each of these nodes has room.
    fn have_room(&self, nodes: &[u32]) -> bool
        requires { All (λ v. is_node (run_setting F.Of.graph F.Of.stack) v ≡ true) nodes.now }
        ensures { result ≡ list_all (has_room (run_setting F.Of.graph F.Of.stack) (past self.now.told)) nodes.now }
    {
        for node in nodes {
            if !self.has_room(*node) {
                return false;
            }
        }
        true
    }

    /// What stands against a load by this role.
    pub fn load_refusal<B>(&self, role: u32) -> Option<Load<B>>
        requires { role ≤ last_role (run_setting F.Of.graph F.Of.stack) }
        ensures { result ≡ load_refusal (run_setting F.Of.graph F.Of.stack) role (past self.now.told) }
    {
        if self.is_sent_away(role) {
            return Some(Load::Left);
        }
        if self.facts.loaded || !self.is_free(role) {
            return Some(Load::Busy);
        }
        if self.facts.offered as usize >= self.rules.ids.as_slice().len() {
            return Some(Load::Ended);
        }
        if self.rules.wait && !self.have_room(self.rules.children_of(0)) {
            return Some(Load::NotYet);
        }
        None
    }

    /// The index of the next frame that is offered.
    pub fn next_index(&self) -> u32
        ensures { result ≡ next_index (past self.now.told) }
    {
        self.facts.offered
    }

    /// Whether the node is settled.
    pub fn is_settled(&self, node: u32) -> bool
        requires { is_node (run_setting F.Of.graph F.Of.stack) node ≡ true }
        ensures { result ≡ is_settled node (past self.now.told) }
    {
        self.state(node).settled
    }

    /// Whether nothing is queued at the node, or as many of its jobs are in hand as it has threads.
    fn is_idle(&self, node: u32) -> bool
        requires { is_node (run_setting F.Of.graph F.Of.stack) node ≡ true }
        ensures { result ≡ (none_left (queued node (past self.now.told))
            || nat_le (node_of (run_setting F.Of.graph F.Of.stack) node).threads (jobs node (past self.now.told))) }
    {
        let state = self.state(node);
        state.inbox.len() == 0 || state.jobs >= self.rules_of(node).threads
    }

    /// What stands against a take of a job of the node by this role.
    pub fn take_refusal(&self, role: u32, node: u32) -> Option<Take<F>>
        requires role { role ≤ last_role (run_setting F.Of.graph F.Of.stack) }
        requires node { is_node (run_setting F.Of.graph F.Of.stack) node ≡ true }
        ensures { result ≡ take_refusal (run_setting F.Of.graph F.Of.stack) role node (past self.now.told) }
    {
        if self.is_sent_away(role) {
            return Some(Take::Left);
        }
        if !self.is_free(role) {
            return Some(Take::Busy);
        }
        if self.is_settled(node) {
            return Some(Take::Ended);
        }
        if self.is_idle(node) {
            return Some(Take::Idle);
        }
        None
    }

    /// The next array of the node's queue.
    pub fn next_queued(&mut self, node: u32) -> FrameName
        requires node { is_node (run_setting F.Of.graph F.Of.stack) node ≡ true }
        requires some { none_left (queued node (past self.old.told)) ≡ false }
        ensures next { is_next result (queued node (past self.old.told)) ≡ true }
        ensures same { self.new ≡ self.old }
    {
        next_of(&mut self.nodes[node as usize - 1].inbox)
    }

    /// Whether the next array that a node has to save is due.
    fn has_due(&self, node: u32) -> bool
        requires { is_node (run_setting F.Of.graph F.Of.stack) node ≡ true }
        ensures { result ≡ has_due (run_setting F.Of.graph F.Of.stack) node (past self.now.told) }
    {
        let state = self.state(node);
        match self.rules_of(node).work {
            NodeWork::Saves {
                whole_groups,
                count,
            } => {
                !state.unsaved.is_empty()
                    && (!whole_groups
                        || state.settled
                        || is_whole_group(count, state.saves, state.puts))
            }
            NodeWork::Makes | NodeWork::Passes | NodeWork::Deals | NodeWork::Watches { .. } =>
                false,
        }
    }

    /// Whether a piece of the node is in a hand.
    fn is_saving(&self, node: u32) -> bool
        requires { is_node (run_setting F.Of.graph F.Of.stack) node ≡ true }
        ensures { result ≡ list_any (is_piece node) (hands (past self.now.told)) }
    {
        self.state(node).saving
    }

    /// What stands against a save of a piece of the node by this role.
    pub fn save_refusal(&self, role: u32, node: u32) -> Option<Save<F>>
        requires role { role ≤ last_role (run_setting F.Of.graph F.Of.stack) }
        requires node { is_node (run_setting F.Of.graph F.Of.stack) node ≡ true }
        ensures { result ≡ save_refusal (run_setting F.Of.graph F.Of.stack) role node (past self.now.told) }
    {
        if !self.is_free(role) {
            return Some(Save::Busy);
        }
        if !self.has_due(node) || self.is_saving(node) {
            return Some(Save::NotYet);
        }
        None
    }

    /// The next array that the node has to save.
    pub fn next_unsaved(&self, node: u32) -> FrameName
        requires node { is_node (run_setting F.Of.graph F.Of.stack) node ≡ true }
        requires some { none_left (unsaved (run_setting F.Of.graph F.Of.stack) node (past self.now.told)) ≡ false }
        ensures { is_next result (unsaved (run_setting F.Of.graph F.Of.stack) node (past self.now.told)) ≡ true }
    {
        let Some(name) = self.state(node).unsaved.front() else {
            unreachable!()
        };
        *name
    }

    /// The place in its group of the next piece of the node, or 0 where it saves nothing.
    pub fn next_place(&self, node: u32) -> u32
        requires { is_node (run_setting F.Of.graph F.Of.stack) node ≡ true }
        ensures { result ≡ place_of (node_of (run_setting F.Of.graph F.Of.stack) node).work (length (standing_saves node (past self.now.told))) }
    {
        match self.rules_of(node).work {
            NodeWork::Saves { count, .. } => self.state(node).saves % count,
            NodeWork::Makes | NodeWork::Passes | NodeWork::Deals | NodeWork::Watches { .. } => 0,
        }
    }

    /// How many arrays the group of the next piece of the node has, once that is known.
    pub fn next_size(&self, node: u32) -> Option<u32>
        requires { is_node (run_setting F.Of.graph F.Of.stack) node ≡ true }
        ensures { result ≡ group_size (node_of (run_setting F.Of.graph F.Of.stack) node).work (length (standing_saves node (past self.now.told)))
            (is_settled node (past self.now.told)) (length (puts node (past self.now.told))) }
    {
        let state = self.state(node);
        match self.rules_of(node).work {
            NodeWork::Saves { count, .. } => {
                size_of_group(count, state.saves, state.settled, state.puts)
            }
            NodeWork::Makes | NodeWork::Passes | NodeWork::Deals | NodeWork::Watches { .. } => None,
        }
    }

    /// What stands against a reclaim of what this role has in hand.
    pub fn reclaim_refusal(&self, role: u32) -> Option<NoWhy>
        requires { role ≤ last_role (run_setting F.Of.graph F.Of.stack) }
        ensures { result ≡ reclaim_refusal (run_setting F.Of.graph F.Of.stack) role (past self.now.told) }
    {
        if self.is_free(role) {
            return Some(NoWhy::NoHand);
        }
        if self.role(role).was_reclaimed || role == self.rules.last_role() {
            return Some(NoWhy::Spent);
        }
        None
    }

    /// Whether the feed has ended.
    pub fn is_closed(&self) -> bool
        ensures { result ≡ is_closed (past self.now.told) }
    {
        self.facts.closed
    }

    /// Whether a frame wasn't offered yet, or a loaded one wasn't issued.
    pub fn waits_to_close(&self) -> bool
        ensures { result ≡ waits_to_close (run_setting F.Of.graph F.Of.stack) (past self.now.told) }
    {
        self.facts.offered as usize != self.rules.ids.as_slice().len() || self.facts.loaded
    }

    /// Whether the driver, which is 0, or a node has ended.
    fn has_ended(&self, node: u32) -> bool
        requires { node ≤ length (run_setting F.Of.graph F.Of.stack).nodes }
        ensures { result ≡ has_ended node (past self.now.told) }
    {
        if node == 0 {
            return self.facts.closed;
        }
        self.is_settled(node)
    }

    /// Whether something is queued at the node.
    fn has_queued(&self, node: u32) -> bool
        requires { is_node (run_setting F.Of.graph F.Of.stack) node ≡ true }
        ensures { result ≡ not (none_left (queued node (past self.now.told))) }
    {
        self.state(node).inbox.len() != 0
    }

    /// Whether a job of the node is in hand.
    fn has_jobs(&self, node: u32) -> bool
        requires { is_node (run_setting F.Of.graph F.Of.stack) node ≡ true }
        ensures { result ≡ nat_lt 0 (jobs node (past self.now.told)) }
    {
        self.state(node).jobs > 0
    }

    /// Whether the node isn't settled, and can't be yet.
    pub fn waits_to_settle(&self, node: u32) -> bool
        requires { is_node (run_setting F.Of.graph F.Of.stack) node ≡ true }
        ensures { result ≡ waits_to_settle (run_setting F.Of.graph F.Of.stack) node (past self.now.told) }
    {
        if self.is_settled(node) {
            return false;
        }
        if !self.has_ended(self.input(node)) {
            return true;
        }
        self.has_queued(node) || self.has_jobs(node)
    }
}
