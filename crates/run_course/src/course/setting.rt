//! What the rules of the run say of its roles and nodes.

ghost use Rattle.std.specs.Prelude.{◌≡◌, ◌≤◌, ◌⊎◌, true, length};
ghost use Rattle.flow_journal.specs.Setting.{is_role, is_node, is_maker, is_sorted, children, id_at, node as node_of};
ghost use Rattle.board_rules.specs.RunMeasures.{run_setting};
ghost use Rattle.course_parts.specs.RunRules.{as_node, IsWorkWithin, as_work};
ghost use Rattle.nd_base.specs.declared.frame.FrameName.{FrameName};
ghost use Rattle.flow_journal.specs.Turns.{deals};
ghost use Rattle.flow_journal.specs.ResultNames.{result_name};
ghost use Rattle.run_course.specs.Puts.{work_at};

use crate::Course;
use course_parts::{NodeRules, NodeWork};
use nd_base::{FrameName, Held};

impl<F: Held> Course<F> {
    /// Whether the run has this role; the greatest one is the drain.
    pub fn is_role(&self, role: u32) -> bool
        ensures { result ≡ is_role (run_setting F.Of.graph F.Of.stack) role }
    {
        role <= self.rules.last_role()
    }

    /// Whether the graph has this node.
    pub fn is_node(&self, node: u32) -> bool
        ensures { result ≡ is_node (run_setting F.Of.graph F.Of.stack) node }
    {
        0 < node && node as usize <= self.rules.nodes.as_slice().len()
    }

    /// How many nodes the graph has.
    pub fn node_count(&self) -> u32
        ensures { result ≡ length (run_setting F.Of.graph F.Of.stack).nodes }
    {
        self.rules.nodes.as_slice().len() as u32
    }

    /// The rules of a node.
    pub(crate) fn rules_of(&self, node: u32) -> &NodeRules
        requires { is_node (run_setting F.Of.graph F.Of.stack) node ≡ true }
        ensures rule { as_node result.now ≡ node_of (run_setting F.Of.graph F.Of.stack) node }
        ensures within { IsWorkWithin result.now.work }
        ensures input { result.now.input ≤ length (run_setting F.Of.graph F.Of.stack).nodes }
    {
        self.rules.node(node)
    }

    /// What the node does.
    pub fn work(&self, node: u32) -> NodeWork
        requires { is_node (run_setting F.Of.graph F.Of.stack) node ≡ true }
        ensures { as_work result ≡ work_at (run_setting F.Of.graph F.Of.stack) node }
    {
        let rules = &self.rules.nodes.as_slice()[node as usize - 1];
        rules.work
    }

    /// Whether the node makes arrays of its own.
    pub fn is_maker(&self, node: u32) -> bool
        requires { is_node (run_setting F.Of.graph F.Of.stack) node ≡ true }
        ensures { result ≡ is_maker (run_setting F.Of.graph F.Of.stack) node }
    {
        self.rules_of(node).work.makes()
    }

    /// Whether the node has a sort list.
    pub fn is_sorted(&self, node: u32) -> bool
        requires { is_node (run_setting F.Of.graph F.Of.stack) node ≡ true }
        ensures { result ≡ is_sorted (run_setting F.Of.graph F.Of.stack) node }
    {
        let rules = &self.rules.nodes.as_slice()[node as usize - 1];
        match rules.work {
            NodeWork::Makes | NodeWork::Passes | NodeWork::Deals => 0 < rules.sort,
            NodeWork::Watches { .. } | NodeWork::Saves { .. } => false,
        }
    }

    /// Whether the node deals its arrays out, each to one child.
    pub fn deals(&self, node: u32) -> bool
        requires { node ≤ length (run_setting F.Of.graph F.Of.stack).nodes }
        ensures { result ≡ deals (run_setting F.Of.graph F.Of.stack) node }
    {
        node > 0 && self.rules.node(node).work.deals()
    }

    /// The nodes that a node feeds, in the graph's order; the driver is 0.
    pub fn children(&self, node: u32) -> &[u32]
        requires { node ≤ length (run_setting F.Of.graph F.Of.stack).nodes }
        ensures children { result.now ≡ children (run_setting F.Of.graph F.Of.stack) node }
        ensures few { length result.now ≤ 32 }
    {
        self.rules.children_of(node)
    }

    /// How many arrays the queue of a node takes.
    pub fn queue_of(&self, v: u32) -> u32
        requires { is_node (run_setting F.Of.graph F.Of.stack) v ≡ true }
        ensures { result ≡ (node_of (run_setting F.Of.graph F.Of.stack) v).queue }
    {
        self.rules.node(v).queue
    }

    /// The node whose arrays a node is fed; the driver is 0.
    pub(crate) fn input(&self, node: u32) -> u32
        requires { is_node (run_setting F.Of.graph F.Of.stack) node ≡ true }
        ensures input { result ≡ (node_of (run_setting F.Of.graph F.Of.stack) node).input }
        ensures there { result ≤ length (run_setting F.Of.graph F.Of.stack).nodes }
    {
        self.rules_of(node).input
    }

    /// The bytes of an array of the driver, which is 0, or of a node that makes arrays.
    pub fn need(&self, node: u32) -> u32
        requires { (node ≡ 0) ⊎ (is_maker (run_setting F.Of.graph F.Of.stack) node ≡ true) }
        ensures { result ≡ (run_setting F.Of.graph F.Of.stack).need node }
    {
        if node == 0 {
            return self.rules.need;
        }
        self.rules.nodes.as_slice()[node as usize - 1].need
    }

    /// The id of the frame of this index.
    pub(crate) fn id_at(&self, index: u32) -> i64
        ensures { result ≡ id_at (run_setting F.Of.graph F.Of.stack) index }
    {
        self.rules.id_at(index)
    }

    /// The name of the result of a job.
    pub fn result_name(&self, node: u32, name: FrameName) -> FrameName
        requires { is_node (run_setting F.Of.graph F.Of.stack) node ≡ true }
        ensures { result ≡ result_name (run_setting F.Of.graph F.Of.stack) node name }
    {
        let FrameName { maker, index } = name;
        let maker = if self.is_maker(node) { node } else { maker };
        FrameName { maker, index }
    }
}
