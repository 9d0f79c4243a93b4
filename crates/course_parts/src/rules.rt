//! What a run takes from its plan.

ghost use Rattle.std.specs.Prelude.{◌≡◌, ◌≤◌, ◌-◌, ◌+◌, pos, length, map, slice_get, slice_index_or, sum_by, IfOk, Some, List};
ghost use Rattle.nd_base.specs.Array.{Array};
ghost use Rattle.nd_base.specs.GraphRules.{IsGraph};
ghost use Rattle.nd_base.specs.Stacks.{IsStack};
ghost use Rattle.chain_plain.specs.Plans.{plan_of};
ghost use Rattle.flow_journal.specs.Setting.{Setting, children, makes};
ghost use Rattle.flow_journal.specs.Turns.{is_dealing};
ghost use Rattle.flow_journal.specs.RunSetting.{need_of as need_among, node_of, setting_of, work_of};
ghost use Rattle.flow_journal.specs.LengthLaws.{most_entries};
ghost use Rattle.board_rules.specs.RunMeasures.{run_setting};
ghost use Rattle.course_parts.specs.RunRules.{AreRules, AreNodeRules, IsRule, as_work, children_of, need_of};

use nd_base::{Kind, Maker, Mode, NodeRule, OutOfMemory, Plan, Run, Seq};
use std::alloc::Global;

/// What a node does with its arrays.
#[derive(Clone, Copy, Debug, PartialEq, Eq)]
pub enum NodeWork {
    /// It makes an array of its own of each one.
    Makes,
    /// It passes each array on.
    Passes,
    /// It passes each array on, to one child in turn.
    Deals,
    /// It passes on the arrays in its trigger windows.
    Watches { pre: u32, post: u32, preset: u32 },
    /// It saves arrays in groups of `count`; with `whole_groups` an array is due only once its group is whole.
    Saves { whole_groups: bool, count: u32 },
}

impl NodeWork {
    /// Whether it makes an array of its own of each one.
    pub fn makes(self) -> bool
        ensures { result ≡ makes (as_work self) }
    {
        match self {
            NodeWork::Makes => true,
            NodeWork::Passes
            | NodeWork::Deals
            | NodeWork::Watches { .. }
            | NodeWork::Saves { .. } => false,
        }
    }

    /// Whether each array goes to one child in turn.
    pub fn deals(self) -> bool
        ensures { result ≡ is_dealing (as_work self) }
    {
        match self {
            NodeWork::Deals => true,
            NodeWork::Makes
            | NodeWork::Passes
            | NodeWork::Watches { .. }
            | NodeWork::Saves { .. } => false,
        }
    }
}

/// The rules of a node. `need` is the bytes of an array that it makes.
#[derive(Debug, Drop)]
pub struct NodeRules {
    pub work: NodeWork,
    pub input: u32,
    pub queue: u32,
    pub threads: u32,
    pub sort: u32,
    pub sort_time: u64,
    pub need: u32,
    /// The nodes whose input it is, in the graph's order.
    pub children: Seq<u32>,
}

/// The rules of a run. `need` is the bytes of a frame of the stack, and `children` are the nodes that the driver feeds.
#[derive(Debug, Drop)]
pub struct Rules {
    pub wait: bool,
    pub limit: u64,
    pub ids: Seq<i32>,
    pub need: u32,
    pub children: Seq<u32>,
    pub nodes: Seq<NodeRules>,
}

/// What a node of this kind does.
fn work_of(kind: &Kind) -> NodeWork
    ensures { as_work result ≡ work_of kind.now }
{
    match kind {
        Kind::Roi(_) => NodeWork::Makes,
        Kind::Stats(_) => NodeWork::Passes,
        Kind::Scatter => NodeWork::Deals,
        Kind::Circular(rule) => NodeWork::Watches {
            pre: rule.pre,
            post: rule.post,
            preset: rule.preset,
        },
        Kind::File(rule) => NodeWork::Saves {
            whole_groups: matches!(rule.mode, Mode::Capture),
            count: rule.count,
        },
    }
}

/// The bytes of an array of the first of these makers that is this node, or 0.
fn need_among(makers: &[Maker], node: u32) -> u32
    ensures { result ≡ need_among makers.now node }
{
    for maker in makers {
        if maker.node == node {
            return maker.need;
        }
    }
    0
}

/// The numbers of the nodes whose input is this one, in the graph's order.
fn children_among(alloc: Global, nodes: &[NodeRule], node: u32) -> Result<Vec<u32>, OutOfMemory>
    requires { length nodes.now ≤ 32 }
    ensures { IfOk result (λ v. (s : Setting) → s.nodes ≡ map node_of nodes.now → v.items ≡ children s node) }
{
    let mut children = Vec::new(alloc);
    for (place, rule) in nodes.iter().enumerate() {
        if rule.input == node {
            children.push(place as u32 + 1)?;
        }
    }
    Ok(children)
}

/// The rules of a node of the plan.
fn node_rules(alloc: Global, plan: &Plan, node: u32) -> Result<NodeRules, OutOfMemory>
    requires few { length plan.now.graph.nodes ≤ 32 }
    requires node { (1 ≤ node) × (node ≤ length plan.now.graph.nodes) }
    ensures { IfOk result (λ n. (arrays : List Array) → IsRule (setting_of plan.now.graph plan.now.makers arrays) node n) }
{
    let nodes = plan.graph.nodes.as_slice();
    let rule = &nodes[node as usize - 1];
    let children = children_among(alloc, nodes, node)?;
    Ok(NodeRules {
        work: work_of(&rule.kind),
        input: rule.input,
        queue: rule.queue,
        threads: rule.threads,
        sort: rule.sort,
        sort_time: rule.sort_time,
        need: need_among(plan.makers.as_slice(), node),
        children: Seq::new(children),
    })
}

/// The rules of all nodes of the plan.
fn all_rules(alloc: Global, plan: &Plan) -> Result<Vec<NodeRules>, OutOfMemory>
    requires { length plan.now.graph.nodes ≤ 32 }
    ensures { IfOk result (λ v. (arrays : List Array) → AreNodeRules (setting_of plan.now.graph plan.now.makers arrays) v.items) }
{
    let count = plan.graph.nodes.as_slice().len() as u32;
    let mut rules = Vec::new(alloc);
    for place in 0..count {
        rules.push(node_rules(alloc, plan, place + 1)?)?;
    }
    Ok(rules)
}

impl Rules {
    /// The rules of the run of this plan.
    ///
    /// # Errors
    ///
    /// Only for want of memory.
    pub fn of<R: Run>(alloc: Global, plan: &Plan) -> Result<Rules, OutOfMemory>
        requires plan { plan.now ≡ plan_of R.graph R.stack }
        requires graph { IsGraph R.graph }
        requires stack { IsStack R.stack }
        ensures { IfOk result (λ r. AreRules r (run_setting R.graph R.stack)) }
    {
        let ids = plan.ids.as_slice().to_vec(alloc)?;
        let children = children_among(alloc, plan.graph.nodes.as_slice(), 0)?;
        let nodes = all_rules(alloc, plan)?;
        Ok(Rules {
            wait: plan.graph.wait,
            limit: plan.graph.limit,
            ids: Seq::new(ids),
            need: need_among(plan.makers.as_slice(), 0),
            children: Seq::new(children),
            nodes: Seq::new(nodes),
        })
    }

    /// The rules of a node.
    pub fn node(&self, v: u32) -> &NodeRules
        requires { (1 ≤ v) × (v ≤ length self.now.nodes) }
        ensures { slice_get self.now.nodes (v - 1) ≡ Some result.now }
    {
        &self.nodes.as_slice()[v as usize - 1]
    }

    /// The nodes that a node feeds; the driver is 0.
    pub fn children_of(&self, v: u32) -> &[u32]
        requires { v ≤ length self.now.nodes }
        ensures { result.now ≡ children_of self.now v }
    {
        if v == 0 {
            self.children.as_slice()
        } else {
            self.node(v).children.as_slice()
        }
    }

    /// The id of the frame of this index; 0 behind the last.
    pub fn id_at(&self, index: u32) -> i64
        ensures { result ≡ slice_index_or self.now.ids index (pos 0) }
    {
        match self.ids.as_slice().get(index as usize) {
            Some(id) => i64::from(*id),
            None => 0,
        }
    }

    /// The bytes of an array that the node makes, or of a frame at the driver, which is 0.
    pub fn need_of(&self, v: u32) -> u32
        ensures { result ≡ need_of self.now v }
    {
        if v == 0 {
            return self.need;
        }
        match self.nodes.as_slice().get(v as usize - 1) {
            Some(rules) => rules.need,
            None => 0,
        }
    }

    /// The number of the last role, the drain.
    pub fn last_role(&self) -> u32
        requires { sum_by (λ n. n.threads) self.now.nodes ≤ 64 }
        ensures { result ≡ sum_by (λ n. n.threads) self.now.nodes + 1 }
    {
        let threads: u32 = self
            .nodes
            .as_slice()
            .iter()
            .map(|rules| rules.threads)
            .sum();
        threads + 1
    }

    /// The most entries that the log of a run of these rules can have.
    pub fn most_entries(&self) -> u32
        requires frames { length self.now.ids ≤ 65536 }
        requires nodes { length self.now.nodes ≤ 32 }
        requires threads { sum_by (λ n. n.threads) self.now.nodes ≤ 64 }
        ensures { (s : Setting) → AreRules self.now s → result ≡ most_entries s }
    {
        let frames = self.ids.as_slice().len() as u32;
        let nodes = self.nodes.as_slice().len() as u32;
        let arrivals = frames * nodes;
        5 * arrivals + 4 * frames + nodes + 4 * self.last_role() + 2
    }
}
