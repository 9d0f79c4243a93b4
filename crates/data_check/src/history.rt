//! What the files of a finished run are made of.

ghost use Rattle.std.specs.Prelude.{◌≡◌, ◌<◌, Some, length, option_copied, All, IfOk};
ghost use Rattle.nd_base.specs.GraphRules.{rule_at};
ghost use Rattle.chain_plain.specs.Content.{content};
ghost use Rattle.flow_journal.specs.RunSetting.{work_of};
ghost use Rattle.flow_journal.specs.Unsaved.{is_file};
ghost use Rattle.graph_files.specs.OutFiles.{file_shape};
ghost use Rattle.data_check.specs.Histories.{IsHistory, position_in, arrays_at, all_arrays};

use chain_plain::content;
use flow_journal::{Entry, Log};
use graph_files::file_shape;
use nd_base::{FileShape, FrameName, Kind, NdArray, NodeRule, OutOfMemory, Plan, Stack, rule_at};
use std::alloc::Global;
use std::marker::Model;

/// A finished run: its plan, its stack and its log, and what the names of its files begin with.
#[derive(Drop)]
pub(crate) struct History<'a> {
    pub(crate) plan: &'a Plan,
    pub(crate) stack: &'a Stack,
    pub(crate) log: &'a Log,
    pub(crate) prefix: &'a str,
}

impl<'a> Model for History<'a> {
    ghost use Rattle.std.specs.Coded.{codes};
    ghost use Rattle.std.specs.Prelude.{◌≡◌};
    ghost use Rattle.nd_base.specs.TreeCodes.{tree_code};
    ghost use Rattle.chain_plain.specs.Plans.{plan_of};
    ghost use Rattle.data_check.specs.Histories.{HistoryValue, IsHistory};

    ghost Value = { HistoryValue };

    ghost coded = { Prim.hlevel (codes, tree_code) };

    ghost view = { λ h. record { graph = h.plan.now.graph; stack = h.stack.now; past = h.log.now.past; prefix = h.prefix.now } };

    ghost invariant = { λ h. (h.plan.now ≡ plan_of h.plan.now.graph h.stack.now)
        × IsHistory (record { graph = h.plan.now.graph; stack = h.stack.now; past = h.log.now.past; prefix = h.prefix.now }) };
}

/// Whether a node of this kind saves what is put there.
fn saves(kind: &Kind) -> bool
    ensures { result ≡ is_file (work_of kind.now) }
{
    matches!(kind, Kind::File(_))
}

/// The position of the array that leaves a node by this entry, if one does: by its Put where the node saves what is put, and else by its Emit.
fn position_in(entry: &Entry, node: u32, saves: bool) -> Option<u32>
    ensures { result ≡ position_in saves node entry.now }
{
    match *entry {
        Entry::Put {
            node: at,
            index,
            ..
        } => (saves && at == node).then_some(index),
        Entry::Emit {
            node: at,
            index,
            ..
        } => (!saves && at == node).then_some(index),
        _ => None,
    }
}

impl<'a> History<'a> {
    /// What is known of every history. It does nothing.
    pub(crate) fn known(&self)
        ensures { IsHistory self.now }
    {
        let _plan = &self.plan;
    }

    /// What the names of the files begin with.
    pub(crate) fn prefix(&self) -> &str
        ensures value { result.now ≡ self.now.prefix }
        ensures known { IsHistory self.now }
    {
        self.prefix
    }

    /// How many nodes the graph has.
    pub(crate) fn nodes(&self) -> u32
        ensures { result ≡ length self.now.graph.nodes }
    {
        self.plan.graph.nodes.as_slice().len() as u32
    }

    /// The rule of a node.
    pub(crate) fn rule(&self, node: u32) -> Option<&NodeRule>
        ensures value { option_copied result ≡ rule_at self.now.graph.nodes node }
        ensures known { IsHistory self.now }
    {
        rule_at(self.plan.graph.nodes.as_slice(), node)
    }

    /// The shape of the arrays that go out of a node, as its files have it.
    ///
    /// # Errors
    ///
    /// Only for want of memory.
    pub(crate) fn shape(&self, alloc: Global, node: u32) -> Result<FileShape, OutOfMemory>
        ensures value { IfOk result (λ shape. shape ≡ file_shape self.now.graph self.now.stack node) }
        ensures known { IsHistory self.now }
    {
        file_shape(alloc, self.plan, self.stack, node)
    }

    /// The array that goes out of a node at a position.
    ///
    /// # Errors
    ///
    /// Only for want of memory.
    pub(crate) fn array(&self, alloc: Global, node: u32, index: u32) -> Result<NdArray, OutOfMemory>
        requires { index < length self.now.stack.arrays }
        ensures array { IfOk result (λ a. content self.now.graph.nodes self.now.stack.arrays (record { maker = node; index = index }) ≡ Some a) }
        ensures known { IsHistory self.now }
    {
        let name = FrameName { maker: node, index };
        content(alloc, self.plan, self.stack, name)
    }

    /// The positions of the arrays that went out of a node, in their order, by one pass over the log: a file node saves what is put there, and every
    /// other node emits.
    ///
    /// # Errors
    ///
    /// Only for want of memory.
    pub(crate) fn positions(
        &self,
        alloc: Global,
        node: u32,
        rule: &NodeRule,
    ) -> Result<Vec<u32>, OutOfMemory>
        requires { rule_at self.now.graph.nodes node ≡ Some rule.now }
        ensures arrays { IfOk result (λ v. arrays_at self.now node v.items ≡ all_arrays self.now node) }
        ensures frames { IfOk result (λ v. All (λ k. k < length self.now.stack.arrays) v.items) }
    {
        let frames = self.stack.frames();
        let saves = saves(&rule.kind);
        let mut positions = Vec::new(alloc);
        for entry in self.log.entries() {
            let Some(index) = position_in(entry, node, saves) else {
                continue;
            };
            if index < frames {
                positions.push(index)?;
            }
        }
        Ok(positions)
    }
}
