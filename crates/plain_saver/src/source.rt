//! What a plain run goes over.

ghost use Rattle.std.specs.Prelude.{◌≡◌, ◌<◌, ◌≤◌, length, slice_get, IfOk, IfSome, OnOk};
ghost use Rattle.nd_base.specs.Stacks.{IsStack, head_of};
ghost use Rattle.chain_plain.specs.Content.{IsContent};
ghost use Rattle.chain_plain.specs.ContentLaws.{IsArrayShape};
ghost use Rattle.chain_plain.specs.PlainRun.{passed};
ghost use Rattle.chain_plain.specs.Plans.{plan_of, maker_of, shape_at};
ghost use Rattle.plain_saver.specs.Rooms.{AreRooms, HasFrame};
ghost use Rattle.plain_saver.specs.Sources.{IsSource};

use crate::passing::passed;
use crate::rooms::{Rooms, made_by};
use nd_base::{Head, Maker, NodeRule, OutOfMemory, Plan, Stack};
use std::alloc::Global;
use std::marker::Model;

/// The plan of a graph and the stack that it goes over, where both meet their rules and no limit is passed. Contracts see the graph and the stack.
#[derive(Drop)]
pub(crate) struct Source<'a> {
    pub(crate) plan: &'a Plan,
    pub(crate) stack: &'a Stack,
}

impl<'a> Model for Source<'a> {
    ghost use Rattle.std.specs.Coded.{codes};
    ghost use Rattle.std.specs.Prelude.{◌≡◌};
    ghost use Rattle.nd_base.specs.TreeCodes.{tree_code};
    ghost use Rattle.chain_plain.specs.Plans.{plan_of};
    ghost use Rattle.plain_saver.specs.Sources.{IsSource, SourceValue};

    ghost Value = { SourceValue };

    ghost coded = { Prim.hlevel (codes, tree_code) };

    ghost view = { λ s. record { graph = s.plan.now.graph; stack = s.stack.now } };

    ghost invariant = { λ s. (s.plan.now ≡ plan_of s.plan.now.graph s.stack.now)
        × IsSource (record { graph = s.plan.now.graph; stack = s.stack.now }) };
}

impl<'a> Source<'a> {
    /// What is known of every source. It does nothing.
    pub(crate) fn known(&self)
        ensures { IsSource self.now }
    {
        let _plan = &self.plan;
    }

    /// The plan.
    pub(crate) fn plan(&self) -> &Plan
        ensures value { result.now ≡ plan_of self.now.graph self.now.stack }
        ensures known { IsSource self.now }
    {
        self.plan
    }

    /// The stack.
    pub(crate) fn stack(&self) -> &Stack
        ensures { result.now ≡ self.now.stack }
    {
        self.stack
    }

    /// The rules of the graph's nodes.
    pub(crate) fn rules(&self) -> &[NodeRule]
        ensures value { result.now ≡ self.now.graph.nodes }
        ensures known { IsSource self.now }
    {
        self.plan.graph.nodes.as_slice()
    }

    /// The positions that go out of a node: see `passed`.
    pub(crate) fn passed(&self, alloc: Global, node: u32) -> Result<Vec<u32>, OutOfMemory>
        requires { node ≤ length self.now.graph.nodes }
        ensures { IfOk result (λ v. v.items ≡ passed self.now.graph self.now.stack node) }
    {
        passed(alloc, self.plan, self.stack, node)
    }

    /// Id, times and attributes of a frame.
    pub(crate) fn head(&self, index: u32) -> &Head
        requires { index < length self.now.stack.arrays }
        ensures { IfSome (slice_get self.now.stack.arrays index) (λ a. head_of a ≡ result.now) }
    {
        self.stack.head(index)
    }

    /// The maker of what a node passes on: see `made_by`.
    pub(crate) fn maker(&self, node: u32) -> &Maker
        ensures shape { result.now ≡ maker_of result.now.node (shape_at self.now.graph.nodes self.now.stack.shape node) }
        ensures dims { IsArrayShape result.now.dims }
        ensures stack { IsStack self.now.stack }
    {
        made_by(self.plan, self.stack, node)
    }

    /// Cuts the regions of a frame up to what goes out of a node: see `Rooms::cut`.
    pub(crate) fn cut(
        &self,
        alloc: Global,
        rooms: &mut Rooms,
        node: u32,
        index: u32,
    ) -> Result<(), OutOfMemory>
        requires frame { index < length self.now.stack.arrays }
        requires rooms { AreRooms self.now.graph self.now.stack rooms.old }
        ensures rooms { AreRooms self.now.graph self.now.stack rooms.new }
        ensures ok { OnOk result (HasFrame self.now.graph rooms.new node index) }
        ensures known { IsSource self.now }
    {
        rooms.cut(alloc, self.plan, self.stack, node, index)
    }

    /// The samples of a frame as they go out of a node: see `Rooms::samples`.
    pub(crate) fn samples<'r>(&'r self, rooms: &'r Rooms, node: u32, index: u32) -> &'r [u8]
        requires frame { index < length self.now.stack.arrays }
        requires rooms { AreRooms self.now.graph self.now.stack rooms.now }
        requires here { HasFrame self.now.graph rooms.now node index }
        ensures { IsContent self.now.graph self.now.stack (record { maker = node; index = index }) result.now }
    {
        rooms.samples(self.plan, self.stack, node, index)
    }
}
