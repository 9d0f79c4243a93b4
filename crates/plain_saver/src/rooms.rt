//! The samples of frames as they go out of the nodes of a graph.

ghost use Rattle.std.specs.Prelude.{◌≡◌, ◌<◌, ◌≤◌, ◌*◌, ◌↔◌, ℕ, None, Some, [], length, All, IfOk, OnOk, OnErr, IsTrue};
ghost use Rattle.nd_base.specs.Array.{StackValue};
ghost use Rattle.nd_base.specs.GraphRules.{IsBetween, IsGraph, IsRoi, rule_at};
ghost use Rattle.nd_base.specs.Samples.{width, samples_of};
ghost use Rattle.nd_base.specs.Shapes.{sample_count};
ghost use Rattle.nd_base.specs.Stacks.{IsStack};
ghost use Rattle.nd_base.specs.declared.graph.Graph.{Graph};
ghost use Rattle.nd_base.specs.declared.graph.Kind.TheVariants.{Roi};
ghost use Rattle.nd_roi.specs.Cut.{region_dims};
ghost use Rattle.nd_roi.specs.Region.{out_type, region_samples};
ghost use Rattle.chain_plain.specs.Content.{IsContent};
ghost use Rattle.chain_plain.specs.ContentLaws.{IsArrayShape};
ghost use Rattle.chain_plain.specs.Nodes.{maker_at};
ghost use Rattle.chain_plain.specs.Plans.{plan_of, maker_of, shape_at};
ghost use Rattle.plain_saver.specs.Rooms.{AreCut, HasFrame, HasRegion, KeepsFrames, rooms_of, with_room};

use crate::node_rooms::NodeRooms;
use chain_plain::maker_for;
use nd_base::{FrameName, Kind, Maker, NodeRule, OutOfMemory, Plan, RoiRule, Stack, rule_at};
use nd_roi::fill_region;
use std::alloc::Global;
use std::marker::Model;

/// The samples of frames as they go out of the nodes of a graph. A region node has as many rooms, each for one frame, as a file node that passes its
/// frames on reads ahead at most: at most 16 KiB and one frame of samples for each region node. Frame k has room k modulo their count, so that frames
/// which follow each other need be cut only once, whichever nodes read them. A region is cut again where another frame took its room meanwhile: where
/// a file node behind a further region of less bytes reads further ahead, or the frames that it reads ahead don't follow each other. How often a
/// region is cut is by how it is built: contracts see the rooms of each node, in the graph's order, and what they hold. The rooms of a node are made
/// as its first frame is cut, and the storage of each at its first use; both are kept. A node that makes no arrays has none.
#[derive(Drop)]
pub struct Rooms {
    nodes: Vec<NodeRooms>,
}

impl Model for Rooms {
    ghost use Rattle.std.specs.Prelude.{List};
    ghost use Rattle.plain_saver.specs.declared.node_rooms.Room.{Room};

    ghost Value = { List (List Room) };

    ghost view = { λ r. r.nodes.items };
}

/// The maker of what a node passes on, with the type, dimensions and bytes of these arrays.
pub(crate) fn made_by<'a>(plan: &'a Plan, stack: &Stack, node: u32) -> &'a Maker
    requires graph { IsGraph plan.now.graph }
    requires plan { plan.now ≡ plan_of plan.now.graph stack.now }
    ensures number { result.now.node ≡ maker_at plan.now.graph.nodes node }
    ensures shape { result.now ≡ maker_of result.now.node (shape_at plan.now.graph.nodes stack.now.shape node) }
    ensures dims { IsArrayShape result.now.dims }
    ensures stack { IsStack stack.now }
{
    let _shape = stack.shape();
    maker_for(plan, stack, node)
}

/// The region of an array's samples, in this storage.
fn region_in(roi: &RoiRule, from: &Maker, samples: &[u8], storage: Vec<u8>) -> Vec<u8>
    requires rule { IsRoi roi.now }
    requires dims { IsArrayShape from.now.dims }
    requires samples { length samples.now ≡ sample_count from.now.dims * width from.now.kind }
    requires size { length storage.items ≡ sample_count (region_dims roi.now from.now.dims) * width (out_type roi.now from.now.kind) }
    ensures size { length result.items ≡ length storage.items }
    ensures samples { samples_of (out_type roi.now from.now.kind) result.items
        ≡ region_samples roi.now from.now.kind from.now.dims (samples_of from.now.kind samples.now) }
{
    let mut bytes = storage;
    fill_region(roi, from.kind, from.dims.as_slice(), samples, &mut bytes);
    bytes
}

impl Rooms {
    /// No rooms yet for the nodes of a plan's graph.
    ///
    /// # Errors
    ///
    /// Only for want of memory.
    pub fn new(alloc: Global, plan: &Plan) -> Result<Rooms, OutOfMemory>
        ensures size { IfOk result (λ rooms. length rooms ≡ length plan.now.graph.nodes) }
        ensures empty { IfOk result (λ rooms. All (λ own. own ≡ []) rooms) }
        ensures cut { (s : StackValue) → IfOk result (AreCut plan.now.graph s) }
    {
        let rules = plan.graph.nodes.as_slice();
        let mut nodes = Vec::with_capacity(alloc, rules.len())?;
        for _node in rules {
            nodes.push(NodeRooms::none(alloc))?;
        }
        Ok(Rooms { nodes })
    }

    /// Whether the room of a frame at its maker has it.
    fn has(&self, name: FrameName) -> bool
        requires { IsBetween 1 (length self.now) name.maker }
        ensures { IsTrue result ↔ HasRegion self.now name.maker name.index }
    {
        self.nodes[name.maker as usize - 1].has(name.index)
    }

    /// Makes the rooms of a node for frames of so many bytes, where it has none.
    ///
    /// # Errors
    ///
    /// Only for want of memory, and then the node has none.
    fn make(&mut self, alloc: Global, node: u32, need: u32) -> Result<(), OutOfMemory>
        requires { IsBetween 1 (length self.old) node }
        ensures size { length self.new ≡ length self.old }
        ensures some { OnOk result (1 ≤ length (rooms_of self.new node)) }
        ensures cut { (g : Graph) (s : StackValue) → AreCut g s self.old → AreCut g s self.new }
        ensures kept { (g : Graph) (k : ℕ) → KeepsFrames g k self.old self.new }
    {
        let rooms = &mut self.nodes[node as usize - 1];
        if rooms.count() > 0 {
            return Ok(());
        }
        *rooms = NodeRooms::for_frames(alloc, need)?;
        Ok(())
    }

    /// The storage of the room of a frame at its maker, made anew where it isn't of this size. The room is empty then.
    ///
    /// # Errors
    ///
    /// Only for want of memory, and then the rooms are as they were.
    fn take(&mut self, alloc: Global, name: FrameName, size: u32) -> Result<Vec<u8>, OutOfMemory>
        requires node { IsBetween 1 (length self.old) name.maker }
        requires some { 1 ≤ length (rooms_of self.old name.maker) }
        ensures size { IfOk result (λ bytes. length bytes.items ≡ size) }
        ensures room { OnOk result (self.new ≡ with_room self.old name.maker name.index (record { index = None; bytes = [] })) }
        ensures err { OnErr result (self.new ≡ self.old) }
    {
        self.nodes[name.maker as usize - 1].take(alloc, name.index, size)
    }

    /// Puts the samples of a frame into its room at its maker.
    fn put(&mut self, name: FrameName, bytes: Vec<u8>)
        requires node { IsBetween 1 (length self.old) name.maker }
        requires some { 1 ≤ length (rooms_of self.old name.maker) }
        ensures { self.new ≡ with_room self.old name.maker name.index (record { index = Some name.index; bytes = bytes.items }) }
    {
        self.nodes[name.maker as usize - 1].put(name.index, bytes);
    }

    /// Cuts a frame of a region node, where the samples that come to the node are at hand.
    ///
    /// # Errors
    ///
    /// Only for want of memory. What was at hand of this frame stays at hand.
    fn cut_region(
        &mut self,
        alloc: Global,
        plan: &Plan,
        stack: &Stack,
        name: FrameName,
        rule: &NodeRule,
        roi: &RoiRule,
    ) -> Result<(), OutOfMemory>
        requires graph { IsGraph plan.now.graph }
        requires plan { plan.now ≡ plan_of plan.now.graph stack.now }
        requires frame { name.index < length stack.now.arrays }
        requires size { length self.old ≡ length plan.now.graph.nodes }
        requires cut { AreCut plan.now.graph stack.now self.old }
        requires rule { rule_at plan.now.graph.nodes name.maker ≡ Some rule.now }
        requires kind { rule.now.kind ≡ Roi roi.now }
        requires input { HasFrame plan.now.graph self.old rule.now.input name.index }
        ensures size { length self.new ≡ length self.old }
        ensures cut { AreCut plan.now.graph stack.now self.new }
        ensures kept { KeepsFrames plan.now.graph name.index self.old self.new }
        ensures ok { OnOk result (HasFrame plan.now.graph self.new name.maker name.index) }
    {
        let from = made_by(plan, stack, rule.input);
        let to = made_by(plan, stack, name.maker);
        self.make(alloc, name.maker, to.need)?;
        let storage = self.take(alloc, name, to.need)?;
        let samples = self.samples(plan, stack, rule.input, name.index);
        let bytes = region_in(roi, from, samples, storage);
        self.put(name, bytes);
        Ok(())
    }

    /// Cuts the regions of a frame up to what goes out of a node. A region is cut only where the frame's room has another one, into the
    /// storage of that.
    ///
    /// # Errors
    ///
    /// Only for want of memory. What was at hand of this frame stays at hand.
    pub fn cut(
        &mut self,
        alloc: Global,
        plan: &Plan,
        stack: &Stack,
        node: u32,
        index: u32,
    ) -> Result<(), OutOfMemory>
        requires graph { IsGraph plan.now.graph }
        requires plan { plan.now ≡ plan_of plan.now.graph stack.now }
        requires frame { index < length stack.now.arrays }
        requires size { length self.old ≡ length plan.now.graph.nodes }
        requires cut { AreCut plan.now.graph stack.now self.old }
        ensures size { length self.new ≡ length self.old }
        ensures cut { AreCut plan.now.graph stack.now self.new }
        ensures kept { KeepsFrames plan.now.graph index self.old self.new }
        ensures ok { OnOk result (HasFrame plan.now.graph self.new node index) }
    {
        let Some(rule) = rule_at(plan.graph.nodes.as_slice(), node) else {
            return Ok(());
        };
        let Kind::Roi(roi) = &rule.kind else {
            return self.cut(alloc, plan, stack, rule.input, index);
        };
        let name = FrameName { maker: node, index };
        if self.has(name) {
            return Ok(());
        }
        self.cut(alloc, plan, stack, rule.input, index)?;
        self.cut_region(alloc, plan, stack, name, rule, roi)
    }

    /// The samples of a frame as they go out of a node, the most significant byte of each first: those of the stack's frame, or of a
    /// region that was cut. They aren't copied.
    pub fn samples<'a>(&'a self, plan: &Plan, stack: &'a Stack, node: u32, index: u32) -> &'a [u8]
        requires graph { IsGraph plan.now.graph }
        requires plan { plan.now ≡ plan_of plan.now.graph stack.now }
        requires frame { index < length stack.now.arrays }
        requires cut { AreCut plan.now.graph stack.now self.now }
        requires here { HasFrame plan.now.graph self.now node index }
        ensures { IsContent plan.now.graph stack.now (record { maker = node; index = index }) result.now }
    {
        match made_by(plan, stack, node).node {
            0 => stack.frame(index),
            maker => self.nodes[maker as usize - 1].bytes(index),
        }
    }
}
