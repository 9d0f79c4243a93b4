//! The files of all file nodes of a graph.

ghost use Rattle.std.specs.Prelude.{◌≡◌, ◌+◌, ◌^◌, ◌<◌, ℕ, List, None, Some, Option, length, slice_get, slice_set, IfOk, IfErr, OnOk, OnErr};
ghost use Rattle.std.specs.List.{flat_map};
ghost use Rattle.nd_base.specs.Array.{Array};
ghost use Rattle.nd_base.specs.Shapes.{array_of};
ghost use Rattle.nd_base.specs.GraphRules.{IsGraph};
ghost use Rattle.edge_traits.specs.Files.{Files};
ghost use Rattle.cdf_write.specs.Layout.{row};
ghost use Rattle.nd_stack.specs.KeptStacks.{IsKeptStack};
ghost use Rattle.chain_plain.specs.Plans.{plan_of};
ghost use Rattle.graph_conf.specs.Loads.{limit_fault};
ghost use Rattle.file_out.specs.Saving.{IsSaveCause};
ghost use Rattle.file_out.specs.Streams.{Stream};
ghost use Rattle.file_out.specs.declared.fault.SaveFault.TheVariants as faults;
ghost use Rattle.graph_files.specs.InTurn.{AreReady, GoOrStop};
ghost use Rattle.graph_files.specs.NodeFiles.{NodeFile, first_count, IsPlaceAfter, AreWritten, IsFilled};
ghost use Rattle.graph_files.specs.OpenFiles.{closed, file_nodes, IsReady, IsReopened, AllWritten, AllStops, with_array};
ghost use Rattle.graph_files.specs.EndedFiles.{AllEnded, AllEndStops, AllStand, OneEndStops, AreOthersAsBefore};

use crate::NodeFiles;
use edge_traits::Shelf;
use file_out::SaveFault;
use nd_base::{FileShape, Head, Kind, OutOfMemory, Plan, Stack};
use std::alloc::Global;
use std::marker::Model;

/// The files of all file nodes of a graph, in its order, each with at most one that is open.
#[derive(Debug, Drop)]
pub struct OpenFiles {
    nodes: Vec<NodeFiles>,
}

impl Model for OpenFiles {
    ghost use Rattle.std.specs.Prelude.{List};
    ghost use Rattle.graph_files.specs.NodeFiles.{NodeFile};
    ghost use Rattle.graph_files.specs.OpenFiles.{AreApart};

    ghost Value = { List NodeFile };

    ghost view = { λ f. f.nodes.items };

    ghost invariant = { λ f. AreApart f.nodes.items };
}

impl OpenFiles {
    /// The files of a graph's file nodes, of which none was begun.
    ///
    /// # Errors
    ///
    /// Only for want of memory.
    pub fn new(
        alloc: Global,
        prefix: &str,
        plan: &Plan,
        stack: &Stack,
    ) -> Result<OpenFiles, OutOfMemory>
        requires graph { IsGraph plan.now.graph }
        requires plan { plan.now ≡ plan_of plan.now.graph stack.now }
        requires kept { IsKeptStack stack.now }
        requires within { limit_fault plan.now.graph stack.now ≡ None }
        ensures { IfOk result (λ f. f ≡ file_nodes plan.now.graph stack.now prefix.now) }
    {
        let mut nodes = Vec::new(alloc);
        for (place, rule) in plan.graph.nodes.as_slice().iter().enumerate() {
            match &rule.kind {
                Kind::File(file) => {
                    let node = place as u32 + 1;
                    let name = rule.name.text();
                    nodes.push(NodeFiles::new(alloc, prefix, plan, stack, node, name, file)?)?;
                }
                Kind::Roi(_) | Kind::Stats(_) | Kind::Circular(_) | Kind::Scatter => {}
            }
        }
        Ok(OpenFiles { nodes })
    }

    /// How many file nodes there are.
    pub fn count(&self) -> usize
        ensures { result ≡ length self.now }
    {
        self.nodes.len()
    }

    /// The number of file node `at` of these.
    pub fn node(&self, at: usize) -> u32
        requires { at < length self.now }
        ensures { (x : NodeFile) → slice_get self.now at ≡ Some x → result ≡ x.node }
    {
        self.nodes[at].node()
    }

    /// How many arrays a group of file node `at` of these takes.
    pub fn group_count(&self, at: usize) -> u32
        requires { at < length self.now }
        ensures { (x : NodeFile) → slice_get self.now at ≡ Some x → result ≡ x.count }
    {
        self.nodes[at].group_count()
    }

    /// The shape of the arrays of file node `at` of these.
    pub fn shape(&self, at: usize) -> &FileShape
        requires { at < length self.now }
        ensures { (x : NodeFile) → slice_get self.now at ≡ Some x → result.now ≡ x.shape }
    {
        self.nodes[at].shape()
    }

    /// Writes the next array of file node `at` of these: see `NodeFiles::write`.
    ///
    /// # Errors
    ///
    /// After want of memory the array isn't written, and may be written again. `Failed` where the shelf failed: its count of faults
    /// rose.
    pub fn write<K: Shelf>(
        &mut self,
        alloc: Global,
        shelf: &mut K,
        at: usize,
        group: u32,
        place: u32,
        of: Option<u32>,
        head: &Head,
        samples: &[u8],
    ) -> Result<(), SaveFault>
        requires at { at < length self.old }
        requires ready { (x : NodeFile) → slice_get self.old at ≡ Some x → IsReady x group place of head.now samples.now (K.held shelf.old) }
        ensures nodes { IsReopened self.old at of self.new }
        ensures ok { OnOk result ((before : Option Files) (written : ℕ → List Array) (x : NodeFile) → slice_get self.old at ≡ Some x
            → length (written x.node) + 1 < 2 ^ 64 → IsPlaceAfter x.count (written x.node) group place → AllWritten before self.old written (K.held shelf.old)
            → AllWritten before self.new (with_array written x.node (array_of head.now x.shape.kind x.shape.dims samples.now)) (K.held shelf.new)) }
        ensures ended { OnOk result ((x : NodeFile) → slice_get self.old at ≡ Some x → place + 1 ≡ x.count → (y : NodeFile) → slice_get self.new at ≡ Some y
            → y.current ≡ None) }
        ensures err { IfErr result (λ fault. (before : Option Files) (written : ℕ → List Array) (x : NodeFile) → slice_get self.old at ≡ Some x
            → IsPlaceAfter x.count (written x.node) group place → AllWritten before self.old written (K.held shelf.old)
            → AllStops fault before x self.new written group (first_count x.late of) (array_of head.now x.shape.kind x.shape.dims samples.now)
            (K.held shelf.old) (K.held shelf.new)) }
        ensures cause { IsSaveCause result (K.faults shelf.old) (K.faults shelf.new) }
    {
        self.nodes[at].write(alloc, shelf, group, place, of, head, samples)
    }

    /// Writes the rows of the next arrays of file node `at` of these in one piece: see `NodeFiles::write_rows`.
    ///
    /// # Errors
    ///
    /// After want of memory nothing has changed. `Failed` where the shelf failed: its count of faults rose.
    pub fn write_rows<K: Shelf>(
        &mut self,
        alloc: Global,
        shelf: &mut K,
        at: usize,
        group: u32,
        place: u32,
        of: Option<u32>,
        rows: &[u8],
        count: u32,
    ) -> Result<(), SaveFault>
        requires at { at < length self.old }
        requires ready { (x : NodeFile) → slice_get self.old at ≡ Some x → AreReady x of group place rows.now count (K.held shelf.old) }
        ensures goes { (x : NodeFile) → slice_get self.old at ≡ Some x → (o : Option Stream) × ((self.new ≡ slice_set self.old at (record x { current = o }))
            × ((more : List Array) → length more ≡ count → rows.now ≡ flat_map (row x.shape) more
            → GoOrStop result x of group place more o (K.held shelf.old) (K.held shelf.new))) }
        ensures cause { IsSaveCause result (K.faults shelf.old) (K.faults shelf.new) }
    {
        self.nodes[at].write_rows(alloc, shelf, group, place, of, rows, count)
    }

    /// Ends the open file of file node `at` of these, if there is one.
    fn end_node<K: Shelf>(&mut self, shelf: &mut K, at: usize) -> Result<(), SaveFault>
        requires at { at < length self.old }
        requires written { (x : NodeFile) → slice_get self.old at ≡ Some x → (arrays : List Array) × AreWritten x arrays (K.held shelf.old) }
        requires filled { (x : NodeFile) → slice_get self.old at ≡ Some x → IsFilled x.current }
        ensures nodes { (x : NodeFile) → slice_get self.old at ≡ Some x → self.new ≡ slice_set self.old at (closed x) }
        ensures ok { OnOk result ((before : Option Files) (written : ℕ → List Array) (x : NodeFile) → slice_get self.old at ≡ Some x
            → AreWritten x (written x.node) (K.held shelf.old)
            → AllStand before self.old written (K.held shelf.old) → AllStand before self.new written (K.held shelf.new)) }
        ensures err { OnErr result ((before : Option Files) (written : ℕ → List Array) (x : NodeFile) → slice_get self.old at ≡ Some x
            → AreWritten x (written x.node) (K.held shelf.old)
            → AllStand before self.old written (K.held shelf.old) → OneEndStops before x self.new written (K.held shelf.old) (K.held shelf.new)) }
        ensures others { (before : Option Files) (written : ℕ → List Array) (x : NodeFile) → slice_get self.old at ≡ Some x
            → AreWritten x (written x.node) (K.held shelf.old)
            → AllStand before self.old written (K.held shelf.old) → AreOthersAsBefore self.old at written (K.held shelf.old) (K.held shelf.new) }
        ensures failed { IfErr result (λ fault. fault ≡ faults.Failed) }
        ensures cause { IsSaveCause result (K.faults shelf.old) (K.faults shelf.new) }
    {
        self.nodes[at].end(shelf)
    }

    /// Ends each file that is open: those of the last, short groups.
    ///
    /// # Errors
    ///
    /// `Failed` alone, where the shelf failed: its count of faults rose. The files that aren't ended then stay as they were, but for
    /// the one whose end failed: its name has the header and the rows, with any number of records where the header left it open.
    pub fn end<K: Shelf>(self, shelf: &mut K) -> Result<(), SaveFault>
        requires written { (before : Option Files) × ((written : ℕ → List Array) × AllWritten before self written (K.held shelf.old)) }
        requires filled { (k : ℕ) (x : NodeFile) → slice_get self k ≡ Some x → IsFilled x.current }
        ensures ok { OnOk result ((before : Option Files) (written : ℕ → List Array) → AllWritten before self written (K.held shelf.old)
            → AllEnded before self written (K.held shelf.new)) }
        ensures err { OnErr result ((before : Option Files) (written : ℕ → List Array) → AllWritten before self written (K.held shelf.old)
            → AllEndStops before self written (K.held shelf.old) (K.held shelf.new)) }
        ensures failed { IfErr result (λ fault. fault ≡ faults.Failed) }
        ensures cause { IsSaveCause result (K.faults shelf.old) (K.faults shelf.new) }
    {
        let mut files = self;
        for at in 0..files.count() {
            files.end_node(shelf, at)?;
        }
        Ok(())
    }
}
