//! The files of a plain run while they are written, frame by frame.

ghost use Rattle.std.specs.Prelude.{◌≡◌, [], ◌+◌, ◌-◌, ◌*◌, ◌/◌, ◌%◌, ◌<◌, ◌≤◌, ◌^◌, ℕ, List, Some, None, Option, length, slice_get, IfOk, IfErr, OnOk};
ghost use Rattle.std.specs.Prelude.{OnErr, IfSome, IfNone, false};
ghost use Rattle.nd_base.specs.GraphRules.{rule_at};
ghost use Rattle.nd_base.specs.declared.graph.Kind.TheVariants.{Stats};
ghost use Rattle.edge_traits.specs.Files.{Files};
ghost use Rattle.file_out.specs.Saving.{IsSaveCause};
ghost use Rattle.graph_files.specs.NodeFiles.{NodeFile};
ghost use Rattle.graph_files.specs.OutFiles.{plain_files, with_files};
ghost use Rattle.plain_saver.specs.Passes.{IsAsked, is_next, pass_at, stepped, stepped_rows, with_gone};
ghost use Rattle.plain_saver.specs.Rooms.{AreRooms};
ghost use Rattle.plain_saver.specs.Saved.{IsSaved, AreLeftFrom, IsCounted, IsNextPlace, group_size};
ghost use Rattle.plain_saver.specs.Texts.{AreEmptyTo, emptied, with_text};
ghost use Rattle.plain_saver.specs.TornRuns.{IsTornRun};

use crate::gathering::gather;
use crate::passes::{Pass, passes};
use crate::rooms::Rooms;
use crate::rows::{begin_rows, finish_rows, row_of, rows_name};
use crate::source::Source;
use crate::texts::Texts;
use edge_traits::Shelf;
use file_out::SaveFault;
use graph_files::OpenFiles;
use nd_base::{Kind, NodeRule, OutOfMemory, StatsRule};
use std::alloc::Global;

/// The files of a plain run while they are written, with what has gone out of each node, the rows that are kept back, rooms for the regions of
/// frames, and room for rows that are written at once.
#[derive(Drop)]
pub(crate) struct Saver {
    rooms: Rooms,
    passes: Vec<Pass>,
    texts: Texts,
    files: OpenFiles,
    rows: Vec<u8>,
}

/// Where an array goes in the files of a file node: the group, the place there, and how many arrays the group has in the end.
#[derive(Clone, Copy, Debug)]
struct GroupPlace {
    group: u32,
    place: u32,
    of: u32,
}

/// Where the next array goes after `gone` of `all`, where a group takes `count`.
fn group_place(count: u32, all: u32, gone: u32) -> GroupPlace
    requires some { 1 ≤ count }
    requires left { gone < all }
    ensures group { result.group ≡ gone / count }
    ensures place { result.place ≡ gone % count }
    ensures of { result.of ≡ group_size count all gone }
{
    let place = gone % count;
    GroupPlace {
        group: gone / count,
        place,
        of: count.min(all - (gone - place)),
    }
}

impl Saver {
    /// Begins the files of the statistics nodes. Those of the file nodes begin with their first arrays.
    pub(crate) fn begin<K: Shelf>(
        alloc: Global,
        shelf: &mut K,
        prefix: &str,
        source: &Source,
    ) -> Result<Saver, SaveFault>
        ensures saved { IfOk result (λ x.
            IsSaved source.now.graph source.now.stack prefix.now (K.held shelf.old) x.passes.items x.texts x.files (K.held shelf.new)) }
        ensures left { IfOk result (λ x. AreLeftFrom source.now.graph x.passes.items x.files 0 0) }
        ensures rooms { IfOk result (λ x. AreRooms source.now.graph source.now.stack x.rooms) }
        ensures err { OnErr result (IsTornRun source.now.graph source.now.stack prefix.now (K.held shelf.old) (K.held shelf.new)) }
        ensures cause { IsSaveCause result (K.faults shelf.old) (K.faults shelf.new) }
    {
        let plan = source.plan();
        let saver = Saver {
            rooms: Rooms::new(alloc, plan)?,
            passes: passes(alloc, source)?,
            texts: Texts::new(alloc, plan)?,
            files: OpenFiles::new(alloc, prefix, plan, source.stack())?,
            rows: Vec::new(alloc),
        };
        begin_rows(alloc, shelf, prefix, source)?;
        Ok(saver)
    }

    /// So many arrays more have gone out of a node.
    fn count_gone(&mut self, node: u32, more: u32)
        requires some { 1 ≤ node }
        requires node { node ≤ length self.old.passes.items }
        requires next { (pass_at self.old.passes.items node).gone + more < 2 ^ 32 }
        ensures passes { self.new.passes.items ≡ with_gone self.old.passes.items node more }
        ensures rooms { self.new.rooms ≡ self.old.rooms }
        ensures texts { self.new.texts ≡ self.old.texts }
        ensures files { self.new.files ≡ self.old.files }
    {
        self.passes[node as usize - 1].gone += more;
    }

    /// Where the array of a frame goes in the files of file node `at`, if it goes out of that node.
    fn next_place(&self, at: usize, index: u32) -> Option<GroupPlace>
        requires at { at < length self.now.files }
        requires node { (x : NodeFile) → slice_get self.now.files at ≡ Some x → IsCounted self.now.passes.items x }
        ensures none { (x : NodeFile) → slice_get self.now.files at ≡ Some x → IfNone result (is_next self.now.passes.items x.node index ≡ false) }
        ensures some { (x : NodeFile) → slice_get self.now.files at ≡ Some x
            → IfSome result (λ p. IsNextPlace self.now.passes.items x index p.group p.place p.of) }
    {
        let pass = &self.passes[self.files.node(at) as usize - 1];
        if !pass.is_next(index) {
            return None;
        }
        let all = pass.positions.as_slice().len() as u32;
        Some(group_place(self.files.group_count(at), all, pass.gone))
    }

    /// Writes the array of a frame at file node `at`, where it goes out of that node, and with it the next ones of its group as long as they are
    /// small.
    fn write_array<K: Shelf>(
        &mut self,
        alloc: Global,
        shelf: &mut K,
        source: &Source,
        index: u32,
        at: usize,
    ) -> Result<(), SaveFault>
        requires frame { index < length source.now.stack.arrays }
        requires at { at < length self.old.files }
        requires rooms { AreRooms source.now.graph source.now.stack self.old.rooms }
        requires saved { (prefix : List ℕ) × ((before : Option Files)
            × IsSaved source.now.graph source.now.stack prefix before self.old.passes.items self.old.texts self.old.files (K.held shelf.old)) }
        ensures rooms { AreRooms source.now.graph source.now.stack self.new.rooms }
        ensures count { length self.new.files ≡ length self.old.files }
        ensures passes { OnOk result ((x : NodeFile) → slice_get self.old.files at ≡ Some x
            → IsAsked self.old.passes.items x.node index self.new.passes.items) }
        ensures saved { OnOk result ((prefix : List ℕ) (before : Option Files)
            → IsSaved source.now.graph source.now.stack prefix before self.old.passes.items self.old.texts self.old.files (K.held shelf.old)
            → IsSaved source.now.graph source.now.stack prefix before self.new.passes.items self.new.texts self.new.files (K.held shelf.new)) }
        ensures err { OnErr result ((prefix : List ℕ) (before : Option Files)
            → IsSaved source.now.graph source.now.stack prefix before self.old.passes.items self.old.texts self.old.files (K.held shelf.old)
            → IsTornRun source.now.graph source.now.stack prefix before (K.held shelf.new)) }
        ensures cause { IsSaveCause result (K.faults shelf.old) (K.faults shelf.new) }
    {
        source.known();
        let Some(next) = self.next_place(at, index) else {
            return Ok(());
        };
        let node = self.files.node(at);
        let count = gather(
            alloc,
            source,
            node,
            &self.passes[node as usize - 1],
            self.files.shape(at),
            next.of - next.place,
            &mut self.rooms,
            &mut self.rows,
        )?;
        self.files.write_rows(
            alloc,
            shelf,
            at,
            next.group,
            next.place,
            Some(next.of),
            self.rows.as_slice(),
            count,
        )?;
        self.count_gone(node, count);
        Ok(())
    }

    /// Keeps back the row of a frame's array at a statistics node, where it goes out of that node.
    fn keep_row(
        &mut self,
        alloc: Global,
        source: &Source,
        index: u32,
        node: u32,
        rule: &StatsRule,
    ) -> Result<(), OutOfMemory>
        requires frame { index < length source.now.stack.arrays }
        requires rule { (n : NodeRule) × ((rule_at source.now.graph.nodes node ≡ Some n) × (n.kind ≡ Stats rule.now)) }
        requires rooms { AreRooms source.now.graph source.now.stack self.old.rooms }
        requires saved { (prefix : List ℕ) × ((before : Option Files)
            × ((held : Option Files) × IsSaved source.now.graph source.now.stack prefix before self.old.passes.items self.old.texts self.old.files held)) }
        ensures rooms { AreRooms source.now.graph source.now.stack self.new.rooms }
        ensures files { self.new.files ≡ self.old.files }
        ensures passes { OnOk result (self.new.passes.items ≡ stepped self.old.passes.items node index) }
        ensures saved { (prefix : List ℕ) (before held : Option Files)
            → IsSaved source.now.graph source.now.stack prefix before self.old.passes.items self.old.texts self.old.files held
            → IsSaved source.now.graph source.now.stack prefix before self.new.passes.items self.new.texts self.new.files held }
    {
        if !self.passes[node as usize - 1].is_next(index) {
            return Ok(());
        }
        source.cut(alloc, &mut self.rooms, node, index)?;
        let samples = source.samples(&self.rooms, node, index);
        let row = row_of(alloc, source, node, rule, index, samples)?;
        self.texts.add(alloc, node, row.as_bytes())?;
        self.count_gone(node, 1);
        Ok(())
    }

    /// Writes the rows that are kept back at a statistics node of this name.
    fn put_rows<K: Shelf>(
        &mut self,
        alloc: Global,
        shelf: &mut K,
        prefix: &str,
        source: &Source,
        node: u32,
        name: &str,
    ) -> Result<(), SaveFault>
        requires rule { (n : NodeRule) × ((r : StatsRule) × ((rule_at source.now.graph.nodes node ≡ Some n) × (n.name ≡ name.now) × (n.kind ≡ Stats r))) }
        requires saved { (before : Option Files)
            × IsSaved source.now.graph source.now.stack prefix.now before self.old.passes.items self.old.texts self.old.files (K.held shelf.old) }
        ensures rooms { self.new.rooms ≡ self.old.rooms }
        ensures files { self.new.files ≡ self.old.files }
        ensures passes { self.new.passes ≡ self.old.passes }
        ensures texts { OnOk result (self.new.texts ≡ with_text self.old.texts node []) }
        ensures saved { OnOk result ((before : Option Files)
            → IsSaved source.now.graph source.now.stack prefix.now before self.old.passes.items self.old.texts self.old.files (K.held shelf.old)
            → IsSaved source.now.graph source.now.stack prefix.now before self.new.passes.items self.new.texts self.new.files (K.held shelf.new)) }
        ensures err { OnErr result ((before : Option Files)
            → IsSaved source.now.graph source.now.stack prefix.now before self.old.passes.items self.old.texts self.old.files (K.held shelf.old)
            → IsTornRun source.now.graph source.now.stack prefix.now before (K.held shelf.new)) }
        ensures cause { IsSaveCause result (K.faults shelf.old) (K.faults shelf.new) }
    {
        source.known();
        let file = rows_name(alloc, prefix, name)?;
        shelf.append(file.as_str(), self.texts.text(node))?;
        self.texts.empty(alloc, node);
        Ok(())
    }

    /// Keeps back the row of a frame's array at a statistics node of this name, where it goes out of that node, and writes what is kept back there once it is
    /// enough.
    fn write_row<K: Shelf>(
        &mut self,
        alloc: Global,
        shelf: &mut K,
        prefix: &str,
        source: &Source,
        index: u32,
        node: u32,
        name: &str,
        rule: &StatsRule,
    ) -> Result<(), SaveFault>
        requires frame { index < length source.now.stack.arrays }
        requires rule { (n : NodeRule) × ((rule_at source.now.graph.nodes node ≡ Some n) × (n.name ≡ name.now) × (n.kind ≡ Stats rule.now)) }
        requires rooms { AreRooms source.now.graph source.now.stack self.old.rooms }
        requires saved { (before : Option Files)
            × IsSaved source.now.graph source.now.stack prefix.now before self.old.passes.items self.old.texts self.old.files (K.held shelf.old) }
        ensures rooms { AreRooms source.now.graph source.now.stack self.new.rooms }
        ensures files { self.new.files ≡ self.old.files }
        ensures passes { OnOk result (self.new.passes.items ≡ stepped self.old.passes.items node index) }
        ensures saved { OnOk result ((before : Option Files)
            → IsSaved source.now.graph source.now.stack prefix.now before self.old.passes.items self.old.texts self.old.files (K.held shelf.old)
            → IsSaved source.now.graph source.now.stack prefix.now before self.new.passes.items self.new.texts self.new.files (K.held shelf.new)) }
        ensures err { OnErr result ((before : Option Files)
            → IsSaved source.now.graph source.now.stack prefix.now before self.old.passes.items self.old.texts self.old.files (K.held shelf.old)
            → IsTornRun source.now.graph source.now.stack prefix.now before (K.held shelf.new)) }
        ensures cause { IsSaveCause result (K.faults shelf.old) (K.faults shelf.new) }
    {
        source.known();
        self.keep_row(alloc, source, index, node, rule)?;
        if self.texts.is_enough(node) {
            self.put_rows(alloc, shelf, prefix, source, node, name)?;
        }
        Ok(())
    }

    /// Writes the row of a frame's array at a node of this rule, where it is a statistics node and the array goes out of it.
    fn write_node_row<K: Shelf>(
        &mut self,
        alloc: Global,
        shelf: &mut K,
        prefix: &str,
        source: &Source,
        index: u32,
        node: u32,
        rule: &NodeRule,
    ) -> Result<(), SaveFault>
        requires frame { index < length source.now.stack.arrays }
        requires rule { rule_at source.now.graph.nodes node ≡ Some rule.now }
        requires rooms { AreRooms source.now.graph source.now.stack self.old.rooms }
        requires saved { (before : Option Files)
            × IsSaved source.now.graph source.now.stack prefix.now before self.old.passes.items self.old.texts self.old.files (K.held shelf.old) }
        ensures rooms { AreRooms source.now.graph source.now.stack self.new.rooms }
        ensures files { self.new.files ≡ self.old.files }
        ensures passes { OnOk result (self.new.passes.items ≡ stepped_rows rule.now self.old.passes.items node index) }
        ensures saved { OnOk result ((before : Option Files)
            → IsSaved source.now.graph source.now.stack prefix.now before self.old.passes.items self.old.texts self.old.files (K.held shelf.old)
            → IsSaved source.now.graph source.now.stack prefix.now before self.new.passes.items self.new.texts self.new.files (K.held shelf.new)) }
        ensures err { OnErr result ((before : Option Files)
            → IsSaved source.now.graph source.now.stack prefix.now before self.old.passes.items self.old.texts self.old.files (K.held shelf.old)
            → IsTornRun source.now.graph source.now.stack prefix.now before (K.held shelf.new)) }
        ensures cause { IsSaveCause result (K.faults shelf.old) (K.faults shelf.new) }
    {
        match &rule.kind {
            Kind::Stats(stats) => self.write_row(
                alloc,
                shelf,
                prefix,
                source,
                index,
                node,
                rule.name.text(),
                stats,
            ),
            Kind::Roi(_) | Kind::Circular(_) | Kind::File(_) | Kind::Scatter => Ok(()),
        }
    }

    /// Writes a frame's arrays at all file nodes that they go out of.
    pub(crate) fn write_arrays<K: Shelf>(
        &mut self,
        alloc: Global,
        shelf: &mut K,
        source: &Source,
        index: u32,
    ) -> Result<(), SaveFault>
        requires frame { index < length source.now.stack.arrays }
        requires rooms { AreRooms source.now.graph source.now.stack self.old.rooms }
        requires saved { (prefix : List ℕ) × ((before : Option Files)
            × IsSaved source.now.graph source.now.stack prefix before self.old.passes.items self.old.texts self.old.files (K.held shelf.old)) }
        requires left { AreLeftFrom source.now.graph self.old.passes.items self.old.files index index }
        ensures rooms { AreRooms source.now.graph source.now.stack self.new.rooms }
        ensures left { OnOk result (AreLeftFrom source.now.graph self.new.passes.items self.new.files (index + 1) index) }
        ensures saved { OnOk result ((prefix : List ℕ) (before : Option Files)
            → IsSaved source.now.graph source.now.stack prefix before self.old.passes.items self.old.texts self.old.files (K.held shelf.old)
            → IsSaved source.now.graph source.now.stack prefix before self.new.passes.items self.new.texts self.new.files (K.held shelf.new)) }
        ensures err { OnErr result ((prefix : List ℕ) (before : Option Files)
            → IsSaved source.now.graph source.now.stack prefix before self.old.passes.items self.old.texts self.old.files (K.held shelf.old)
            → IsTornRun source.now.graph source.now.stack prefix before (K.held shelf.new)) }
        ensures cause { IsSaveCause result (K.faults shelf.old) (K.faults shelf.new) }
    {
        source.known();
        for at in 0..self.files.count() {
            self.write_array(alloc, shelf, source, index, at)?;
        }
        Ok(())
    }

    /// Writes the rows of a frame's arrays at all statistics nodes that they go out of.
    pub(crate) fn write_rows<K: Shelf>(
        &mut self,
        alloc: Global,
        shelf: &mut K,
        prefix: &str,
        source: &Source,
        index: u32,
    ) -> Result<(), SaveFault>
        requires frame { index < length source.now.stack.arrays }
        requires rooms { AreRooms source.now.graph source.now.stack self.old.rooms }
        requires saved { (before : Option Files)
            × IsSaved source.now.graph source.now.stack prefix.now before self.old.passes.items self.old.texts self.old.files (K.held shelf.old) }
        requires left { AreLeftFrom source.now.graph self.old.passes.items self.old.files (index + 1) index }
        ensures rooms { AreRooms source.now.graph source.now.stack self.new.rooms }
        ensures left { OnOk result (AreLeftFrom source.now.graph self.new.passes.items self.new.files (index + 1) (index + 1)) }
        ensures saved { OnOk result ((before : Option Files)
            → IsSaved source.now.graph source.now.stack prefix.now before self.old.passes.items self.old.texts self.old.files (K.held shelf.old)
            → IsSaved source.now.graph source.now.stack prefix.now before self.new.passes.items self.new.texts self.new.files (K.held shelf.new)) }
        ensures err { OnErr result ((before : Option Files)
            → IsSaved source.now.graph source.now.stack prefix.now before self.old.passes.items self.old.texts self.old.files (K.held shelf.old)
            → IsTornRun source.now.graph source.now.stack prefix.now before (K.held shelf.new)) }
        ensures cause { IsSaveCause result (K.faults shelf.old) (K.faults shelf.new) }
    {
        let rules = source.rules();
        for place in 0..rules.len() {
            let node = place as u32 + 1;
            self.write_node_row(alloc, shelf, prefix, source, index, node, &rules[place])?;
        }
        Ok(())
    }

    /// Writes the rows that are kept back at a node of this rule, where it is a statistics node.
    fn put_node_rows<K: Shelf>(
        &mut self,
        alloc: Global,
        shelf: &mut K,
        prefix: &str,
        source: &Source,
        node: u32,
        rule: &NodeRule,
    ) -> Result<(), SaveFault>
        requires rule { rule_at source.now.graph.nodes node ≡ Some rule.now }
        requires saved { (before : Option Files)
            × IsSaved source.now.graph source.now.stack prefix.now before self.old.passes.items self.old.texts self.old.files (K.held shelf.old) }
        ensures files { self.new.files ≡ self.old.files }
        ensures passes { self.new.passes ≡ self.old.passes }
        ensures texts { OnOk result (self.new.texts ≡ emptied rule.now self.old.texts node) }
        ensures saved { OnOk result ((before : Option Files)
            → IsSaved source.now.graph source.now.stack prefix.now before self.old.passes.items self.old.texts self.old.files (K.held shelf.old)
            → IsSaved source.now.graph source.now.stack prefix.now before self.new.passes.items self.new.texts self.new.files (K.held shelf.new)) }
        ensures err { OnErr result ((before : Option Files)
            → IsSaved source.now.graph source.now.stack prefix.now before self.old.passes.items self.old.texts self.old.files (K.held shelf.old)
            → IsTornRun source.now.graph source.now.stack prefix.now before (K.held shelf.new)) }
        ensures cause { IsSaveCause result (K.faults shelf.old) (K.faults shelf.new) }
    {
        match &rule.kind {
            Kind::Stats(_) => {
                self.put_rows(alloc, shelf, prefix, source, node, rule.name.text())
            }
            Kind::Roi(_) | Kind::Circular(_) | Kind::File(_) | Kind::Scatter => Ok(()),
        }
    }

    /// Writes all rows that are kept back.
    fn put_all_rows<K: Shelf>(
        &mut self,
        alloc: Global,
        shelf: &mut K,
        prefix: &str,
        source: &Source,
    ) -> Result<(), SaveFault>
        requires saved { (before : Option Files)
            × IsSaved source.now.graph source.now.stack prefix.now before self.old.passes.items self.old.texts self.old.files (K.held shelf.old) }
        ensures files { self.new.files ≡ self.old.files }
        ensures passes { self.new.passes ≡ self.old.passes }
        ensures empty { OnOk result (AreEmptyTo source.now.graph self.new.texts (length source.now.graph.nodes)) }
        ensures saved { OnOk result ((before : Option Files)
            → IsSaved source.now.graph source.now.stack prefix.now before self.old.passes.items self.old.texts self.old.files (K.held shelf.old)
            → IsSaved source.now.graph source.now.stack prefix.now before self.new.passes.items self.new.texts self.new.files (K.held shelf.new)) }
        ensures err { OnErr result ((before : Option Files)
            → IsSaved source.now.graph source.now.stack prefix.now before self.old.passes.items self.old.texts self.old.files (K.held shelf.old)
            → IsTornRun source.now.graph source.now.stack prefix.now before (K.held shelf.new)) }
        ensures cause { IsSaveCause result (K.faults shelf.old) (K.faults shelf.new) }
    {
        let rules = source.rules();
        for place in 0..rules.len() {
            let node = place as u32 + 1;
            self.put_node_rows(alloc, shelf, prefix, source, node, &rules[place])?;
        }
        Ok(())
    }

    /// Ends all files, once every array has gone out of its node and every row is written.
    fn end_files<K: Shelf>(
        self,
        alloc: Global,
        shelf: &mut K,
        prefix: &str,
        source: &Source,
    ) -> Result<(), SaveFault>
        requires saved { (before : Option Files)
            × IsSaved source.now.graph source.now.stack prefix.now before self.passes.items self.texts self.files (K.held shelf.old) }
        requires left { AreLeftFrom source.now.graph self.passes.items self.files (length source.now.stack.arrays) (length source.now.stack.arrays) }
        requires empty { AreEmptyTo source.now.graph self.texts (length source.now.graph.nodes) }
        ensures ok { OnOk result ((before : Option Files)
            → IsSaved source.now.graph source.now.stack prefix.now before self.passes.items self.texts self.files (K.held shelf.old)
            → K.held shelf.new ≡ with_files before (plain_files source.now.graph source.now.stack prefix.now)) }
        ensures err { OnErr result ((before : Option Files)
            → IsSaved source.now.graph source.now.stack prefix.now before self.passes.items self.texts self.files (K.held shelf.old)
            → IsTornRun source.now.graph source.now.stack prefix.now before (K.held shelf.new)) }
        ensures cause { IsSaveCause result (K.faults shelf.old) (K.faults shelf.new) }
    {
        let Saver {
            rooms: _,
            passes: _,
            texts: _,
            files,
            rows: _,
        } = self;
        source.known();
        finish_rows(alloc, shelf, prefix, source)?;
        files.end(shelf)
    }

    /// Writes the rows that are kept back, and ends all files, once every array has gone out of its node.
    pub(crate) fn end<K: Shelf>(
        self,
        alloc: Global,
        shelf: &mut K,
        prefix: &str,
        source: &Source,
    ) -> Result<(), SaveFault>
        requires saved { (before : Option Files)
            × IsSaved source.now.graph source.now.stack prefix.now before self.passes.items self.texts self.files (K.held shelf.old) }
        requires left { AreLeftFrom source.now.graph self.passes.items self.files (length source.now.stack.arrays) (length source.now.stack.arrays) }
        ensures ok { OnOk result ((before : Option Files)
            → IsSaved source.now.graph source.now.stack prefix.now before self.passes.items self.texts self.files (K.held shelf.old)
            → K.held shelf.new ≡ with_files before (plain_files source.now.graph source.now.stack prefix.now)) }
        ensures err { OnErr result ((before : Option Files)
            → IsSaved source.now.graph source.now.stack prefix.now before self.passes.items self.texts self.files (K.held shelf.old)
            → IsTornRun source.now.graph source.now.stack prefix.now before (K.held shelf.new)) }
        ensures cause { IsSaveCause result (K.faults shelf.old) (K.faults shelf.new) }
    {
        let mut saver = self;
        saver.put_all_rows(alloc, shelf, prefix, source)?;
        saver.end_files(alloc, shelf, prefix, source)
    }
}
