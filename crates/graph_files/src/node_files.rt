//! The files of a file node, which get its arrays one after the other.

ghost use Rattle.std.specs.Prelude.{◌≡◌, ◌≢◌, ◌+◌, ◌-◌, ◌<◌, ◌≤◌, ◌^◌, ◌/◌, ◌++◌, ◌∷◌, [], ℕ, List, None, Some, nat_lt, min, codes, length, string_bytes, IfOk};
ghost use Rattle.std.specs.Prelude.{IfErr, OnOk, OnErr};
ghost use Rattle.std.specs.List.{flat_map};
ghost use Rattle.std.specs.Option.{ForSome};
ghost use Rattle.nd_base.specs.Array.{Array};
ghost use Rattle.nd_base.specs.Forms.{longest_of};
ghost use Rattle.nd_base.specs.Shapes.{array_of};
ghost use Rattle.nd_base.specs.GraphRules.{IsGraph, IsFile};
ghost use Rattle.edge_traits.specs.Files.{file_at, with_file};
ghost use Rattle.cdf_write.specs.Layout.{header, row};
ghost use Rattle.cdf_write.specs.Lengths.{length_of};
ghost use Rattle.nd_stack.specs.KeptStacks.{IsKeptStack};
ghost use Rattle.chain_plain.specs.Plans.{plan_of};
ghost use Rattle.file_out.specs.Streams.{IsRow, HasRows};
ghost use Rattle.file_out.specs.Saving.{BeginStops, IsSaveCause};
ghost use Rattle.file_out.specs.declared.fault.SaveFault.TheVariants as faults;
ghost use Rattle.graph_files.specs.OutFiles.{form_at, file_shape, group_number, is_stream};
ghost use Rattle.graph_files.specs.Groups.{group_of};
ghost use Rattle.graph_files.specs.InTurn.{AreReady, GoOrStop, RowsGo, RowsStop};
ghost use Rattle.graph_files.specs.NodeFiles.{node_file, name_of, first_count, stream_of, IsPlaceAfter, AreWritten, AreEnded, IsFilled, IsSized};
ghost use Rattle.graph_files.specs.NodeFiles.{HasNumrecs, IsChangedAt, WriteStops, EndStops, RowGoes, RowStops};

use crate::shapes::file_shape;
use edge_traits::Shelf;
use file_out::{SaveFault, StreamFile};
use nd_base::{FileRule, FileShape, Head, Mode, Name, OutOfMemory, Plan, Stack};
use std::alloc::{AllocError, Global};
use std::marker::Model;

/// The files of a file node: those of whole groups, and at most one that is open. A group's file is begun with the first array of the
/// group, and ended with its last one; a short group at the end stays open until `end`.
#[derive(Debug, Drop)]
pub struct NodeFiles {
    node: u32,
    stem: Name,
    shape: FileShape,
    late: bool,
    count: u32,
    room: u32,
    current: Option<StreamFile>,
}

impl Model for NodeFiles {
    ghost use Rattle.graph_files.specs.NodeFiles.{NodeFile, IsNodeFile};

    ghost Value = { NodeFile };

    ghost view = { λ x. record { node = x.node; stem = x.stem; shape = x.shape; late = x.late; count = x.count; room = x.room; current = x.current } };

    ghost invariant = { λ x. IsNodeFile (record {
      node = x.node;
      stem = x.stem;
      shape = x.shape;
      late = x.late;
      count = x.count;
      room = x.room;
      current = x.current;
    }) };
}

/// Whether the number of records is put in at the end.
pub fn is_stream(mode: Mode) -> bool
    ensures { result ≡ is_stream mode }
{
    match mode {
        Mode::Stream => true,
        Mode::Single | Mode::Capture => false,
    }
}

/// The number of records that a header begins with: None where it is put in at the end.
pub fn first_count(late: bool, of: Option<u32>) -> Option<u32>
    ensures { result ≡ first_count late of }
{
    if late { None } else { of }
}

/// The name of a group's file: what its node's names begin with, and its number, which has at least three digits.
fn group_name(alloc: Global, stem: &str, group: u32) -> Result<String, AllocError>
    ensures { IfOk result (λ name. string_bytes name ≡ stem.now ++ group_number group ++ codes ".nc") }
{
    format!(in alloc; "{stem}{group:03}.nc")
}

impl NodeFiles {
    /// The files of this file node, of which none was begun.
    ///
    /// # Errors
    ///
    /// Only for want of memory.
    pub fn new(
        alloc: Global,
        prefix: &str,
        plan: &Plan,
        stack: &Stack,
        node: u32,
        name: &str,
        rule: &FileRule,
    ) -> Result<NodeFiles, OutOfMemory>
        requires graph { IsGraph plan.now.graph }
        requires plan { plan.now ≡ plan_of plan.now.graph stack.now }
        requires kept { IsKeptStack stack.now }
        requires rule { IsFile rule.now }
        requires within { length_of (file_shape plan.now.graph stack.now node) (min rule.now.count (length stack.now.arrays))
            ≤ longest_of (form_at plan.now.graph.nodes node) }
        ensures { IfOk result (λ x. x ≡ node_file plan.now.graph stack.now prefix.now node rule.now name.now) }
    {
        let stem = format!(in alloc; "{prefix}{name}_")?;
        let shape = file_shape(alloc, plan, stack, node)?;
        Ok(NodeFiles {
            node,
            stem: Name::new(stem),
            shape,
            late: is_stream(rule.mode),
            count: rule.count,
            room: rule.count.min(stack.frames()),
            current: None,
        })
    }

    /// The number of the node.
    pub fn node(&self) -> u32
        ensures { result ≡ self.now.node }
    {
        self.node
    }

    /// How many arrays a group takes.
    pub fn group_count(&self) -> u32
        ensures { result ≡ self.now.count }
    {
        self.count
    }

    /// The shape of the arrays.
    pub fn shape(&self) -> &FileShape
        ensures { result.now ≡ self.now.shape }
    {
        &self.shape
    }

    /// Begins the file of a group.
    fn begin<K: Shelf>(
        &self,
        alloc: Global,
        shelf: &mut K,
        group: u32,
        of: Option<u32>,
    ) -> Result<StreamFile, SaveFault>
        requires room { 1 ≤ self.now.room }
        requires of { ForSome (first_count self.now.late of) (λ n. n ≤ self.now.room) }
        ensures value { IfOk result (λ f. f ≡ stream_of self.now group 0 (first_count self.now.late of)) }
        ensures ok { OnOk result
            (K.held shelf.new ≡ with_file (K.held shelf.old) (name_of self.now group) (header self.now.shape (first_count self.now.late of))) }
        ensures rows { IfOk result (λ f. HasRows (K.held shelf.new) f []) }
        ensures err { IfErr result (λ fault. BeginStops fault (K.held shelf.old) (name_of self.now group)
            (header self.now.shape (first_count self.now.late of)) (K.held shelf.new)) }
        ensures cause { IsSaveCause result (K.faults shelf.old) (K.faults shelf.new) }
    {
        let name = group_name(alloc, self.stem.text(), group)?;
        let numrecs = first_count(self.late, of);
        StreamFile::begin(
            alloc,
            shelf,
            name.as_str(),
            &self.shape,
            numrecs,
            u64::from(self.room),
        )
    }

    /// Adds a row to this file, and ends it with the last row of its group.
    fn add_row<K: Shelf>(
        &mut self,
        alloc: Global,
        shelf: &mut K,
        file: StreamFile,
        place: u32,
        head: &Head,
        samples: &[u8],
    ) -> Result<(), SaveFault>
        requires none { self.old.current ≡ None }
        requires room { (file.room ≡ self.old.room) × (file.count ≡ place) × (place < self.old.room) }
        requires numrecs { ForSome file.numrecs (λ n. (place < n) × (n ≤ self.old.room)) }
        requires rows { (arrays : List Array) × HasRows (K.held shelf.old) file arrays }
        requires row { IsRow file.shape head.now samples.now }
        ensures node { self.new ≡ record self.old { current = self.new.current } }
        ensures ok { OnOk result ((arrays : List Array) → HasRows (K.held shelf.old) file arrays
            → RowGoes (nat_lt (place + 1) self.old.count) file
            (arrays ++ array_of head.now file.shape.kind file.shape.dims samples.now ∷ []) self.new.current (K.held shelf.new)) }
        ensures err { IfErr result (λ fault. RowStops fault self.old.count file (array_of head.now file.shape.kind file.shape.dims samples.now) self.new.current
            (K.held shelf.old) (K.held shelf.new)) }
        ensures changed { IsChangedAt (K.held shelf.old) file.name (K.held shelf.new) }
        ensures cause { IsSaveCause result (K.faults shelf.old) (K.faults shelf.new) }
    {
        let mut file = file;
        match file.add(alloc, shelf, head, samples) {
            Ok(()) => {}
            Err(SaveFault::OutOfMemory) => {
                self.current = Some(file);
                return Err(SaveFault::OutOfMemory);
            }
            Err(SaveFault::Failed) => return Err(SaveFault::Failed),
        }
        if place + 1 < self.count {
            self.current = Some(file);
            return Ok(());
        }
        match file.end(shelf) {
            Ok(_) => Ok(()),
            Err(fault) => Err(fault),
        }
    }

    /// Writes the next array: number `place` of this group, which has `of` arrays where that is known. The group's file is begun with
    /// its first array, and ended with its last one. Nothing but the name of that file changes.
    ///
    /// # Errors
    ///
    /// After want of memory the array isn't written, and may be written again. `Failed` where the shelf failed: its count of faults
    /// rose. The files are then as they were, but for the group's own, which isn't open any more: its name has what it had, a front of the
    /// header where the file wasn't begun, or the header, the rows and a front of the new one. With the group's last row it may have all
    /// of these, with any number of records where the header left it open.
    pub fn write<K: Shelf>(
        &mut self,
        alloc: Global,
        shelf: &mut K,
        group: u32,
        place: u32,
        of: Option<u32>,
        head: &Head,
        samples: &[u8],
    ) -> Result<(), SaveFault>
        requires written { (arrays : List Array) × IsPlaceAfter self.old.count arrays group place × AreWritten self.old arrays (K.held shelf.old) }
        requires room { place < self.old.room }
        requires of { IsSized self.old.late place self.old.room of }
        requires numrecs { HasNumrecs (first_count self.old.late of) self.old.current }
        requires row { IsRow self.old.shape head.now samples.now }
        ensures node { self.new ≡ record self.old { current = self.new.current } }
        ensures numrecs { HasNumrecs (first_count self.old.late of) self.new.current }
        ensures ok { OnOk result ((arrays : List Array) → IsPlaceAfter self.old.count arrays group place → AreWritten self.old arrays (K.held shelf.old)
            → AreWritten self.new (arrays ++ array_of head.now self.old.shape.kind self.old.shape.dims samples.now ∷ []) (K.held shelf.new)) }
        ensures ended { OnOk result (place + 1 ≡ self.old.count → self.new.current ≡ None) }
        ensures err { IfErr result (λ fault. (arrays : List Array) → IsPlaceAfter self.old.count arrays group place
            → AreWritten self.old arrays (K.held shelf.old)
            → WriteStops fault self.old arrays group (first_count self.old.late of)
            (array_of head.now self.old.shape.kind self.old.shape.dims samples.now) self.new (K.held shelf.old) (K.held shelf.new)) }
        ensures changed { IsChangedAt (K.held shelf.old) (name_of self.old group) (K.held shelf.new) }
        ensures cause { IsSaveCause result (K.faults shelf.old) (K.faults shelf.new) }
    {
        match self.current.take() {
            Some(file) => self.add_row(alloc, shelf, file, place, head, samples),
            None => {
                let file = self.begin(alloc, shelf, group, of)?;
                self.add_row(alloc, shelf, file, place, head, samples)
            }
        }
    }

    /// Appends the rows of so many arrays to a group's file, and ends it with the group's last array.
    fn put_rows<K: Shelf>(
        &mut self,
        shelf: &mut K,
        file: StreamFile,
        place: u32,
        rows: &[u8],
        count: u32,
    ) -> Result<(), SaveFault>
        requires none { self.old.current ≡ None }
        requires some { 1 ≤ count }
        requires room { (file.room ≡ self.old.room) × (file.count ≡ place) × (place + count ≤ self.old.room) }
        requires numrecs { ForSome file.numrecs (λ n. (place + count - 1 < n) × (n ≤ self.old.room)) }
        requires stands { (arrays : List Array) × HasRows (K.held shelf.old) file arrays }
        requires rows { (arrays : List Array) × (length arrays ≡ count) × (rows.now ≡ flat_map (row file.shape) arrays) }
        ensures node { self.new ≡ record self.old { current = self.new.current } }
        ensures ok { OnOk result
            (RowsGo (nat_lt (place + count) self.old.count) file count rows.now self.new.current (K.held shelf.old) (K.held shelf.new)) }
        ensures ended { OnErr result (self.new.current ≡ None) }
        ensures err { OnErr result (RowsStop self.old.count file count rows.now (K.held shelf.old) (K.held shelf.new)) }
        ensures failed { IfErr result (λ fault. fault ≡ faults.Failed) }
        ensures cause { IsSaveCause result (K.faults shelf.old) (K.faults shelf.new) }
    {
        let mut file = file;
        file.add_rows(shelf, rows, count)?;
        if place + count < self.count {
            self.current = Some(file);
            return Ok(());
        }
        match file.end(shelf) {
            Ok(_) => Ok(()),
            Err(fault) => Err(fault),
        }
    }

    /// Writes the rows of the next arrays in one piece: as many as `count` says, from `place` of this group on, which has `of` arrays
    /// where that is known. The files are then as after one `write` for each of these arrays.
    ///
    /// # Errors
    ///
    /// After want of memory nothing has changed. `Failed` where the shelf failed: its count of faults rose. The files are then as they
    /// were, but for the group's own, which isn't open any more: its name has what it had, a front of the header where the file wasn't
    /// begun, or the header, the rows and a front of the new ones. With the group's last row it may have all of these, with any number
    /// of records where the header left it open.
    pub fn write_rows<K: Shelf>(
        &mut self,
        alloc: Global,
        shelf: &mut K,
        group: u32,
        place: u32,
        of: Option<u32>,
        rows: &[u8],
        count: u32,
    ) -> Result<(), SaveFault>
        requires { AreReady self.old of group place rows.now count (K.held shelf.old) }
        ensures node { self.new ≡ record self.old { current = self.new.current } }
        ensures goes { (more : List Array) → length more ≡ count → rows.now ≡ flat_map (row self.old.shape) more
            → GoOrStop result self.old of group place more self.new.current (K.held shelf.old) (K.held shelf.new) }
        ensures cause { IsSaveCause result (K.faults shelf.old) (K.faults shelf.new) }
    {
        match self.current.take() {
            Some(file) => self.put_rows(shelf, file, place, rows, count),
            None => {
                let file = self.begin(alloc, shelf, group, of)?;
                self.put_rows(shelf, file, place, rows, count)
            }
        }
    }

    /// Ends the open file, if there is one: that of the last, short group.
    ///
    /// # Errors
    ///
    /// `Failed` alone, where the shelf failed: its count of faults rose. The files are then as they were, but for the open one: its name
    /// has the header and the rows, with any number of records where the header left it open.
    pub fn end<K: Shelf>(&mut self, shelf: &mut K) -> Result<(), SaveFault>
        requires written { (arrays : List Array) × AreWritten self.old arrays (K.held shelf.old) }
        requires filled { IsFilled self.old.current }
        ensures node { self.new ≡ record self.old { current = None } }
        ensures ok { OnOk result ((arrays : List Array) → length arrays < 2 ^ 64 → AreWritten self.old arrays (K.held shelf.old)
            → AreEnded self.old arrays (K.held shelf.new)) }
        ensures err { OnErr result ((arrays : List Array) → length arrays < 2 ^ 64 → AreWritten self.old arrays (K.held shelf.old)
            → EndStops self.old arrays (K.held shelf.old) (K.held shelf.new)) }
        ensures changed { (arrays : List Array) → AreWritten self.old arrays (K.held shelf.old)
            → IsChangedAt (K.held shelf.old) (name_of self.old (length arrays / self.old.count)) (K.held shelf.new) }
        ensures still { self.old.current ≡ None → K.held shelf.new ≡ K.held shelf.old }
        ensures some { 1 ≤ self.old.count }
        ensures failed { IfErr result (λ fault. fault ≡ faults.Failed) }
        ensures cause { IsSaveCause result (K.faults shelf.old) (K.faults shelf.new) }
    {
        let Some(file) = self.current.take() else {
            return Ok(());
        };
        file.end(shelf)?;
        Ok(())
    }
}
