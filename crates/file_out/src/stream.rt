//! Files that are written one frame after the other.

ghost use Rattle.std.specs.Prelude.{◌≡◌, ◌≢◌, ◌+◌, ◌<◌, ◌≤◌, ◌++◌, ◌∷◌, [], ℕ, List, length, string_bytes, IfOk, IfErr, OnOk, OnErr};
ghost use Rattle.std.specs.List.{flat_map};
ghost use Rattle.std.specs.Option.{ForSome};
ghost use Rattle.nd_base.specs.Array.{Array};
ghost use Rattle.nd_base.specs.Forms.{longest_of};
ghost use Rattle.nd_base.specs.Shapes.{array_of};
ghost use Rattle.edge_traits.specs.Faults.{Counts};
ghost use Rattle.edge_traits.specs.Files.{file_at, with_file, with_more, HasFile, HasRange, MayAppend, Stands};
ghost use Rattle.cdf_write.specs.Layout.{header, layout, row};
ghost use Rattle.cdf_write.specs.Lengths.{length_of};
ghost use Rattle.cdf_write.specs.Writable.{IsWritable};
ghost use Rattle.file_out.specs.Streams.{HasRows, IsRow, MayCount, count_place, with_count};
ghost use Rattle.file_out.specs.Saving.{AddStops, BeginStops, HasFinished, IsSaveCause};
ghost use Rattle.file_out.specs.declared.fault.SaveFault.TheVariants as faults;

use crate::SaveFault;
use cdf_write::{TooLarge, header_bytes, row_bytes};
use edge_traits::{Failed, Shelf};
use nd_base::{FileShape, Head, Name, OutOfMemory};
use std::alloc::Global;
use std::marker::Model;

/// Where a header has its number of records.
const COUNT_PLACE: u64 = 4;

/// A file that was begun on a shelf. After a call that answered `Failed` it is to be dropped.
#[derive(Debug, Drop)]
pub struct StreamFile {
    name: Name,
    shape: FileShape,
    numrecs: Option<u32>,
    room: u64,
    count: u32,
}

impl Model for StreamFile {
    ghost use Rattle.file_out.specs.Streams.{Stream, IsOpen};

    ghost Value = { Stream };

    ghost view = { λ f. record { name = f.name; shape = f.shape; numrecs = f.numrecs; room = f.room; count = f.count } };

    ghost invariant = { λ f. IsOpen (record { name = f.name; shape = f.shape; numrecs = f.numrecs; room = f.room; count = f.count }) };
}

/// The header of a file that isn't too long.
fn header_of(
    alloc: Global,
    shape: &FileShape,
    numrecs: Option<u32>,
    room: u64,
) -> Result<Vec<u8>, OutOfMemory>
    requires writable { IsWritable shape.now }
    requires room { 1 ≤ room }
    requires within { length_of shape.now room ≤ longest_of shape.now.form }
    requires numrecs { ForSome numrecs (λ n. n ≤ room) }
    ensures { IfOk result (λ v. v.items ≡ header shape.now numrecs) }
{
    match header_bytes(alloc, shape, numrecs, room) {
        Ok(header) => Ok(header),
        Err(TooLarge::OutOfMemory) => Err(OutOfMemory),
        Err(TooLarge::FileTooLarge { .. }) => unreachable!(),
    }
}

/// The same shape.
fn same_shape(shape: &FileShape) -> Result<FileShape, OutOfMemory>
    ensures { IfOk result (λ s. s ≡ shape.now) }
{
    Ok(FileShape {
        form: shape.form,
        kind: shape.kind,
        dims: shape.dims.clone()?,
        attrs: shape.attrs.clone()?,
        width: shape.width,
        extras: shape.extras.clone()?,
    })
}

/// The stream of a file without rows.
fn without_rows(
    alloc: Global,
    name: &str,
    shape: &FileShape,
    numrecs: Option<u32>,
    room: u64,
) -> Result<StreamFile, OutOfMemory>
    requires writable { IsWritable shape.now }
    requires within { length_of shape.now room ≤ longest_of shape.now.form }
    ensures { IfOk result (λ f. f ≡ record { name = name.now; shape = shape.now; numrecs = numrecs; room = room; count = 0 }) }
{
    Ok(StreamFile {
        name: Name::new(String::from_str(alloc, name)?),
        shape: same_shape(shape)?,
        numrecs,
        room,
        count: 0,
    })
}

impl StreamFile {
    /// Begins a file of at most `room` rows of this shape under a name: creates it and appends its header, with
    /// the number of records `numrecs`, or None where it is to be put in at the end. It takes its memory first.
    ///
    /// # Errors
    ///
    /// `Failed` where the shelf failed: its count of faults rose, and the name is as before or has a front of the
    /// header. After want of memory nothing has changed.
    pub fn begin<K: Shelf>(
        alloc: Global,
        shelf: &mut K,
        name: &str,
        shape: &FileShape,
        numrecs: Option<u32>,
        room: u64,
    ) -> Result<StreamFile, SaveFault>
        requires writable { IsWritable shape.now }
        requires room { 1 ≤ room }
        requires within { length_of shape.now room ≤ longest_of shape.now.form }
        requires numrecs { ForSome numrecs (λ n. n ≤ room) }
        ensures value { IfOk result (λ f. f ≡ record { name = name.now; shape = shape.now; numrecs = numrecs; room = room; count = 0 }) }
        ensures ok { OnOk result (K.held shelf.new ≡ with_file (K.held shelf.old) name.now (header shape.now numrecs)) }
        ensures rows { IfOk result (λ f. HasRows (K.held shelf.new) f []) }
        ensures err { IfErr result (λ fault. BeginStops fault (K.held shelf.old) name.now (header shape.now numrecs) (K.held shelf.new)) }
        ensures others { (q : List ℕ) → q ≢ name.now → file_at (K.held shelf.new) q ≡ file_at (K.held shelf.old) q }
        ensures cause { IsSaveCause result (K.faults shelf.old) (K.faults shelf.new) }
    {
        let file = without_rows(alloc, name, shape, numrecs, room)?;
        let header = header_of(alloc, shape, numrecs, room)?;
        shelf.create(name)?;
        shelf.append(name, &header)?;
        Ok(file)
    }

    /// Appends the row of one frame, which has this head and these samples. It takes its memory first.
    ///
    /// # Errors
    ///
    /// `Failed` where the shelf failed: its count of faults rose, and a front of the row was added. After want
    /// of memory nothing has changed. The stream itself counts rows that were added whole.
    pub fn add<K: Shelf>(
        &mut self,
        alloc: Global,
        shelf: &mut K,
        head: &Head,
        samples: &[u8],
    ) -> Result<(), SaveFault>
        requires room { self.old.count < self.old.room }
        requires row { IsRow self.old.shape head.now samples.now }
        requires stands { Stands (K.held shelf.old) self.old.name }
        ensures ok { OnOk result (K.held shelf.new
            ≡ with_more (K.held shelf.old) self.old.name (row self.old.shape (array_of head.now self.old.shape.kind self.old.shape.dims samples.now))) }
        ensures counted { OnOk result (self.new ≡ record self.old { count = self.old.count + 1 }) }
        ensures rows { OnOk result ((arrays : List Array) → HasRows (K.held shelf.old) self.old arrays →
            HasRows (K.held shelf.new) self.new (arrays ++ array_of head.now self.old.shape.kind self.old.shape.dims samples.now ∷ [])) }
        ensures stays { OnErr result (self.new ≡ self.old) }
        ensures err { IfErr result (λ fault. AddStops fault (K.held shelf.old) self.old.name
            (row self.old.shape (array_of head.now self.old.shape.kind self.old.shape.dims samples.now)) (K.held shelf.new)) }
        ensures others { (q : List ℕ) → q ≢ self.old.name → file_at (K.held shelf.new) q ≡ file_at (K.held shelf.old) q }
        ensures cause { IsSaveCause result (K.faults shelf.old) (K.faults shelf.new) }
    {
        let row = row_bytes(alloc, &self.shape, head, samples)?;
        shelf.append(self.name.text(), &row)?;
        self.count += 1;
        Ok(())
    }

    /// Appends the rows of the next arrays, as many as `count` says, in one piece. It takes no memory.
    ///
    /// # Errors
    ///
    /// `Failed` alone, where the shelf failed: its count of faults rose, and a front of the rows was added. The stream
    /// itself counts rows that were added whole.
    pub fn add_rows<K: Shelf>(
        &mut self,
        shelf: &mut K,
        rows: &[u8],
        count: u32,
    ) -> Result<(), SaveFault>
        requires room { self.old.count + count ≤ self.old.room }
        requires rows { (arrays : List Array) × (length arrays ≡ count) × (rows.now ≡ flat_map (row self.old.shape) arrays) }
        requires stands { Stands (K.held shelf.old) self.old.name }
        ensures ok { OnOk result (K.held shelf.new ≡ with_more (K.held shelf.old) self.old.name rows.now) }
        ensures counted { OnOk result (self.new ≡ record self.old { count = self.old.count + count }) }
        ensures rows { OnOk result ((arrays more : List Array) → length more ≡ count → rows.now ≡ flat_map (row self.old.shape) more
            → HasRows (K.held shelf.old) self.old arrays → HasRows (K.held shelf.new) self.new (arrays ++ more)) }
        ensures stays { OnErr result (self.new ≡ self.old) }
        ensures failed { IfErr result (λ fault. fault ≡ faults.Failed) }
        ensures err { OnErr result (MayAppend (K.held shelf.old) self.old.name rows.now (K.held shelf.new)) }
        ensures others { (q : List ℕ) → q ≢ self.old.name → file_at (K.held shelf.new) q ≡ file_at (K.held shelf.old) q }
        ensures cause { IsSaveCause result (K.faults shelf.old) (K.faults shelf.new) }
    {
        shelf.append(self.name.text(), rows)?;
        self.count += count;
        Ok(())
    }

    /// Puts the number of rows into a header that left it open.
    fn put_count<K: Shelf>(&self, shelf: &mut K) -> Result<(), Failed>
        requires { HasRange (K.held shelf.old) self.now.name count_place 4 }
        ensures ok { OnOk result (K.held shelf.new ≡ with_count (K.held shelf.old) self.now.name self.now.numrecs self.now.count) }
        ensures err { OnErr result (MayCount (K.held shelf.old) self.now.name self.now.numrecs self.now.count (K.held shelf.new)) }
        ensures cause { Counts (K.faults shelf.old) (K.faults shelf.new) result }
    {
        match self.numrecs {
            Some(_) => Ok(()),
            None => shelf.patch(self.name.text(), COUNT_PLACE, &self.count.to_be_bytes()),
        }
    }

    /// Ends the file: puts the number of rows into the header where that left it open, and finishes the name. It
    /// takes no memory, and answers the number of rows.
    ///
    /// # Errors
    ///
    /// `Failed` alone, where the shelf failed: its count of faults rose. Where the header left the number open
    /// its four bytes are then not known, and else nothing has changed.
    pub fn end<K: Shelf>(self, shelf: &mut K) -> Result<u32, SaveFault>
        requires counted { ForSome self.numrecs (λ n. n ≡ self.count) }
        requires stands { HasRange (K.held shelf.old) self.name count_place 4 }
        ensures count { IfOk result (λ n. n ≡ self.count) }
        ensures ok { OnOk result (K.held shelf.new ≡ with_count (K.held shelf.old) self.name self.numrecs self.count) }
        ensures layout { OnOk result ((arrays : List Array) → HasRows (K.held shelf.old) self arrays
            → HasFile (K.held shelf.new) self.name (layout self.shape arrays)) }
        ensures failed { IfErr result (λ fault. fault ≡ faults.Failed) }
        ensures err { OnErr result (MayCount (K.held shelf.old) self.name self.numrecs self.count (K.held shelf.new)) }
        ensures others { (q : List ℕ) → q ≢ self.name → file_at (K.held shelf.new) q ≡ file_at (K.held shelf.old) q }
        ensures finished { OnOk result (HasFinished K.finishes self.name shelf.new) }
        ensures cause { IsSaveCause result (K.faults shelf.old) (K.faults shelf.new) }
    {
        self.put_count(shelf)?;
        shelf.finish(self.name.text())?;
        Ok(self.count)
    }
}
