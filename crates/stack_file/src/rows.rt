//! Rows of the next frames of a stack, gathered for one write.

ghost use Rattle.std.specs.Prelude.{◌≡◌, ◌<◌, ◌≤◌, length, map, IfOk, OnOk};
ghost use Rattle.nd_base.specs.Forms.{longest_of};
ghost use Rattle.nd_base.specs.SampleLaws.{AreBytes};
ghost use Rattle.nd_base.specs.Stacks.{frame_size};
ghost use Rattle.cdf_write.specs.Lengths.{row_length, length_of};
ghost use Rattle.cdf_write.specs.Writable.{IsWritable};
ghost use Rattle.stack_file.specs.Gathered.{AreGathered, IsAdded, IsSource};

use crate::change::Change;
use cdf_write::{file_length, push_row};
use nd_base::{FileShape, OutOfMemory, Stack, frame_bytes};
use std::alloc::Global;

/// How many bytes of rows are enough for one write.
const ENOUGH: usize = 16_384;

/// What is written: a stack, the way in which each of its frames is changed, and the shape of the changed frames.
#[derive(Drop)]
pub(crate) struct Source<'a, C> {
    pub(crate) shape: &'a FileShape,
    pub(crate) stack: &'a Stack,
    pub(crate) change: &'a C,
}

/// Room for the samples of one changed frame, and for rows that are written at once.
#[derive(Drop)]
pub(crate) struct Rooms {
    pub(crate) frame: Vec<u8>,
    pub(crate) rows: Vec<u8>,
}

/// The bytes of one row.
fn row_bytes(shape: &FileShape) -> usize
    requires writable { IsWritable shape.now }
    requires within { length_of shape.now 1 ≤ longest_of shape.now.form }
    ensures value { result ≡ row_length shape.now }
    ensures small { result ≤ 8589934592 }
{
    (file_length(shape, 1) - file_length(shape, 0)) as usize
}

/// These bytes, each of which is below 256.
fn bytes(list: &[u8]) -> &[u8]
    ensures value { result.now ≡ list.now }
    ensures small { AreBytes result.now }
{
    list
}

impl Rooms {
    /// Rooms for the frames of a stack whose changed frames have this shape. Their rows take no more memory.
    pub(crate) fn new(alloc: Global, shape: &FileShape, stack: &Stack) -> Result<Rooms, OutOfMemory>
        requires writable { IsWritable shape.now }
        requires within { length_of shape.now 1 ≤ longest_of shape.now.form }
        ensures { IfOk result (λ rooms. length rooms.frame.items ≡ frame_size stack.now.shape) }
    {
        let samples = stack.shape();
        let frame = vec![in alloc; 0; frame_bytes(samples.kind, samples.dims.as_slice())]?;
        let rows = Vec::with_capacity(alloc, ENOUGH + row_bytes(shape))?;
        Ok(Rooms { frame, rows })
    }

    /// Adds the row of what comes of frame `k`.
    fn add_row<C: Change>(&mut self, source: &Source<C>, k: u32) -> Result<(), OutOfMemory>
        requires frame { k < length source.now.stack.now.arrays }
        requires source { IsSource (C.dims source.now.change.now) source.now.stack.now source.now.shape.now }
        requires fits { C.fits source.now.change.now source.now.stack.now.shape }
        requires room { length self.old.frame.items ≡ frame_size source.now.stack.now.shape }
        ensures room { length self.new.frame.items ≡ frame_size source.now.stack.now.shape }
        ensures added { OnOk result (IsAdded source.now.shape.now
            (map (C.change source.now.change.now) source.now.stack.now.arrays) k self.old.rows.items self.new.rows.items) }
    {
        let (stack, change) = (source.stack, source.change);
        change.fill(stack.shape(), stack.frame(k), &mut self.frame);
        let samples = bytes(self.frame.as_slice());
        push_row(&mut self.rows, source.shape, stack.head(k), samples)
    }

    /// Gathers the rows of what comes of the frames from this one on, until they are enough for one write. Answers the
    /// number of the frame that is next.
    pub(crate) fn gather<C: Change>(
        &mut self,
        source: &Source<C>,
        from: u32,
    ) -> Result<u32, OutOfMemory>
        requires frame { from < length source.now.stack.now.arrays }
        requires source { IsSource (C.dims source.now.change.now) source.now.stack.now source.now.shape.now }
        requires fits { C.fits source.now.change.now source.now.stack.now.shape }
        requires room { length self.old.frame.items ≡ frame_size source.now.stack.now.shape }
        ensures room { length self.new.frame.items ≡ frame_size source.now.stack.now.shape }
        ensures some { IfOk result (λ next. from < next) }
        ensures within { IfOk result (λ next. next ≤ length source.now.stack.now.arrays) }
        ensures rows { IfOk result (λ next. AreGathered source.now.shape.now
            (map (C.change source.now.change.now) source.now.stack.now.arrays) from next self.new.rows.items) }
    {
        self.rows.clear();
        for k in from..source.stack.frames() {
            if self.rows.len() >= ENOUGH {
                return Ok(k);
            }
            self.add_row(source, k)?;
        }
        Ok(source.stack.frames())
    }
}
