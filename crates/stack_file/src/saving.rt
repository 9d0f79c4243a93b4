//! The file of a stack whose frames are changed.

ghost use Rattle.std.specs.Prelude.{◌≡◌, ◌≤◌, length, map, OnOk, OnErr};
ghost use Rattle.nd_base.specs.Forms.{longest_of};
ghost use Rattle.cdf_write.specs.Layout.{layout};
ghost use Rattle.cdf_write.specs.Lengths.{length_of};
ghost use Rattle.cdf_write.specs.Writable.{IsWritable};
ghost use Rattle.nd_stack.specs.KeptStacks.{IsKeptStack};
ghost use Rattle.nd_stack.specs.LayoutShape.{HasSmallDims};
ghost use Rattle.nd_stack.specs.RoundTrip.{ReadsBack};
ghost use Rattle.file_out.specs.Saving.{IsBegun, IsSaveCause};
ghost use Rattle.stack_file.specs.ChangedStacks.{changed_shape, changed_stack, with_stack_file};

use crate::change::Change;
use crate::rows::{Rooms, Source};
use edge_traits::Shelf;
use file_out::{SaveFault, StreamFile};
use nd_base::{FileShape, Stack};
use std::alloc::Global;

/// Writes what comes of each frame of a stack as one file of this shape, in the file layout; for a stack without frames
/// it writes nothing. Beside the stack it keeps one changed frame and the rows of one write: fewer than 16,384 bytes, and
/// one row more.
///
/// # Errors
///
/// `Failed` where the shelf failed: its count of faults rose. After that and after want of memory the name is as before
/// or has a front of the file's bytes.
pub fn save_stack<K: Shelf, C: Change>(
    alloc: Global,
    shelf: &mut K,
    name: &str,
    shape: &FileShape,
    stack: &Stack,
    change: &C,
) -> Result<(), SaveFault>
    requires kept { IsKeptStack stack.now }
    requires fits { C.fits change.now stack.now.shape }
    requires shape { shape.now ≡ changed_shape (C.dims change.now) stack.now.shape }
    requires writable { IsWritable shape.now }
    requires dims { HasSmallDims shape.now }
    requires within { length_of shape.now (length stack.now.arrays) ≤ longest_of shape.now.form }
    ensures ok { OnOk result (K.held shelf.new
        ≡ with_stack_file (K.held shelf.old) name.now shape.now (map (C.change change.now) stack.now.arrays)) }
    ensures kept { OnOk result (IsKeptStack (changed_stack (C.change change.now) (C.dims change.now) stack.now)) }
    ensures back { OnOk result (1 ≤ length stack.now.arrays → ReadsBack shape.now (map (C.change change.now) stack.now.arrays)) }
    ensures some { OnErr result (1 ≤ length stack.now.arrays) }
    ensures err { OnErr result (IsBegun (K.held shelf.old) name.now (layout shape.now (map (C.change change.now) stack.now.arrays))
        (K.held shelf.new)) }
    ensures finished { OnOk result (K.all_finished shelf.old → K.all_finished shelf.new) }
    ensures cause { IsSaveCause result (K.faults shelf.old) (K.faults shelf.new) }
{
    let count = stack.frames();
    if count == 0 {
        return Ok(());
    }
    let source = Source {
        shape,
        stack,
        change,
    };
    let mut rooms = Rooms::new(alloc, shape, stack)?;
    let mut file = StreamFile::begin(alloc, shelf, name, shape, Some(count), u64::from(count))?;
    let mut done = 0;
    while done < count {
        let next = rooms.gather(&source, done)?;
        file.add_rows(shelf, &rooms.rows, next - done)?;
        done = next;
    }
    file.end(shelf)?;
    shelf.finish_all()?;
    Ok(())
}
