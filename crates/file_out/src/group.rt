//! Groups of frames that are written as one file.

ghost use Rattle.std.specs.Prelude.{◌≡◌, ◌≢◌, ◌≤◌, ◌↔◌, ℕ, List, length, All, OnOk, OnErr, IsTrue};
ghost use Rattle.nd_base.specs.Forms.{longest_of};
ghost use Rattle.edge_traits.specs.Files.{file_at, with_file};
ghost use Rattle.cdf_write.specs.Layout.{layout};
ghost use Rattle.cdf_write.specs.Lengths.{length_of};
ghost use Rattle.cdf_write.specs.Writable.{IsWritable};
ghost use Rattle.file_out.specs.Streams.{IsRow};
ghost use Rattle.file_out.specs.Saving.{HasFinished, IsBegun, IsSaveCause};
ghost use Rattle.file_out.specs.Groups.{arrays_of};

use crate::{SaveFault, StreamFile};
use cdf_write::has_columns;
use edge_traits::Shelf;
use nd_base::{Bytes, FileShape, Head, frame_bytes};
use std::alloc::Global;

/// A frame to be written: what it has beside its samples, and their bytes, the most significant byte of each
/// sample first.
#[derive(Debug, Drop)]
pub struct Row {
    pub head: Head,
    pub samples: Bytes,
}

/// Whether a frame with this head and these samples makes a row of a shape, as calls that write rows require.
pub fn is_row(shape: &FileShape, head: &Head, samples: &[u8]) -> bool
    requires { IsWritable shape.now }
    ensures { IsTrue result ↔ IsRow shape.now head.now samples.now }
{
    let bytes = frame_bytes(shape.kind, shape.dims.as_slice());
    has_columns(shape, &head.attrs) && samples.len() == bytes
}

/// Writes frames of one shape as a file in the file layout. Every other name stays as it was.
///
/// # Errors
///
/// `Failed` where the shelf failed: its count of faults rose. After that and after want of memory the name is as
/// before or has a front of the file's bytes.
pub fn save_group<K: Shelf>(
    alloc: Global,
    shelf: &mut K,
    name: &str,
    shape: &FileShape,
    rows: &[Row],
) -> Result<(), SaveFault>
    requires writable { IsWritable shape.now }
    requires some { 1 ≤ length rows.now }
    requires each { All (λ r. IsRow shape.now r.head r.samples) rows.now }
    requires within { length_of shape.now (length rows.now) ≤ longest_of shape.now.form }
    ensures ok { OnOk result (K.held shelf.new ≡ with_file (K.held shelf.old) name.now (layout shape.now (arrays_of shape.now rows.now))) }
    ensures err { OnErr result (IsBegun (K.held shelf.old) name.now (layout shape.now (arrays_of shape.now rows.now)) (K.held shelf.new)) }
    ensures others { (q : List ℕ) → q ≢ name.now → file_at (K.held shelf.new) q ≡ file_at (K.held shelf.old) q }
    ensures finished { OnOk result (HasFinished K.finishes name.now shelf.new) }
    ensures cause { IsSaveCause result (K.faults shelf.old) (K.faults shelf.new) }
{
    let count = rows.len();
    let mut file = StreamFile::begin(alloc, shelf, name, shape, Some(count as u32), count as u64)?;
    for row in rows {
        file.add(alloc, shelf, &row.head, row.samples.list())?;
    }
    file.end(shelf)?;
    Ok(())
}
