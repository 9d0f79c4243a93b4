//! Rows of the next arrays of a file node, gathered for one write.

ghost use Rattle.std.specs.Prelude.{◌≡◌, ◌+◌, ◌<◌, ◌≤◌, length, IfOk, OnOk};
ghost use Rattle.std.specs.List.{flat_map};
ghost use Rattle.cdf_write.specs.Layout.{row};
ghost use Rattle.chain_plain.specs.PlainRun.{passed};
ghost use Rattle.graph_files.specs.OutFiles.{file_shape};
ghost use Rattle.plain_saver.specs.Ahead.{arrays_from};
ghost use Rattle.plain_saver.specs.Rooms.{AreRooms};

use crate::node_rooms::ENOUGH;
use crate::passes::Pass;
use crate::rooms::Rooms;
use crate::source::Source;
use cdf_write::push_row;
use nd_base::{FileShape, OutOfMemory};
use std::alloc::Global;

/// Adds the row of the array that goes out of a file node after `ahead` others.
fn add_row(
    alloc: Global,
    source: &Source,
    node: u32,
    pass: &Pass,
    shape: &FileShape,
    ahead: u32,
    rooms: &mut Rooms,
    rows: &mut Vec<u8>,
) -> Result<(), OutOfMemory>
    requires positions { pass.now.positions ≡ passed source.now.graph source.now.stack node }
    requires shape { shape.now ≡ file_shape source.now.graph source.now.stack node }
    requires left { pass.now.gone + ahead < length pass.now.positions }
    requires rooms { AreRooms source.now.graph source.now.stack rooms.old }
    requires rows { rows.old.items ≡ flat_map (row shape.now) (arrays_from source.now.graph source.now.stack node pass.now.gone ahead) }
    ensures rooms { AreRooms source.now.graph source.now.stack rooms.new }
    ensures rows { OnOk result (rows.new.items ≡ flat_map (row shape.now) (arrays_from source.now.graph source.now.stack node pass.now.gone (ahead + 1))) }
{
    let index = pass.after(ahead);
    source.cut(alloc, rooms, node, index)?;
    let samples = source.samples(rooms, node, index);
    push_row(rows, shape, source.head(index), samples)
}

/// Gathers the rows of the next arrays of a file node: at most `most` of them, and no more once they are enough for one write. Answers how many.
pub(crate) fn gather(
    alloc: Global,
    source: &Source,
    node: u32,
    pass: &Pass,
    shape: &FileShape,
    most: u32,
    rooms: &mut Rooms,
    rows: &mut Vec<u8>,
) -> Result<u32, OutOfMemory>
    requires positions { pass.now.positions ≡ passed source.now.graph source.now.stack node }
    requires shape { shape.now ≡ file_shape source.now.graph source.now.stack node }
    requires some { 1 ≤ most }
    requires most { pass.now.gone + most ≤ length pass.now.positions }
    requires rooms { AreRooms source.now.graph source.now.stack rooms.old }
    ensures rooms { AreRooms source.now.graph source.now.stack rooms.new }
    ensures some { IfOk result (λ n. 1 ≤ n) }
    ensures most { IfOk result (λ n. n ≤ most) }
    ensures rows { IfOk result (λ n. rows.new.items ≡ flat_map (row shape.now) (arrays_from source.now.graph source.now.stack node pass.now.gone n)) }
{
    rows.clear();
    for ahead in 0..most {
        if rows.len() >= ENOUGH {
            return Ok(ahead);
        }
        add_row(alloc, source, node, pass, shape, ahead, rooms, rows)?;
    }
    Ok(most)
}
