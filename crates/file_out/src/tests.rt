//! A group of frames, saved to a shelf in memory.

ghost use Rattle.std.specs.Prelude.{◌≡◌, length, All, IfOk};
ghost use Rattle.file_out.specs.Examples.{two_by_two};
ghost use Rattle.file_out.specs.Streams.{IsRow};

use crate::{Row, SaveFault, save_group};
use edge_traits::{MemShelf, Shelf};
use nd_base::{Attrs, Bytes, Dim, FileShape, Form, Head, SampleType, Seq};
use std::alloc::{AllocError, Global};
use std::test::Fail;

/// What follows the number of records in a file of one frame of two by two, with id 1 and samples 1 to 4.
const AFTER_COUNT: [&[u8]; 20] = [
    b"\0\0\0\x0a\0\0\0\x04",
    b"\0\0\0\x09numArrays\0\0\0\0\0\0\0",
    b"\0\0\0\x04dim0\0\0\0\x02",
    b"\0\0\0\x04dim1\0\0\0\x02",
    b"\0\0\0\x0eattrStringSize\0\0\0\0\x01\0",
    b"\0\0\0\x0c\0\0\0\x07",
    b"\0\0\0\x08dataType\0\0\0\x04\0\0\0\x01\0\0\0\x01",
    b"\0\0\0\x13NDNetCDFFileVersion\0\0\0\0\x06\0\0\0\x01@\x08\0\0\0\0\0\0",
    b"\0\0\0\x0cnumArrayDims\0\0\0\x04\0\0\0\x01\0\0\0\x02",
    b"\0\0\0\x07dimSize\0\0\0\0\x04\0\0\0\x02\0\0\0\x02\0\0\0\x02",
    b"\0\0\0\x09dimOffset\0\0\0\0\0\0\x04\0\0\0\x02\0\0\0\0\0\0\0\0",
    b"\0\0\0\x0adimBinning\0\0\0\0\0\x04\0\0\0\x02\0\0\0\x01\0\0\0\x01",
    b"\0\0\0\x0adimReverse\0\0\0\0\0\x04\0\0\0\x02\0\0\0\0\0\0\0\0",
    b"\0\0\0\x0b\0\0\0\x05",
    b"\0\0\0\x08uniqueId\0\0\0\x01\0\0\0\0\0\0\0\0\0\0\0\0\0\0\0\x04\0\0\0\x04\0\0\x02\x1c",
    b"\0\0\0\x09timeStamp\0\0\0\0\0\0\x01\0\0\0\0\0\0\0\0\0\0\0\0\0\0\0\x06\0\0\0\x08\0\0\x02 ",
    b"\0\0\0\x0aepicsTSSec\0\0\0\0\0\x01\0\0\0\0\0\0\0\0\0\0\0\0\0\0\0\x04\0\0\0\x04\0\0\x02(",
    b"\0\0\0\x0bepicsTSNsec\0\0\0\0\x01\0\0\0\0\0\0\0\0\0\0\0\0\0\0\0\x04\0\0\0\x04\0\0\x02,",
    b"\0\0\0\x0aarray_data\0\0\0\0\0\x03\0\0\0\0\0\0\0\x01\0\0\0\x02\0\0\0\0\0\0\0\0\0\0\0\x01\0\0\0\x04\0\0\x020",
    b"\0\0\0\x01\0\0\0\0\0\0\0\0\0\0\0\0\0\0\0\0\x01\x02\x03\x04",
];

/// The row of a second frame, with id 2 and samples 5 to 8.
const SECOND_ROW: &[u8] = b"\0\0\0\x02\0\0\0\0\0\0\0\0\0\0\0\0\0\0\0\0\x05\x06\x07\x08";

/// The file of both frames with this number of records.
fn two_frames(alloc: Global, numrecs: u32) -> Result<Vec<u8>, AllocError> {
    let mut bytes = b"CDF\x01".to_vec(alloc)?;
    bytes.extend_from_slice(&numrecs.to_be_bytes())?;
    for part in AFTER_COUNT {
        bytes.extend_from_slice(part)?;
    }
    bytes.extend_from_slice(SECOND_ROW)?;
    Ok(bytes)
}

/// The shape of both.
fn shape_of_both(alloc: Global) -> Result<FileShape, AllocError>
    ensures { IfOk result (λ s. s ≡ two_by_two) }
{
    let dim = Dim {
        size: 2,
        offset: 0,
        binning: 1,
        reverse: false,
    };
    Ok(FileShape {
        form: Form::Classic,
        kind: SampleType::UInt8,
        dims: Seq::new(vec![in alloc; dim, dim]?),
        attrs: Seq::new(Vec::new(alloc)),
        width: 256,
        extras: Seq::new(Vec::new(alloc)),
    })
}

/// A frame of that shape.
fn frame(alloc: Global, id: i32, samples: [u8; 4]) -> Result<Row, AllocError>
    ensures { IfOk result (λ r. IsRow two_by_two r.head r.samples) }
{
    Ok(Row {
        head: Head {
            id,
            stamp: 0,
            sec: 0,
            nsec: 0,
            attrs: Attrs::none(alloc),
        },
        samples: Bytes::new(samples.to_vec(alloc)?),
    })
}

/// Both frames.
fn both(alloc: Global) -> Result<Vec<Row>, AllocError>
    ensures each { IfOk result (λ rows. All (λ r. IsRow two_by_two r.head r.samples) rows.items) }
    ensures count { IfOk result (λ rows. length rows.items ≡ 2) }
{
    let mut rows = Vec::new(alloc);
    rows.push(frame(alloc, 1, [1, 2, 3, 4])?)?;
    rows.push(frame(alloc, 2, [5, 6, 7, 8])?)?;
    Ok(rows)
}

/// Saves both frames as a group.
fn save<K: Shelf>(alloc: Global, shelf: &mut K) -> Result<(), SaveFault> {
    let shape = shape_of_both(alloc)?;
    let rows = both(alloc)?;
    save_group(alloc, shelf, "a.nc", &shape, &rows)
}

/// A shelf with room enough.
fn shelf(alloc: Global) -> Result<MemShelf, AllocError> {
    Ok(MemShelf::new(alloc, 1_000, 2, Vec::new(alloc))?)
}

#[test]
fn a_group_of_two_has_588_bytes(rt: HostRuntime) -> Result<(), Fail> {
    let alloc = rt.alloc();
    let mut shelf = shelf(alloc)?;
    assert_eq!(rt; save(alloc, &mut shelf), Ok(()));
    assert_eq!(rt; shelf.calls(), 5);
    let written = shelf.bytes("a.nc").ok_or("no file")?;
    assert_eq!(rt; written, two_frames(alloc, 2)?.as_slice());
    Ok(())
}
