//! Lengths of files, at the longest that their form allows. Each shape is tested for what the calls require before they are made.

ghost use Rattle.std.specs.Prelude.{◌≡◌, []};

use crate::{TooLarge, file_length, header_bytes, is_writable, length_with};
use nd_base::{Dim, FileShape, Form, SampleType, Seq, are_array_dims};
use std::alloc::{AllocError, Global};
use std::test::Fail;

/// The shape of frames of this type and these dimensions, without attributes.
fn shape_of(alloc: Global, kind: SampleType, dims: Vec<Dim>) -> FileShape
    ensures { result.attrs ≡ [] }
{
    FileShape {
        form: Form::Classic,
        kind,
        dims: Seq::new(dims),
        attrs: Seq::new(Vec::new(alloc)),
        width: 256,
        extras: Seq::new(Vec::new(alloc)),
    }
}

/// Dimensions of these sizes without offset and binning.
fn plain_dims(alloc: Global, sizes: &[u32]) -> Result<Vec<Dim>, AllocError> {
    let mut dims = Vec::new(alloc);
    for size in sizes {
        dims.push(Dim {
            size: *size,
            offset: 0,
            binning: 1,
            reverse: false,
        })?;
    }
    Ok(dims)
}

#[test]
fn lengths_of_worked_files(rt: HostRuntime) -> Result<(), Fail> {
    let alloc = rt.alloc();
    let dims = plain_dims(alloc, &[2, 2])?;
    let mut shape = shape_of(alloc, SampleType::UInt8, dims);
    assert!(rt; is_writable(&shape));
    assert_eq!(rt; file_length(&shape, 89_478_462), 2_147_483_628);
    let header = header_bytes(alloc, &shape, None, 89_478_462)?;
    assert_eq!(rt; header.len(), 540);
    assert_eq!(rt; &header[..8], b"CDF\x01\xff\xff\xff\xff".as_slice());
    let refused = header_bytes(alloc, &shape, None, 89_478_463);
    assert_eq!(rt;
        refused.err(),
        Some(TooLarge::FileTooLarge {
            bytes: 2_147_483_652
        })
    );
    shape.form = Form::Wide;
    assert!(rt; is_writable(&shape));
    let longest = header_bytes(alloc, &shape, None, 357_913_918)?;
    assert_eq!(rt; longest.len(), 560);
    let refused = header_bytes(alloc, &shape, None, 357_913_919);
    assert_eq!(rt;
        refused.err(),
        Some(TooLarge::FileTooLarge {
            bytes: 8_589_934_616
        })
    );
    let other = plain_dims(alloc, &[3])?;
    assert!(rt; are_array_dims(&other));
    assert_eq!(rt;
        length_with(&shape, Form::Classic, SampleType::UInt16, &other, 3),
        592
    );
    assert_eq!(rt;
        length_with(&shape, Form::Wide, SampleType::UInt16, &other, 3),
        612
    );
    Ok(())
}
