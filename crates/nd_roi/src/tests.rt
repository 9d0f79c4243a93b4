//! Regions of arrays: worked rows of dimensions and samples.

ghost use Rattle.std.specs.Prelude.{length, IfOk, IfSome, OnOk};
ghost use Rattle.nd_base.specs.GraphRules.{IsRoi};
ghost use Rattle.nd_base.specs.ShapeLaws.{IsSound};

use crate::{fill_region, region};
use nd_base::SampleType::{Int8, Int16, Int32, UInt8, UInt16, UInt32};
use nd_base::{Attrs, Dim, Head, NdArray, RoiRule, SampleType, Seq, ShapeFault};
use std::alloc::{AllocError, Global};
use std::test::Fail;

/// The lists of a rule, its scale and its output's type.
#[derive(Clone, Copy)]
struct Lists<'a> {
    min: &'a [i32],
    size: &'a [i32],
    bin: &'a [i32],
    reverse: &'a [bool],
    auto: &'a [bool],
    scale: u32,
    out: Option<SampleType>,
}

/// A rule without lists.
const WHOLE: Lists = Lists {
    min: &[],
    size: &[],
    bin: &[],
    reverse: &[],
    auto: &[],
    scale: 1,
    out: None,
};

/// The rule with these lists; None where a list is too long or the scale is out of range.
fn rule_of(alloc: Global, lists: &Lists) -> Result<Option<RoiRule>, AllocError>
    ensures { IfOk result (λ rule. IfSome rule IsRoi) }
{
    let fits = lists.min.len() <= 10
        && lists.size.len() <= 10
        && lists.bin.len() <= 10
        && lists.reverse.len() <= 10
        && lists.auto.len() <= 10
        && 0 < lists.scale
        && lists.scale <= 2_147_483_647;
    if !fits {
        return Ok(None);
    }
    Ok(Some(RoiRule {
        min: Seq::new(Vec::from_slice(alloc, lists.min)?),
        size: Seq::new(Vec::from_slice(alloc, lists.size)?),
        bin: Seq::new(Vec::from_slice(alloc, lists.bin)?),
        reverse: Seq::new(Vec::from_slice(alloc, lists.reverse)?),
        auto: Seq::new(Vec::from_slice(alloc, lists.auto)?),
        scale: lists.scale,
        out: lists.out,
    }))
}

/// Whether an array has these dimensions and so many bytes of samples.
fn is_sound(alloc: Global, kind: SampleType, dims: &[Dim], bytes: &[u8]) -> Result<(), ShapeFault>
    ensures { OnOk result (IsSound kind dims.now (length bytes.now)) }
{
    let Ok(dims) = Vec::from_slice(alloc, dims) else {
        return Err(ShapeFault::OutOfMemory);
    };
    let Ok(bytes) = Vec::from_slice(alloc, bytes) else {
        return Err(ShapeFault::OutOfMemory);
    };
    let head = Head {
        id: 1,
        stamp: 0,
        sec: 0,
        nsec: 0,
        attrs: Attrs::none(alloc),
    };
    NdArray::new(alloc, head, kind, dims, bytes)?;
    Ok(())
}

/// The region's dimensions and its samples, which take so many bytes.
fn cut_out(
    alloc: Global,
    lists: &Lists,
    kind: SampleType,
    dims: &[Dim],
    input: &[u8],
    bytes: usize,
) -> Result<(Vec<Dim>, Vec<u8>), Fail> {
    let rule = rule_of(alloc, lists)?.ok_or("a list is too long")?;
    is_sound(alloc, kind, dims, input)?;
    let cut_dims = region(alloc, &rule, dims)?;
    let mut out = vec![in alloc; 0u8; bytes]?;
    is_sound(alloc, rule.out.unwrap_or(kind), &cut_dims, &out)?;
    fill_region(&rule, kind, dims, input, &mut out);
    Ok((cut_dims, out))
}

/// A dimension: its size, offset, binning and whether it is reversed.
type Side = (u32, i32, i32, bool);

/// The dimensions of these.
fn dims_of(alloc: Global, sides: &[Side]) -> Result<Vec<Dim>, AllocError> {
    let mut dims = Vec::new(alloc);
    for &(size, offset, binning, reverse) in sides {
        dims.push(Dim {
            size,
            offset,
            binning,
            reverse,
        })?;
    }
    Ok(dims)
}

/// A region of an array, and what it is: dimensions and samples.
struct Row {
    lists: Lists<'static>,
    kind: SampleType,
    dims: &'static [Side],
    input: &'static [u8],
    cut: &'static [Side],
    want: &'static [u8],
}

/// Whether the region of the row is as it says.
fn is_as_said(alloc: Global, row: &Row) -> Result<bool, Fail> {
    let dims = dims_of(alloc, row.dims)?;
    let cut = dims_of(alloc, row.cut)?;
    let (got, samples) = cut_out(
        alloc,
        &row.lists,
        row.kind,
        &dims,
        row.input,
        row.want.len(),
    )?;
    Ok(got.as_slice() == cut.as_slice() && samples.as_slice() == row.want)
}

/// Whether each region is as its row says.
fn are_as_said(alloc: Global, rows: &[Row]) -> Result<bool, Fail> {
    for row in rows {
        if !is_as_said(alloc, row)? {
            return Ok(false);
        }
    }
    Ok(true)
}

const EIGHT: &[u8] = &[1, 2, 3, 4, 5, 6, 7, 8];

const ONE_TO_EIGHT: &[Row] = &[
    Row {
        lists: Lists {
            min: &[9],
            size: &[3],
            ..WHOLE
        },
        kind: UInt8,
        dims: &[(8, 0, 1, false)],
        input: EIGHT,
        cut: &[(1, 7, 1, false)],
        want: &[8],
    },
    Row {
        lists: Lists {
            min: &[2],
            size: &[0],
            ..WHOLE
        },
        kind: UInt8,
        dims: &[(8, 0, 1, false)],
        input: EIGHT,
        cut: &[(1, 2, 1, false)],
        want: &[3],
    },
    Row {
        lists: Lists {
            size: &[2],
            bin: &[9],
            ..WHOLE
        },
        kind: UInt8,
        dims: &[(8, 0, 1, false)],
        input: EIGHT,
        cut: &[(1, 0, 2, false)],
        want: &[3],
    },
    Row {
        lists: Lists {
            min: &[1],
            size: &[5],
            bin: &[2],
            ..WHOLE
        },
        kind: UInt8,
        dims: &[(8, 0, 1, false)],
        input: EIGHT,
        cut: &[(2, 1, 2, false)],
        want: &[5, 9],
    },
    Row {
        lists: Lists {
            min: &[1],
            size: &[5],
            bin: &[2],
            reverse: &[true],
            ..WHOLE
        },
        kind: UInt8,
        dims: &[(8, 0, 1, false)],
        input: EIGHT,
        cut: &[(2, 1, 2, true)],
        want: &[9, 5],
    },
    Row {
        lists: Lists { min: &[6], ..WHOLE },
        kind: UInt8,
        dims: &[(8, 0, 1, false)],
        input: EIGHT,
        cut: &[(2, 6, 1, false)],
        want: &[7, 8],
    },
    Row {
        lists: Lists {
            min: &[6],
            size: &[1],
            auto: &[true],
            ..WHOLE
        },
        kind: UInt8,
        dims: &[(8, 0, 1, false)],
        input: EIGHT,
        cut: &[(2, 6, 1, false)],
        want: &[7, 8],
    },
    Row {
        lists: Lists {
            min: &[6],
            auto: &[false],
            ..WHOLE
        },
        kind: UInt8,
        dims: &[(8, 0, 1, false)],
        input: EIGHT,
        cut: &[(2, 6, 1, false)],
        want: &[7, 8],
    },
    Row {
        lists: Lists {
            min: &[7, 3],
            size: &[1, 0],
            bin: &[-4, 2],
            reverse: &[false, true],
            ..WHOLE
        },
        kind: UInt8,
        dims: &[(8, 0, 1, false)],
        input: EIGHT,
        cut: &[(1, 7, 1, false)],
        want: &[8],
    },
];

const SUMS_OF_FOUR: &[Row] = &[
    Row {
        lists: Lists {
            bin: &[2, 2],
            ..WHOLE
        },
        kind: UInt16,
        dims: &[(2, 0, 1, false), (2, 0, 1, false)],
        input: &[255; 8],
        cut: &[(1, 0, 2, false), (1, 0, 2, false)],
        want: &[255, 252],
    },
    Row {
        lists: Lists {
            bin: &[2, 2],
            scale: 4,
            ..WHOLE
        },
        kind: UInt16,
        dims: &[(2, 0, 1, false), (2, 0, 1, false)],
        input: &[255; 8],
        cut: &[(1, 0, 2, false), (1, 0, 2, false)],
        want: &[255, 255],
    },
    Row {
        lists: Lists { scale: 2, ..WHOLE },
        kind: Int8,
        dims: &[(2, 0, 1, false), (2, 0, 1, false)],
        input: &[253, 255, 3, 127],
        cut: &[(2, 0, 1, false), (2, 0, 1, false)],
        want: &[255, 0, 1, 63],
    },
    Row {
        lists: Lists {
            bin: &[2, 2],
            scale: 3,
            ..WHOLE
        },
        kind: Int8,
        dims: &[(2, 0, 1, false), (2, 0, 1, false)],
        input: &[128; 4],
        cut: &[(1, 0, 2, false), (1, 0, 2, false)],
        want: &[86],
    },
];

const REVERSED: &[Row] = &[
    Row {
        lists: Lists { ..WHOLE },
        kind: UInt8,
        dims: &[(2, 0, 1, false), (3, 0, 1, false), (2, 0, 1, false)],
        input: &[0, 1, 2, 3, 4, 5, 6, 7, 8, 9, 10, 11],
        cut: &[(2, 0, 1, false), (3, 0, 1, false), (2, 0, 1, false)],
        want: &[0, 1, 2, 3, 4, 5, 6, 7, 8, 9, 10, 11],
    },
    Row {
        lists: Lists {
            reverse: &[true],
            ..WHOLE
        },
        kind: UInt8,
        dims: &[(2, 0, 1, false), (3, 0, 1, false), (2, 0, 1, false)],
        input: &[0, 1, 2, 3, 4, 5, 6, 7, 8, 9, 10, 11],
        cut: &[(2, 0, 1, true), (3, 0, 1, false), (2, 0, 1, false)],
        want: &[1, 0, 3, 2, 5, 4, 7, 6, 9, 8, 11, 10],
    },
    Row {
        lists: Lists {
            reverse: &[false, true],
            ..WHOLE
        },
        kind: UInt8,
        dims: &[(2, 0, 1, false), (3, 0, 1, false), (2, 0, 1, false)],
        input: &[0, 1, 2, 3, 4, 5, 6, 7, 8, 9, 10, 11],
        cut: &[(2, 0, 1, false), (3, 0, 1, true), (2, 0, 1, false)],
        want: &[4, 5, 2, 3, 0, 1, 10, 11, 8, 9, 6, 7],
    },
    Row {
        lists: Lists {
            reverse: &[false, false, true],
            ..WHOLE
        },
        kind: UInt8,
        dims: &[(2, 0, 1, false), (3, 0, 1, false), (2, 0, 1, false)],
        input: &[0, 1, 2, 3, 4, 5, 6, 7, 8, 9, 10, 11],
        cut: &[(2, 0, 1, false), (3, 0, 1, false), (2, 0, 1, true)],
        want: &[6, 7, 8, 9, 10, 11, 0, 1, 2, 3, 4, 5],
    },
    Row {
        lists: Lists {
            reverse: &[true, true, true],
            ..WHOLE
        },
        kind: UInt8,
        dims: &[(2, 0, 1, false), (3, 0, 1, false), (2, 0, 1, false)],
        input: &[0, 1, 2, 3, 4, 5, 6, 7, 8, 9, 10, 11],
        cut: &[(2, 0, 1, true), (3, 0, 1, true), (2, 0, 1, true)],
        want: &[11, 10, 9, 8, 7, 6, 5, 4, 3, 2, 1, 0],
    },
];

const FAR_AND_DEEP: &[Row] = &[
    Row {
        lists: Lists {
            min: &[2, 1],
            bin: &[2, 2],
            reverse: &[true, true],
            ..WHOLE
        },
        kind: UInt8,
        dims: &[
            (6, 2_147_483_646, 1_500_000_000, true),
            (6, -2_147_483_648, -1_500_000_000, false),
        ],
        input: &[1; 36],
        cut: &[
            (2, 2_147_483_647, 2_147_483_647, false),
            (2, -2_147_483_647, -2_147_483_648, true),
        ],
        want: &[4, 4, 4, 4],
    },
    Row {
        lists: Lists {
            bin: &[3, 1, 1, 1, 1, 1, 1, 1, 2, 1],
            reverse: &[
                false, true, false, false, false, false, false, false, false, true,
            ],
            ..WHOLE
        },
        kind: UInt8,
        dims: &[
            (3, 0, 1, false),
            (2, 0, 1, false),
            (1, 0, 1, false),
            (1, 0, 1, false),
            (1, 0, 1, false),
            (1, 0, 1, false),
            (1, 0, 1, false),
            (1, 0, 1, false),
            (2, 0, 1, false),
            (2, 0, 1, false),
        ],
        input: &[
            1, 2, 3, 4, 5, 6, 7, 8, 9, 10, 11, 12, 13, 14, 15, 16, 17, 18, 19, 20, 21, 22, 23, 24,
        ],
        cut: &[
            (1, 0, 3, false),
            (2, 0, 1, true),
            (1, 0, 1, false),
            (1, 0, 1, false),
            (1, 0, 1, false),
            (1, 0, 1, false),
            (1, 0, 1, false),
            (1, 0, 1, false),
            (1, 0, 2, false),
            (2, 0, 1, true),
        ],
        want: &[120, 102, 48, 30],
    },
];

const TYPES: &[Row] = &[
    Row {
        lists: Lists {
            out: Some(Int8),
            ..WHOLE
        },
        kind: Int8,
        dims: &[(2, 0, 1, false)],
        input: &[0x80, 0x7f],
        cut: &[(2, 0, 1, false)],
        want: &[0x80, 0x7f],
    },
    Row {
        lists: Lists {
            out: Some(UInt8),
            ..WHOLE
        },
        kind: Int8,
        dims: &[(2, 0, 1, false)],
        input: &[0x80, 0x7f],
        cut: &[(2, 0, 1, false)],
        want: &[0x80, 0x7f],
    },
    Row {
        lists: Lists {
            out: Some(Int16),
            ..WHOLE
        },
        kind: Int8,
        dims: &[(2, 0, 1, false)],
        input: &[0x80, 0x7f],
        cut: &[(2, 0, 1, false)],
        want: &[0xff, 0x80, 0x00, 0x7f],
    },
    Row {
        lists: Lists {
            out: Some(UInt16),
            ..WHOLE
        },
        kind: Int8,
        dims: &[(2, 0, 1, false)],
        input: &[0x80, 0x7f],
        cut: &[(2, 0, 1, false)],
        want: &[0xff, 0x80, 0x00, 0x7f],
    },
    Row {
        lists: Lists {
            out: Some(Int32),
            ..WHOLE
        },
        kind: Int8,
        dims: &[(2, 0, 1, false)],
        input: &[0x80, 0x7f],
        cut: &[(2, 0, 1, false)],
        want: &[0xff, 0xff, 0xff, 0x80, 0x00, 0x00, 0x00, 0x7f],
    },
    Row {
        lists: Lists {
            out: Some(UInt32),
            ..WHOLE
        },
        kind: Int8,
        dims: &[(2, 0, 1, false)],
        input: &[0x80, 0x7f],
        cut: &[(2, 0, 1, false)],
        want: &[0xff, 0xff, 0xff, 0x80, 0x00, 0x00, 0x00, 0x7f],
    },
    Row {
        lists: Lists {
            out: Some(Int8),
            ..WHOLE
        },
        kind: UInt8,
        dims: &[(2, 0, 1, false)],
        input: &[0xff, 0x80],
        cut: &[(2, 0, 1, false)],
        want: &[0xff, 0x80],
    },
    Row {
        lists: Lists {
            out: Some(UInt8),
            ..WHOLE
        },
        kind: UInt8,
        dims: &[(2, 0, 1, false)],
        input: &[0xff, 0x80],
        cut: &[(2, 0, 1, false)],
        want: &[0xff, 0x80],
    },
    Row {
        lists: Lists {
            out: Some(Int16),
            ..WHOLE
        },
        kind: UInt8,
        dims: &[(2, 0, 1, false)],
        input: &[0xff, 0x80],
        cut: &[(2, 0, 1, false)],
        want: &[0x00, 0xff, 0x00, 0x80],
    },
    Row {
        lists: Lists {
            out: Some(UInt16),
            ..WHOLE
        },
        kind: UInt8,
        dims: &[(2, 0, 1, false)],
        input: &[0xff, 0x80],
        cut: &[(2, 0, 1, false)],
        want: &[0x00, 0xff, 0x00, 0x80],
    },
    Row {
        lists: Lists {
            out: Some(Int32),
            ..WHOLE
        },
        kind: UInt8,
        dims: &[(2, 0, 1, false)],
        input: &[0xff, 0x80],
        cut: &[(2, 0, 1, false)],
        want: &[0x00, 0x00, 0x00, 0xff, 0x00, 0x00, 0x00, 0x80],
    },
    Row {
        lists: Lists {
            out: Some(UInt32),
            ..WHOLE
        },
        kind: UInt8,
        dims: &[(2, 0, 1, false)],
        input: &[0xff, 0x80],
        cut: &[(2, 0, 1, false)],
        want: &[0x00, 0x00, 0x00, 0xff, 0x00, 0x00, 0x00, 0x80],
    },
    Row {
        lists: Lists {
            out: Some(Int8),
            ..WHOLE
        },
        kind: Int16,
        dims: &[(2, 0, 1, false)],
        input: &[0x80, 0x00, 0x7f, 0xff],
        cut: &[(2, 0, 1, false)],
        want: &[0x00, 0xff],
    },
    Row {
        lists: Lists {
            out: Some(UInt8),
            ..WHOLE
        },
        kind: Int16,
        dims: &[(2, 0, 1, false)],
        input: &[0x80, 0x00, 0x7f, 0xff],
        cut: &[(2, 0, 1, false)],
        want: &[0x00, 0xff],
    },
    Row {
        lists: Lists {
            out: Some(Int16),
            ..WHOLE
        },
        kind: Int16,
        dims: &[(2, 0, 1, false)],
        input: &[0x80, 0x00, 0x7f, 0xff],
        cut: &[(2, 0, 1, false)],
        want: &[0x80, 0x00, 0x7f, 0xff],
    },
    Row {
        lists: Lists {
            out: Some(UInt16),
            ..WHOLE
        },
        kind: Int16,
        dims: &[(2, 0, 1, false)],
        input: &[0x80, 0x00, 0x7f, 0xff],
        cut: &[(2, 0, 1, false)],
        want: &[0x80, 0x00, 0x7f, 0xff],
    },
    Row {
        lists: Lists {
            out: Some(Int32),
            ..WHOLE
        },
        kind: Int16,
        dims: &[(2, 0, 1, false)],
        input: &[0x80, 0x00, 0x7f, 0xff],
        cut: &[(2, 0, 1, false)],
        want: &[0xff, 0xff, 0x80, 0x00, 0x00, 0x00, 0x7f, 0xff],
    },
    Row {
        lists: Lists {
            out: Some(UInt32),
            ..WHOLE
        },
        kind: Int16,
        dims: &[(2, 0, 1, false)],
        input: &[0x80, 0x00, 0x7f, 0xff],
        cut: &[(2, 0, 1, false)],
        want: &[0xff, 0xff, 0x80, 0x00, 0x00, 0x00, 0x7f, 0xff],
    },
    Row {
        lists: Lists {
            out: Some(Int8),
            ..WHOLE
        },
        kind: UInt16,
        dims: &[(2, 0, 1, false)],
        input: &[0xff, 0xff, 0x80, 0x00],
        cut: &[(2, 0, 1, false)],
        want: &[0xff, 0x00],
    },
    Row {
        lists: Lists {
            out: Some(UInt8),
            ..WHOLE
        },
        kind: UInt16,
        dims: &[(2, 0, 1, false)],
        input: &[0xff, 0xff, 0x80, 0x00],
        cut: &[(2, 0, 1, false)],
        want: &[0xff, 0x00],
    },
    Row {
        lists: Lists {
            out: Some(Int16),
            ..WHOLE
        },
        kind: UInt16,
        dims: &[(2, 0, 1, false)],
        input: &[0xff, 0xff, 0x80, 0x00],
        cut: &[(2, 0, 1, false)],
        want: &[0xff, 0xff, 0x80, 0x00],
    },
    Row {
        lists: Lists {
            out: Some(UInt16),
            ..WHOLE
        },
        kind: UInt16,
        dims: &[(2, 0, 1, false)],
        input: &[0xff, 0xff, 0x80, 0x00],
        cut: &[(2, 0, 1, false)],
        want: &[0xff, 0xff, 0x80, 0x00],
    },
    Row {
        lists: Lists {
            out: Some(Int32),
            ..WHOLE
        },
        kind: UInt16,
        dims: &[(2, 0, 1, false)],
        input: &[0xff, 0xff, 0x80, 0x00],
        cut: &[(2, 0, 1, false)],
        want: &[0x00, 0x00, 0xff, 0xff, 0x00, 0x00, 0x80, 0x00],
    },
    Row {
        lists: Lists {
            out: Some(UInt32),
            ..WHOLE
        },
        kind: UInt16,
        dims: &[(2, 0, 1, false)],
        input: &[0xff, 0xff, 0x80, 0x00],
        cut: &[(2, 0, 1, false)],
        want: &[0x00, 0x00, 0xff, 0xff, 0x00, 0x00, 0x80, 0x00],
    },
    Row {
        lists: Lists {
            out: Some(Int8),
            ..WHOLE
        },
        kind: Int32,
        dims: &[(2, 0, 1, false)],
        input: &[0x80, 0x00, 0x00, 0x00, 0x7f, 0xff, 0xff, 0xff],
        cut: &[(2, 0, 1, false)],
        want: &[0x00, 0xff],
    },
    Row {
        lists: Lists {
            out: Some(UInt8),
            ..WHOLE
        },
        kind: Int32,
        dims: &[(2, 0, 1, false)],
        input: &[0x80, 0x00, 0x00, 0x00, 0x7f, 0xff, 0xff, 0xff],
        cut: &[(2, 0, 1, false)],
        want: &[0x00, 0xff],
    },
    Row {
        lists: Lists {
            out: Some(Int16),
            ..WHOLE
        },
        kind: Int32,
        dims: &[(2, 0, 1, false)],
        input: &[0x80, 0x00, 0x00, 0x00, 0x7f, 0xff, 0xff, 0xff],
        cut: &[(2, 0, 1, false)],
        want: &[0x00, 0x00, 0xff, 0xff],
    },
    Row {
        lists: Lists {
            out: Some(UInt16),
            ..WHOLE
        },
        kind: Int32,
        dims: &[(2, 0, 1, false)],
        input: &[0x80, 0x00, 0x00, 0x00, 0x7f, 0xff, 0xff, 0xff],
        cut: &[(2, 0, 1, false)],
        want: &[0x00, 0x00, 0xff, 0xff],
    },
    Row {
        lists: Lists {
            out: Some(Int32),
            ..WHOLE
        },
        kind: Int32,
        dims: &[(2, 0, 1, false)],
        input: &[0x80, 0x00, 0x00, 0x00, 0x7f, 0xff, 0xff, 0xff],
        cut: &[(2, 0, 1, false)],
        want: &[0x80, 0x00, 0x00, 0x00, 0x7f, 0xff, 0xff, 0xff],
    },
    Row {
        lists: Lists {
            out: Some(UInt32),
            ..WHOLE
        },
        kind: Int32,
        dims: &[(2, 0, 1, false)],
        input: &[0x80, 0x00, 0x00, 0x00, 0x7f, 0xff, 0xff, 0xff],
        cut: &[(2, 0, 1, false)],
        want: &[0x80, 0x00, 0x00, 0x00, 0x7f, 0xff, 0xff, 0xff],
    },
    Row {
        lists: Lists {
            out: Some(Int8),
            ..WHOLE
        },
        kind: UInt32,
        dims: &[(2, 0, 1, false)],
        input: &[0xff, 0xff, 0xff, 0xff, 0x80, 0x00, 0x00, 0x00],
        cut: &[(2, 0, 1, false)],
        want: &[0xff, 0x00],
    },
    Row {
        lists: Lists {
            out: Some(UInt8),
            ..WHOLE
        },
        kind: UInt32,
        dims: &[(2, 0, 1, false)],
        input: &[0xff, 0xff, 0xff, 0xff, 0x80, 0x00, 0x00, 0x00],
        cut: &[(2, 0, 1, false)],
        want: &[0xff, 0x00],
    },
    Row {
        lists: Lists {
            out: Some(Int16),
            ..WHOLE
        },
        kind: UInt32,
        dims: &[(2, 0, 1, false)],
        input: &[0xff, 0xff, 0xff, 0xff, 0x80, 0x00, 0x00, 0x00],
        cut: &[(2, 0, 1, false)],
        want: &[0xff, 0xff, 0x00, 0x00],
    },
    Row {
        lists: Lists {
            out: Some(UInt16),
            ..WHOLE
        },
        kind: UInt32,
        dims: &[(2, 0, 1, false)],
        input: &[0xff, 0xff, 0xff, 0xff, 0x80, 0x00, 0x00, 0x00],
        cut: &[(2, 0, 1, false)],
        want: &[0xff, 0xff, 0x00, 0x00],
    },
    Row {
        lists: Lists {
            out: Some(Int32),
            ..WHOLE
        },
        kind: UInt32,
        dims: &[(2, 0, 1, false)],
        input: &[0xff, 0xff, 0xff, 0xff, 0x80, 0x00, 0x00, 0x00],
        cut: &[(2, 0, 1, false)],
        want: &[0xff, 0xff, 0xff, 0xff, 0x80, 0x00, 0x00, 0x00],
    },
    Row {
        lists: Lists {
            out: Some(UInt32),
            ..WHOLE
        },
        kind: UInt32,
        dims: &[(2, 0, 1, false)],
        input: &[0xff, 0xff, 0xff, 0xff, 0x80, 0x00, 0x00, 0x00],
        cut: &[(2, 0, 1, false)],
        want: &[0xff, 0xff, 0xff, 0xff, 0x80, 0x00, 0x00, 0x00],
    },
];

#[test]
fn regions_are_as_in_the_tables(rt: HostRuntime) -> Result<(), Fail> {
    assert!(rt; are_as_said(rt.alloc(), ONE_TO_EIGHT)?, "samples 1 to 8");
    assert!(rt; are_as_said(rt.alloc(), SUMS_OF_FOUR)?, "sums of four");
    assert!(rt;
        are_as_said(rt.alloc(), REVERSED)?,
        "each of three dimensions reversed in turn"
    );
    assert!(rt;
        are_as_said(rt.alloc(), FAR_AND_DEEP)?,
        "far offsets, and ten dimensions"
    );
    assert!(rt; are_as_said(rt.alloc(), TYPES)?, "each type into each");
    Ok(())
}

/// So many bytes of this value.
fn filled(alloc: Global, count: usize, value: u8) -> Result<Vec<u8>, AllocError> {
    let mut bytes = Vec::new(alloc);
    for _ in 0..count {
        bytes.push(value)?;
    }
    Ok(bytes)
}

const PART: Lists = Lists {
    min: &[100, 50],
    size: &[200, 100],
    bin: &[2, 2],
    out: Some(UInt16),
    ..WHOLE
};

const FRAME: &[Side] = &[(640, 0, 1, false), (480, 0, 1, false)];

const PART_DIMS: &[Side] = &[(100, 100, 2, false), (50, 50, 2, false)];
