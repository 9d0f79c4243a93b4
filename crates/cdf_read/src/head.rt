//! The header of a file: its dimensions, its attributes and its variables.

use nd_base::{Bytes, Name, Seq};

/// A dimension. Length 0 marks the record dimension.
#[derive(Clone, Debug, Drop)]
pub struct HeadDim {
    pub name: Name,
    pub length: u32,
}

/// An attribute: the number of its value type (1 to 6), how many values it has, and their bytes without
/// padding.
#[derive(Clone, Debug, Drop)]
pub struct HeadAttr {
    pub name: Name,
    pub kind: u32,
    pub count: u32,
    pub values: Bytes,
}

/// A variable: the numbers of its dimensions, the slowest first, the number of its value type (1 to 6),
/// and the place of its first value.
#[derive(Clone, Debug, Drop)]
pub struct HeadVar {
    pub name: Name,
    pub dims: Seq<u32>,
    pub attrs: Seq<HeadAttr>,
    pub kind: u32,
    pub begin: u64,
}

/// The header of a file, with the number of its records and the bytes of one record.
#[derive(Clone, Debug, Drop)]
pub struct Header {
    pub records: u64,
    pub recsize: u64,
    pub dims: Seq<HeadDim>,
    pub gatts: Seq<HeadAttr>,
    pub vars: Seq<HeadVar>,
}
