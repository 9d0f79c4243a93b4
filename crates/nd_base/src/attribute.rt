//! Attributes of frames, and what the frames of one file have in common.

use crate::{Bytes, Dim, Form, Name, SampleType, Seq};

/// The value of an attribute. Floating-point numbers pass as their bits.
#[derive(Clone, Debug, Drop)]
pub enum AttrValue {
    Whole(i32),
    Text(Bytes),
    Bits64(u64),
    Bits32(u32),
}

/// A named value of one frame.
#[derive(Clone, Debug, Drop)]
pub struct Attr {
    pub name: Name,
    pub value: AttrValue,
}

/// Which variant of `AttrValue` an attribute has in every frame of a file.
#[derive(Clone, Copy, Debug, PartialEq, Eq)]
pub enum AttrKind {
    WholeKind,
    TextKind,
    Bits64Kind,
    Bits32Kind,
}

/// An attribute that each frame of a file has.
#[derive(Clone, Debug, Drop)]
pub struct AttrColumn {
    pub name: Name,
    pub kind: AttrKind,
}

/// A global attribute of a file that is handed on as it is: its name, the number of its netCDF type
/// (1 to 6) and the bytes of its values, without padding.
#[derive(Clone, Debug, Drop)]
pub struct Extra {
    pub name: Name,
    pub kind: u32,
    pub values: Bytes,
}

/// What all frames of a file share: the form of the file, sample type, dimensions (dimension 0 is the fastest), the
/// attributes in their order, the room of a text in bytes, and the global attributes that are handed on.
#[derive(Clone, Debug, Drop)]
pub struct FileShape {
    pub form: Form,
    pub kind: SampleType,
    pub dims: Seq<Dim>,
    pub attrs: Seq<AttrColumn>,
    pub width: u32,
    pub extras: Seq<Extra>,
}
