//! What is wrong with a file.

ghost use Rattle.std.specs.Prelude.{◌≡◌};
ghost use Rattle.cdf_read.specs.declared.fault.CdfFault.TheVariants.{OutOfMemory};

use std::alloc::{AllocError, AllocFailed};
use thiserror::Error;

/// The first fault of a header, from the left. `at` is the first place of the field at fault, in bytes
/// from the beginning of the file, and `var` the number of a variable from 0.
#[derive(Clone, Copy, Debug, PartialEq, Eq, Error)]
pub enum CdfFault {
    /// The first four bytes are neither those of CDF-1 nor those of CDF-2.
    #[error("no netCDF classic file")]
    Magic,
    /// Fewer bytes are left than the field has: a word, a begin of eight bytes, a name or an attribute's
    /// values with padding.
    #[error("the file ends within the field at {at}")]
    Short { at: u64 },
    /// The tag is neither the list's own nor that of an absent list.
    #[error("no list begins at {at}")]
    Tag { at: u64 },
    /// A number of records, a count, a length, a rank or a begin of four bytes is above 2,147,483,647, or
    /// a begin of eight bytes is above 9,223,372,036,854,775,807.
    #[error("the number at {at} is negative")]
    Negative { at: u64 },
    /// A name isn't UTF-8; `at` is the place of its first byte.
    #[error("the name at {at} isn't UTF-8")]
    NameText { at: u64 },
    /// A name has no byte, or more than 1,024.
    #[error("the name's length at {at} isn't 1 to 1024")]
    NameLength { at: u64 },
    /// There is no dimension of this number.
    #[error("no dimension has the number at {at}")]
    DimNumber { at: u64 },
    /// A second dimension has length 0.
    #[error("a second record dimension")]
    TwoRecordDims,
    /// A value type isn't 1 to 6.
    #[error("no value type at {at}")]
    ValueType { at: u64 },
    /// A dimension of the variable other than its first is the record dimension.
    #[error("variable {var} has the record dimension in another place than the first")]
    RecordDimNotFirst { var: u32 },
    /// The variable, or one record of it, has more than 4,294,967,296 bytes.
    #[error("variable {var} is too large")]
    Overflow { var: u32 },
    /// The last value of the variable ends after the end of the file.
    #[error("the file ends within the values of variable {var}")]
    DataShort { var: u32 },
    #[error("out of memory")]
    OutOfMemory,
}

impl From<AllocError> for CdfFault {
    ghost from_gives = { λ _ e. e ≡ OutOfMemory };

    fn from(_: AllocError) -> Self {
        CdfFault::OutOfMemory
    }
}

impl<T: Drop> From<AllocFailed<T>> for CdfFault {
    ghost from_gives = { λ _ e. e ≡ OutOfMemory };

    fn from(_: AllocFailed<T>) -> Self {
        CdfFault::OutOfMemory
    }
}
