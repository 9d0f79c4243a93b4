//! The forms of a netCDF classic file.

ghost use Rattle.std.specs.Prelude.{◌≡◌};
ghost use Rattle.nd_base.specs.Forms.{longest_of};

/// The form of a netCDF classic file: how many bytes the place of a variable's first value takes in its
/// header (NetCDF Classic Format Specification, 'offset').
#[derive(Clone, Copy, Debug, PartialEq, Eq)]
pub enum Form {
    /// Four bytes: CDF-1.
    Classic,
    /// Eight bytes: CDF-2, the 64-bit offset format.
    Wide,
}

/// The most bytes of a file of form `Classic` that is written.
pub const LONGEST_CLASSIC: u64 = 2_147_483_647;

/// The most bytes of a file of form `Wide` that is written.
pub const LONGEST_WIDE: u64 = 8_589_934_592;

impl Form {
    ghost use Rattle.nd_base.specs.Forms.{longest_of};

    /// The length in bytes of the longest file of this form that is written.
    pub fn longest(self) -> u64
        ensures { result ≡ longest_of self }
    {
        match self {
            Form::Classic => LONGEST_CLASSIC,
            Form::Wide => LONGEST_WIDE,
        }
    }
}
