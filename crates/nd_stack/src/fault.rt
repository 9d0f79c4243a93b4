//! Why a file is no stack.

ghost use Rattle.std.specs.Prelude.{◌≡◌};
ghost use Rattle.nd_stack.specs.declared.fault.StackFault.TheVariants as refusal;
ghost use Rattle.nd_stack.specs.Answers.{cdf_refusal};

use cdf_read::CdfFault;
use nd_base::OutOfMemory;
use thiserror::Error;

/// The first refusal of a file, in the order of the variants. `var` is the number of a variable from 0.
#[derive(Clone, Copy, Debug, PartialEq, Eq, Error)]
pub enum StackFault {
    /// The file has no header, or ends within its values.
    #[error("{0}")]
    Cdf(CdfFault),
    /// No variable is named `array_data`.
    #[error("no variable is named array_data")]
    NoArrayData,
    /// `dataType` isn't the number of a sample type that the values can have, or the values are no whole
    /// numbers: then it is the value type's number below 0.
    #[error("no sample type {0}")]
    SampleType(i32),
    /// `array_data` has fewer than 2 or more than 11 dimensions.
    #[error("array_data has {0} dimensions")]
    Rank(u32),
    /// There are more than 65,536 frames.
    #[error("{0} frames")]
    TooManyFrames(u64),
    /// One frame has more than 67,108,864 samples.
    #[error("{0} samples in one frame")]
    TooManySamples(u64),
    /// A per-frame variable hasn't one value of its type for each frame.
    #[error("variable {var} hasn't one value for each frame")]
    FrameCount { var: u32 },
    /// An attribute variable hasn't one value, or one text, for each frame.
    #[error("variable {var} hasn't one attribute for each frame")]
    AttrShape { var: u32 },
    #[error("out of memory")]
    OutOfMemory,
}

impl From<CdfFault> for StackFault {
    ghost from_gives = { λ fault e. e ≡ cdf_refusal fault };

    fn from(fault: CdfFault) -> Self {
        match fault {
            CdfFault::OutOfMemory => StackFault::OutOfMemory,
            fault => StackFault::Cdf(fault),
        }
    }
}

impl From<OutOfMemory> for StackFault {
    ghost from_gives = { λ _ e. e ≡ refusal.OutOfMemory };

    fn from(_: OutOfMemory) -> Self {
        StackFault::OutOfMemory
    }
}
