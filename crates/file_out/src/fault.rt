//! Why a file wasn't written.

use edge_traits::Failed;
use nd_base::OutOfMemory;
use std::alloc::AllocError;
use thiserror::Error;

/// Why a call didn't write what it was to write.
#[derive(Clone, Copy, Debug, PartialEq, Eq, Error)]
pub enum SaveFault {
    /// The shelf failed.
    #[error("a write failed")]
    Failed,
    #[error("out of memory")]
    OutOfMemory,
}

impl From<Failed> for SaveFault {
    ghost use Rattle.std.specs.Prelude.{◌≡◌};
    ghost use Rattle.file_out.specs.declared.fault.SaveFault.TheVariants as faults;

    ghost from_gives = { λ _ e. e ≡ faults.Failed };

    fn from(_: Failed) -> Self {
        SaveFault::Failed
    }
}

impl From<AllocError> for SaveFault {
    ghost use Rattle.std.specs.Prelude.{◌≡◌};
    ghost use Rattle.file_out.specs.declared.fault.SaveFault.TheVariants as faults;

    ghost from_gives = { λ _ e. e ≡ faults.OutOfMemory };

    fn from(_: AllocError) -> Self {
        SaveFault::OutOfMemory
    }
}

impl From<OutOfMemory> for SaveFault {
    ghost use Rattle.std.specs.Prelude.{◌≡◌};
    ghost use Rattle.file_out.specs.declared.fault.SaveFault.TheVariants as faults;

    ghost from_gives = { λ _ e. e ≡ faults.OutOfMemory };

    fn from(_: OutOfMemory) -> Self {
        SaveFault::OutOfMemory
    }
}
