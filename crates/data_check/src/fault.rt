//! Why files weren't compared.

use edge_traits::Failed;
use nd_base::OutOfMemory;
use std::alloc::AllocError;
use thiserror::Error;

/// Why files weren't compared.
#[derive(Clone, Copy, Debug, PartialEq, Eq, Error)]
pub enum CompareFault {
    /// The library failed: a file isn't there or can't be read.
    #[error("a read failed")]
    Failed,
    #[error("out of memory")]
    OutOfMemory,
}

impl From<Failed> for CompareFault {
    ghost use Rattle.std.specs.Prelude.{◌≡◌};
    ghost use Rattle.data_check.specs.declared.fault.CompareFault.TheVariants as faults;

    ghost from_gives = { λ _ e. e ≡ faults.Failed };

    fn from(_: Failed) -> Self {
        CompareFault::Failed
    }
}

impl From<AllocError> for CompareFault {
    ghost use Rattle.std.specs.Prelude.{◌≡◌};
    ghost use Rattle.data_check.specs.declared.fault.CompareFault.TheVariants as faults;

    ghost from_gives = { λ _ e. e ≡ faults.OutOfMemory };

    fn from(_: AllocError) -> Self {
        CompareFault::OutOfMemory
    }
}

impl From<OutOfMemory> for CompareFault {
    ghost use Rattle.std.specs.Prelude.{◌≡◌};
    ghost use Rattle.data_check.specs.declared.fault.CompareFault.TheVariants as faults;

    ghost from_gives = { λ _ e. e ≡ faults.OutOfMemory };

    fn from(_: OutOfMemory) -> Self {
        CompareFault::OutOfMemory
    }
}
