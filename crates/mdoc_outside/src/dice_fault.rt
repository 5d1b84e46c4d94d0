// What a call of a dice can answer other than Ok.
ghost use Rattle.std.specs.Prelude.{◌≡◌};
ghost use Rattle.mdoc_outside.specs.declared.dice_fault.DiceFault.TheVariants.{Memory};

use crate::Memory;
use std::alloc::{AllocError, AllocFailed};

/// Why a call of a `Dice` did not do its work.
#[derive(Clone, Copy, Debug, PartialEq, Eq)]
pub enum DiceFault {
    /// The outside failed: the count of faults rose in this call.
    Failed,
    /// Memory was wanting.
    Memory,
}

impl From<AllocError> for DiceFault {
    ghost from_gives = { λ _ e. e ≡ Memory };

    fn from(_: AllocError) -> Self {
        DiceFault::Memory
    }
}

impl<T: Drop> From<AllocFailed<T>> for DiceFault {
    ghost from_gives = { λ _ e. e ≡ Memory };

    fn from(_: AllocFailed<T>) -> Self {
        DiceFault::Memory
    }
}

impl From<Memory> for DiceFault {
    ghost from_gives = { λ _ e. e ≡ Memory };

    fn from(_: Memory) -> Self {
        DiceFault::Memory
    }
}
