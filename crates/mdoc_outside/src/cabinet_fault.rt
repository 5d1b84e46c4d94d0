// What a call of a cabinet can answer other than Ok.
ghost use Rattle.std.specs.Prelude.{◌≡◌};
ghost use Rattle.mdoc_outside.specs.declared.cabinet_fault.CabinetFault.TheVariants.{Memory};

use crate::Memory;
use std::alloc::{AllocError, AllocFailed};

/// Why a call of a `Cabinet` did not do its work.
#[derive(Clone, Copy, Debug, PartialEq, Eq)]
pub enum CabinetFault {
    /// The outside failed: the count of faults rose in this call.
    Failed,
    /// Memory was wanting.
    Memory,
}

impl From<AllocError> for CabinetFault {
    ghost from_gives = { λ _ e. e ≡ Memory };

    fn from(_: AllocError) -> Self {
        CabinetFault::Memory
    }
}

impl<T: Drop> From<AllocFailed<T>> for CabinetFault {
    ghost from_gives = { λ _ e. e ≡ Memory };

    fn from(_: AllocFailed<T>) -> Self {
        CabinetFault::Memory
    }
}

impl From<Memory> for CabinetFault {
    ghost from_gives = { λ _ e. e ≡ Memory };

    fn from(_: Memory) -> Self {
        CabinetFault::Memory
    }
}
