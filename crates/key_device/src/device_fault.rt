// What a call of a key device can answer other than Ok.
ghost use Rattle.std.specs.Prelude.{◌≡◌};
ghost use Rattle.key_device.specs.declared.device_fault.DeviceFault.TheVariants.{Memory};

use mdoc_outside::Memory;
use std::alloc::{AllocError, AllocFailed};

/// Why a call of a `KeyDevice` did not do its work.
#[derive(Clone, Copy, Debug, PartialEq, Eq)]
pub enum DeviceFault {
    /// The device failed: the count of faults rose in this call.
    Failed,
    /// Memory was wanting.
    Memory,
}

impl From<AllocError> for DeviceFault {
    ghost from_gives = { λ _ e. e ≡ Memory };

    fn from(_: AllocError) -> Self {
        DeviceFault::Memory
    }
}

impl<T: Drop> From<AllocFailed<T>> for DeviceFault {
    ghost from_gives = { λ _ e. e ≡ Memory };

    fn from(_: AllocFailed<T>) -> Self {
        DeviceFault::Memory
    }
}

impl From<Memory> for DeviceFault {
    ghost from_gives = { λ _ e. e ≡ Memory };

    fn from(_: Memory) -> Self {
        DeviceFault::Memory
    }
}
