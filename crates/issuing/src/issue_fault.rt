//! Why nothing was issued.

ghost use Rattle.std.specs.Prelude.{◌≡◌};
ghost use Rattle.issuing.specs.declared.issue_fault.IssueFault.TheVariants as faults;

use key_device::DeviceFault;
use mdoc_outside::{DiceFault, LimitName, Memory};
use std::alloc::{AllocError, AllocFailed};

/// Why nothing was issued.
#[derive(Clone, Copy, Debug, PartialEq, Eq)]
pub enum IssueFault {
    /// A key device failed: its count of faults rose in this call.
    Device,
    /// The dice failed: their count of faults rose in this call.
    Dice,
    /// This limit is exceeded, by this number.
    Limit(LimitName, u64),
    /// Memory was wanting.
    Memory,
}

impl From<AllocError> for IssueFault {
    ghost from_gives = { λ _ e. e ≡ faults.Memory };

    fn from(_: AllocError) -> Self {
        IssueFault::Memory
    }
}

impl<T: Drop> From<AllocFailed<T>> for IssueFault {
    ghost from_gives = { λ _ e. e ≡ faults.Memory };

    fn from(_: AllocFailed<T>) -> Self {
        IssueFault::Memory
    }
}

impl From<Memory> for IssueFault {
    ghost from_gives = { λ _ e. e ≡ faults.Memory };

    fn from(_: Memory) -> Self {
        IssueFault::Memory
    }
}

impl From<DeviceFault> for IssueFault {
    ghost use Rattle.key_device.specs.Ends.{of_device};

    ghost from_gives = { λ f e. e ≡ of_device faults.Device faults.Memory f };

    fn from(fault: DeviceFault) -> Self {
        match fault {
            DeviceFault::Failed => IssueFault::Device,
            DeviceFault::Memory => IssueFault::Memory,
        }
    }
}

impl From<DiceFault> for IssueFault {
    ghost use Rattle.key_device.specs.Ends.{of_dice};

    ghost from_gives = { λ f e. e ≡ of_dice faults.Dice faults.Memory f };

    fn from(fault: DiceFault) -> Self {
        match fault {
            DiceFault::Failed => IssueFault::Dice,
            DiceFault::Memory => IssueFault::Memory,
        }
    }
}
