//! Why nothing was started.

ghost use Rattle.std.specs.Prelude.{◌≡◌};
ghost use Rattle.wallet_core.specs.declared.start_fault.StartFault.TheVariants as faults;

use key_device::DeviceFault;
use mdoc_outside::DiceFault;

/// Why a wallet's session wasn't started.
#[derive(Clone, Copy, Debug, PartialEq, Eq)]
pub enum StartFault {
    /// The key device failed: its count of faults rose in this call.
    Device,
    /// The dice failed: their count of faults rose in this call.
    Dice,
    /// Memory was wanting.
    Memory,
}

impl From<DeviceFault> for StartFault {
    ghost use Rattle.key_device.specs.Ends.{of_device};

    ghost from_gives = { λ f e. e ≡ of_device faults.Device faults.Memory f };

    fn from(fault: DeviceFault) -> Self {
        match fault {
            DeviceFault::Failed => StartFault::Device,
            DeviceFault::Memory => StartFault::Memory,
        }
    }
}

impl From<DiceFault> for StartFault {
    ghost use Rattle.key_device.specs.Ends.{of_dice};

    ghost from_gives = { λ f e. e ≡ of_dice faults.Dice faults.Memory f };

    fn from(fault: DiceFault) -> Self {
        match fault {
            DiceFault::Failed => StartFault::Dice,
            DiceFault::Memory => StartFault::Memory,
        }
    }
}
