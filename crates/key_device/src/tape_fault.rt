// Why a tape file was not read.
ghost use Rattle.std.specs.Prelude.{◌≡◌};
ghost use Rattle.key_device.specs.declared.tape_fault.TapeFault.TheVariants.{Memory};

use mdoc_outside::Memory;
use std::alloc::{AllocError, AllocFailed};

/// Why a tape file was not read.
#[derive(Clone, Copy, Debug, PartialEq, Eq)]
pub enum TapeFault {
    /// The number, from 1, of the first line outside the grammar.
    Line(u64),
    /// Memory was wanting.
    Memory,
}

impl From<AllocError> for TapeFault {
    ghost from_gives = { λ _ e. e ≡ Memory };

    fn from(_: AllocError) -> Self {
        TapeFault::Memory
    }
}

impl<T: Drop> From<AllocFailed<T>> for TapeFault {
    ghost from_gives = { λ _ e. e ≡ Memory };

    fn from(_: AllocFailed<T>) -> Self {
        TapeFault::Memory
    }
}

impl From<Memory> for TapeFault {
    ghost from_gives = { λ _ e. e ≡ Memory };

    fn from(_: Memory) -> Self {
        TapeFault::Memory
    }
}
