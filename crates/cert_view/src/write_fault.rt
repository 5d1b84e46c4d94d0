//! What the writing of a certificate can answer other than Ok.

ghost use Rattle.std.specs.Prelude.{◌≡◌};
ghost use Rattle.cert_view.specs.declared.write_fault.WriteFault.TheVariants.{Memory};

use mdoc_outside::Memory;
use std::alloc::{AllocError, AllocFailed};

/// Why a certificate was not written.
#[derive(Clone, Copy, Debug, PartialEq, Eq)]
pub enum WriteFault {
    /// The key device failed: its count of faults rose in this call.
    Device,
    /// Memory was wanting.
    Memory,
}

impl From<AllocError> for WriteFault {
    ghost from_gives = { λ _ e. e ≡ Memory };

    fn from(_: AllocError) -> Self {
        WriteFault::Memory
    }
}

impl<T: Drop> From<AllocFailed<T>> for WriteFault {
    ghost from_gives = { λ _ e. e ≡ Memory };

    fn from(_: AllocFailed<T>) -> Self {
        WriteFault::Memory
    }
}

impl From<Memory> for WriteFault {
    ghost from_gives = { λ _ e. e ≡ Memory };

    fn from(_: Memory) -> Self {
        WriteFault::Memory
    }
}
