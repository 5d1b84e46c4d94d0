//! Why a roots file could not be read.

ghost use Rattle.std.specs.Prelude.{◌≡◌};
ghost use Rattle.cert_view.specs.declared.roots_fault.RootsFault.TheVariants.{Memory};

use mdoc_outside as outside;
use std::alloc::{AllocError, AllocFailed};

/// Why a roots file could not be read.
#[derive(Clone, Copy, Debug, PartialEq, Eq)]
pub enum RootsFault {
    /// The first line outside the grammar, from 1.
    Line(u64),
    /// More roots than a file may list, with the number that is one too many.
    TooMany(u64),
    /// Want of memory.
    Memory,
}

impl From<AllocError> for RootsFault {
    ghost from_gives = { λ _ e. e ≡ Memory };

    fn from(_: AllocError) -> Self {
        RootsFault::Memory
    }
}

impl<T: Drop> From<AllocFailed<T>> for RootsFault {
    ghost from_gives = { λ _ e. e ≡ Memory };

    fn from(_: AllocFailed<T>) -> Self {
        RootsFault::Memory
    }
}

impl From<outside::Memory> for RootsFault {
    ghost from_gives = { λ _ e. e ≡ Memory };

    fn from(_: outside::Memory) -> Self {
        RootsFault::Memory
    }
}
