// Why a line file could not be read.
ghost use Rattle.std.specs.Prelude.{◌≡◌};
ghost use Rattle.mdoc_frame.specs.declared.file_fault.FileFault.TheVariants.{Memory};

use mdoc_outside as outside;
use mdoc_outside::LimitName;
use std::alloc::{AllocError, AllocFailed};

/// Why a line file could not be read.
#[derive(Clone, Copy, Debug, PartialEq, Eq)]
pub enum FileFault {
    /// The first line outside the grammar, from 1.
    Line(u64),
    /// A limit that is exceeded, with the number that exceeds it.
    Limit(LimitName, u64),
    /// Want of memory.
    Memory,
}

impl From<AllocError> for FileFault {
    ghost from_gives = { λ _ e. e ≡ Memory };

    fn from(_: AllocError) -> Self {
        FileFault::Memory
    }
}

impl<T: Drop> From<AllocFailed<T>> for FileFault {
    ghost from_gives = { λ _ e. e ≡ Memory };

    fn from(_: AllocFailed<T>) -> Self {
        FileFault::Memory
    }
}

impl From<outside::Memory> for FileFault {
    ghost from_gives = { λ _ e. e ≡ Memory };

    fn from(_: outside::Memory) -> Self {
        FileFault::Memory
    }
}
