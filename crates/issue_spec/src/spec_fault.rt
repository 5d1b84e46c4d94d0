//! Why a spec file could not be read.

ghost use Rattle.std.specs.Prelude.{◌≡◌};
ghost use Rattle.issue_spec.specs.declared.spec_fault.SpecFault.TheVariants.{Memory};

use crate::spec_check::SpecCheck;
use mdoc_outside as outside;
use std::alloc::{AllocError, AllocFailed};

/// Why a spec file could not be read.
#[derive(Clone, Copy, Debug, PartialEq, Eq)]
pub enum SpecFault {
    /// The first check that fails, and the line where it does, from 1; 0 for a check of the whole file.
    Form(SpecCheck, u64),
    /// Want of memory.
    Memory,
}

impl From<AllocError> for SpecFault {
    ghost from_gives = { λ _ e. e ≡ Memory };

    fn from(_: AllocError) -> Self {
        SpecFault::Memory
    }
}

impl<T: Drop> From<AllocFailed<T>> for SpecFault {
    ghost from_gives = { λ _ e. e ≡ Memory };

    fn from(_: AllocFailed<T>) -> Self {
        SpecFault::Memory
    }
}

impl From<outside::Memory> for SpecFault {
    ghost from_gives = { λ _ e. e ≡ Memory };

    fn from(_: outside::Memory) -> Self {
        SpecFault::Memory
    }
}
