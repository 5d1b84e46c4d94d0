//! Why a rules file could not be read.

ghost use Rattle.std.specs.Prelude.{◌≡◌};
ghost use Rattle.consent.specs.declared.rule_fault.RuleFault.TheVariants.{Memory};

use mdoc_outside as outside;
use std::alloc::{AllocError, AllocFailed};

/// Why a rules file could not be read.
#[derive(Clone, Copy, Debug, PartialEq, Eq)]
pub enum RuleFault {
    /// The first line outside the grammar, from 1.
    Line(u64),
    /// Want of memory.
    Memory,
}

impl From<AllocError> for RuleFault {
    ghost from_gives = { λ _ e. e ≡ Memory };

    fn from(_: AllocError) -> Self {
        RuleFault::Memory
    }
}

impl<T: Drop> From<AllocFailed<T>> for RuleFault {
    ghost from_gives = { λ _ e. e ≡ Memory };

    fn from(_: AllocFailed<T>) -> Self {
        RuleFault::Memory
    }
}

impl From<outside::Memory> for RuleFault {
    ghost from_gives = { λ _ e. e ≡ Memory };

    fn from(_: outside::Memory) -> Self {
        RuleFault::Memory
    }
}
