// What a call of a sink can answer other than Ok.
ghost use Rattle.std.specs.Prelude.{◌≡◌};
ghost use Rattle.mdoc_outside.specs.declared.sink_fault.SinkFault.TheVariants.{Memory};

use crate::Memory;
use std::alloc::{AllocError, AllocFailed};

/// Why a call of a `Sink` did not do its work.
#[derive(Clone, Copy, Debug, PartialEq, Eq)]
pub enum SinkFault {
    /// The outside failed: the count of faults rose in this call.
    Failed,
    /// Memory was wanting.
    Memory,
}

impl From<AllocError> for SinkFault {
    ghost from_gives = { λ _ e. e ≡ Memory };

    fn from(_: AllocError) -> Self {
        SinkFault::Memory
    }
}

impl<T: Drop> From<AllocFailed<T>> for SinkFault {
    ghost from_gives = { λ _ e. e ≡ Memory };

    fn from(_: AllocFailed<T>) -> Self {
        SinkFault::Memory
    }
}

impl From<Memory> for SinkFault {
    ghost from_gives = { λ _ e. e ≡ Memory };

    fn from(_: Memory) -> Self {
        SinkFault::Memory
    }
}
