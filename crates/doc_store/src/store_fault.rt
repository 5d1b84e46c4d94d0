//! Why a file could not be read as a store.

ghost use Rattle.std.specs.Prelude.{◌≡◌};
ghost use Rattle.doc_store.specs.declared.store_fault.StoreFault.TheVariants.{Memory};

use crate::Fault;
use mdoc_outside as outside;

/// Why a file could not be read as a store.
#[derive(Clone, Copy, Debug, PartialEq, Eq)]
pub enum StoreFault {
    /// The file is outside the form, and this is its first fault in byte order.
    Form(Fault),
    /// Want of memory.
    Memory,
}

impl From<outside::Memory> for StoreFault {
    ghost from_gives = { λ _ e. e ≡ Memory };

    fn from(_: outside::Memory) -> Self {
        StoreFault::Memory
    }
}
