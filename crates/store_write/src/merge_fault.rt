//! Why a package isn't merged into a store.

ghost use Rattle.std.specs.Prelude.{◌≡◌};
ghost use Rattle.store_write.specs.declared.merge_fault.MergeFault.TheVariants.{Memory};

use mdoc_outside as outside;

/// Why a package isn't merged into a store.
#[derive(Clone, Copy, Debug, PartialEq, Eq)]
pub enum MergeFault {
    /// The merged store has so many documents, more than 16.
    Documents(u64),
    /// The merged store has so many bytes, more than 16,777,216.
    Bytes(u64),
    /// Want of memory.
    Memory,
}

impl From<outside::Memory> for MergeFault {
    ghost from_gives = { λ _ e. e ≡ Memory };

    fn from(_: outside::Memory) -> Self {
        MergeFault::Memory
    }
}
