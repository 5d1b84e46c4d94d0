//! Why a package isn't imported.

ghost use Rattle.std.specs.Prelude.{◌≡◌};
ghost use Rattle.package_import.specs.declared.import_fault.ImportFault.TheVariants as faults;

use mdoc_outside as outside;
use mdoc_outside::LimitName;

/// Why a package isn't imported, though none of its documents is refused.
#[derive(Clone, Copy, Debug, PartialEq, Eq)]
pub enum ImportFault {
    /// The reader's key device failed to answer.
    Device,
    /// The merged store has so many documents, more than 16, or so many bytes, more than 16,777,216.
    Limit(LimitName, u64),
    /// Want of memory.
    Memory,
}

impl From<outside::Memory> for ImportFault {
    ghost from_gives = { λ _ e. e ≡ faults.Memory };

    fn from(_: outside::Memory) -> Self {
        ImportFault::Memory
    }
}
