//! Why the checks of a document end.

ghost use Rattle.std.specs.Prelude.{◌≡◌};
ghost use Rattle.issuer_checks.specs.declared.check_end.CheckEnd.TheVariants as stops;

use mdoc_outside::Memory;
use verdict_model::DocCheck;

/// Why the checks of a document end before the last of them.
#[derive(Clone, Copy)]
pub enum CheckEnd {
    /// A check fails.
    Refused(DocCheck),
    /// The reader's key device failed to answer.
    Device,
    /// Memory was wanting.
    Memory,
}

impl From<Memory> for CheckEnd {
    ghost from_gives = { λ _ e. e ≡ stops.Memory };

    fn from(_: Memory) -> Self {
        CheckEnd::Memory
    }
}
