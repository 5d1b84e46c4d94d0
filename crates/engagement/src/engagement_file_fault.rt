// Why an engagement file could not be read.

ghost use Rattle.std.specs.Prelude.{◌≡◌};
ghost use Rattle.engagement.specs.declared.engagement_file_fault.EngagementFileFault.TheVariants.{Memory};

use mdoc_outside as outside;

/// Why an engagement file could not be read.
#[derive(Clone, Copy, Debug, PartialEq, Eq)]
pub enum EngagementFileFault {
    /// The first line that breaks the form, from 1.
    Line(u64),
    /// Want of memory.
    Memory,
}

impl From<outside::Memory> for EngagementFileFault {
    ghost from_gives = { λ _ e. e ≡ Memory };

    fn from(_: outside::Memory) -> Self {
        EngagementFileFault::Memory
    }
}
