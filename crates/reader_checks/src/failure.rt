//! Why the checks of a copy end.

ghost use Rattle.std.specs.Prelude.{◌≡◌};
ghost use Rattle.reader_checks.specs.PackageEnding.{failure_of};

use issuer_checks::CheckEnd;
use verdict_model::{DocCheck, ElementCheck, Named};

/// Why the checks of a copy end before the last of them.
#[derive(Drop)]
pub(crate) enum Failure {
    /// A check of the copy fails.
    DocFails(DocCheck),
    /// A check of this item fails.
    ItemFails(Named, ElementCheck),
    /// The reader's key device failed to answer.
    Device,
    /// Memory was wanting.
    Memory,
}

/// What ends the issuer's part of the checks, as it ends those of a copy.
pub(crate) fn failure_of(stop: CheckEnd) -> Failure
    ensures { result ≡ failure_of stop }
{
    match stop {
        CheckEnd::Refused(check) => Failure::DocFails(check),
        CheckEnd::Device => Failure::Device,
        CheckEnd::Memory => Failure::Memory,
    }
}
