//! What a header line of a spec file says.

ghost use Rattle.std.specs.Prelude.{◌≡◌};

use crate::spec_signer::SpecSigner;
use mdoc_outside::Octets;

/// What a header line says. Moments are in seconds since 1970.
#[derive(Drop)]
pub(crate) enum SpecHeader {
    /// `type TYPE`: the document type.
    DocType(Octets),
    /// `auth sig` or `auth mac`: whether the device authenticates itself by a MAC.
    UsesMac(bool),
    /// `copies N`: how many copies are issued.
    Copies(u32),
    /// `signer KEY HEX` or `signer new`: who signs.
    Signer(SpecSigner),
    /// `signed T`: when the documents are signed.
    Signed(i64),
    /// `from T`: from when on they are valid.
    From(i64),
    /// `until T`: until when they are.
    Until(i64),
    /// `update T`: when they are to be issued anew.
    Update(i64),
}

/// The first second of the year 1950, in seconds since 1970.
const YEAR_1950: i64 = -631_152_000;

impl SpecHeader {
    ghost use Rattle.issue_spec.specs.SpecChecks.{says_early};

    /// Whether it says a time before the year 1950, which certificates that are made don't say.
    pub(crate) fn says_early(&self) -> bool
        ensures { result ≡ says_early self.now }
    {
        match self {
            SpecHeader::Signed(moment)
            | SpecHeader::From(moment)
            | SpecHeader::Until(moment)
            | SpecHeader::Update(moment) => *moment < YEAR_1950,
            _ => false,
        }
    }
}
