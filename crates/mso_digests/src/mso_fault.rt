//! Why a payload is no security object.

use mdoc_outside::KeyName;

/// Why the payload of an issuer's signature is no security object (ISO/IEC 18013-5, 9.1.2.4): the first of these
/// that holds.
#[derive(Clone, Copy, Debug, PartialEq, Eq)]
pub enum MsoFault {
    /// It isn't tag 24 over a string of bytes that spells CBOR.
    Cbor,
    /// This key is there twice; a namespace or a digest identifier that is there twice counts as the key of the
    /// digests.
    Doubled(KeyName),
    /// This key is missing, or what is under it is of another kind.
    Field(KeyName),
    /// The version isn't 1.x.
    Version,
    /// The digest algorithm isn't SHA-256.
    Algorithm,
    /// A digest hasn't 32 bytes.
    DigestLength,
    /// A date and time isn't of the form `YYYY-MM-DDTHH:MM:SSZ`, or doesn't exist.
    Date,
}
