//! Why bytes are no issuer-signed item.

use cbor_view::CborFault;
use mdoc_outside::KeyName;

/// Why bytes are no issuer-signed item (ISO/IEC 18013-5, 8.3.2.1.2.2): the first of these that holds.
#[derive(Clone, Copy, Debug, PartialEq, Eq)]
pub enum ItemFault {
    /// They aren't tag 24 over a string of bytes.
    NotTagged,
    /// The string spells no CBOR; the place is counted from the front of the string.
    Cbor(CborFault),
    /// This key is there twice.
    Doubled(KeyName),
    /// This key is missing, or what is under it is of another kind.
    Field(KeyName),
}
