//! An item of a copy.

use mdoc_outside::Octets;

/// An item of a copy of a document that is issued.
#[derive(Drop)]
pub struct IssuedItem {
    /// The namespace.
    pub ns: Octets,
    /// The digest identifier.
    pub number: u64,
    /// The item's bytes (IssuerSignedItemBytes; ISO/IEC 18013-5, 8.3.2.1.2.2).
    pub raw: Octets,
}
