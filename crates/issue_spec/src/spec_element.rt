//! An element of a spec.

use mdoc_outside::Octets;

/// One data element of a document (ISO/IEC 18013-5, 7.2.1).
#[derive(Drop)]
pub struct SpecElement {
    /// The namespace, as UTF-8.
    pub ns: Octets,
    /// The element identifier, as UTF-8.
    pub name: Octets,
    /// The value, as the bytes of CBOR that stand in its item.
    pub value: Octets,
}
