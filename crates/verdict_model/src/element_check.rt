//! Why an element is refused.

/// The first check of an element that fails, in their order, with the values that differ (ISO/IEC 18013-5, 9.1.2.4).
#[derive(Clone, Copy)]
pub enum ElementCheck {
    /// It is no issuer-signed item.
    ItemForm,
    /// The object has no digest under its namespace and digest identifier.
    NoDigest,
    /// Its digest is another one.
    DigestDiffers {
        /// The digest of the object.
        kept: [u8; 32],
        /// The digest of the item.
        made: [u8; 32],
    },
    /// An element of its namespace and name was accepted before in this document.
    Repeated,
    /// It wasn't asked for.
    NotRequested,
}
