//! A copy that is to be written.

use doc_response::ReleasedItem;

/// A copy of a document that is to be written.
#[derive(Clone, Copy)]
pub struct CopyDraft<'a> {
    /// The number of its device key.
    pub key: u32,
    /// Whether it was used.
    pub used: bool,
    /// The issuer's signature (ISO/IEC 18013-5, 9.1.2.4), an array of four as it is stored.
    pub issuer_auth: &'a [u8],
    /// Its items, each with its namespace (IssuerSignedItemBytes; 8.3.2.1.2.2), as they are stored.
    pub items: &'a [ReleasedItem<'a>],
}
