//! One element of a request that is being made.

use mdoc_outside::Octets;

/// One element that a request asks of a document.
#[derive(Drop)]
pub struct WishDraft {
    /// The namespace, as UTF-8.
    pub ns: Octets,
    /// The element identifier, as UTF-8.
    pub name: Octets,
    /// Whether the reader means to retain the element.
    pub retain: bool,
}
