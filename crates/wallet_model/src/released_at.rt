//! The place of a released item.

use mdoc_outside::Octets;

/// The place of an item that was released: the place of its document in the store, of which the copy that is shown is
/// meant, and the item's namespace and name, each as UTF-8.
#[derive(Drop)]
pub struct ReleasedAt {
    /// The place of the document, from 0.
    pub document: usize,
    /// The namespace.
    pub ns: Octets,
    /// The element identifier.
    pub name: Octets,
}
