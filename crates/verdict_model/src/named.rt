//! An element by its names.

use mdoc_outside::Octets;

/// An element of a document by its document type, its namespace and its element identifier, each as UTF-8.
#[derive(Drop)]
pub struct Named {
    /// The document type.
    pub doc_type: Octets,
    /// The namespace.
    pub ns: Octets,
    /// The element identifier.
    pub name: Octets,
}
