//! What a reader asks for.

/// One element that a reader asks for (ISO/IEC 18013-5, 8.3.2.1.2.1).
#[derive(Clone, Copy)]
pub struct Wish<'a> {
    /// The document type.
    pub doc_type: &'a str,
    /// The namespace.
    pub ns: &'a str,
    /// The element identifier.
    pub name: &'a str,
    /// Whether the reader means to retain the element.
    pub retain: bool,
}
