//! One element that is asked for.

/// One element that a document is asked for.
#[derive(Clone, Copy)]
pub struct Element<'a> {
    /// The namespace.
    pub ns: &'a str,
    /// The element identifier.
    pub name: &'a str,
    /// Whether the reader means to retain it.
    pub retain: bool,
}
