//! An element that isn't released.

/// An element that was asked for and isn't released.
#[derive(Clone, Copy)]
pub struct MissingElement<'a> {
    /// The namespace.
    pub ns: &'a str,
    /// The element's identifier.
    pub name: &'a str,
}
