//! A released item.

/// A released item, with its namespace.
#[derive(Clone, Copy)]
pub struct ReleasedItem<'a> {
    /// The namespace.
    pub ns: &'a str,
    /// The bytes of the item (IssuerSignedItemBytes) as they are stored.
    pub raw: &'a [u8],
}
