//! What can be wrong with bytes that are to be one item.

/// What is wrong at the place that a `CborFault` names. Where several apply at one head, the first
/// of this list is reported.
#[derive(Clone, Copy, Debug, PartialEq, Eq)]
pub enum CborKind {
    /// The head or the string passes the end of the bytes, or a part is missing there.
    Truncated,
    /// Additional information that no item has here: 28 to 30; 31 on a number, a tag or a simple
    /// value; a simple value below 32 in two bytes (RFC 8949, sections 3 and 3.3).
    Reserved,
    /// A string of indefinite length (RFC 8949, section 3.2.3).
    Chunked,
    /// An array or map of indefinite length (RFC 8949, section 3.2.2).
    Indefinite,
    /// A length or count above 2^32 - 1.
    Length,
    /// An array, map or tag that would be the 33rd level of nesting.
    Deep,
    /// Text that isn't UTF-8.
    BadText,
    /// Bytes stand after the item.
    Trailing,
}
