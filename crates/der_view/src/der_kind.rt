//! What can be wrong with bytes that are to be one element.

/// What is wrong at the place that a `DerFault` names: what the first byte tells after which no
/// bytes make an element, or that the bytes end before there is such a byte.
#[derive(Clone, Copy, Debug, PartialEq, Eq)]
pub enum DerKind {
    /// The bytes end before the element does.
    Short,
    /// A tag whose number stands in the bytes after it: its lowest five bits are all ones (X.690,
    /// 8.1.2.4).
    HighTag,
    /// The length is indefinite, or in more bytes than it needs, or in more than four (X.690, 8.1.3
    /// and 10.1).
    Length,
    /// Bytes follow the element.
    Trailing,
}
