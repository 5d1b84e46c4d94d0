//! The first fault of bytes that are not one item.

use crate::cbor_kind::CborKind;

/// The first fault in byte order.
#[derive(Clone, Copy, Debug, PartialEq, Eq)]
pub struct CborFault {
    /// What is wrong.
    pub kind: CborKind,
    /// Where: the offset of the head of the item at fault, and for `Trailing` of the first byte after
    /// the item.
    pub at: usize,
}
