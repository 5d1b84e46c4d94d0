//! The first fault of bytes that are not one element.

use crate::der_kind::DerKind;

/// The first fault in byte order.
#[derive(Clone, Copy, Debug, PartialEq, Eq)]
pub struct DerFault {
    /// What is wrong.
    pub kind: DerKind,
    /// Where, as an offset in the bytes first read: the tag of the element at fault, and for
    /// `Trailing` the first byte after the element.
    pub at: usize,
}
