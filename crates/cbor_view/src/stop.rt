//! Where a walk stopped.

use crate::cbor_kind::CborKind;

/// A fault by the number of bytes that are left from its place on.
#[derive(Clone, Copy, Debug, PartialEq, Eq)]
pub(crate) struct Stop {
    pub(crate) kind: CborKind,
    pub(crate) left: usize,
}
