//! The refusal of a key that a map has twice.

/// A map has the key that was asked for twice or more.
#[derive(Clone, Copy, Debug, PartialEq, Eq)]
pub struct Doubled;
