//! The answer to a tag that isn't the ciphertext's.

/// The tag isn't the tag of the ciphertext.
#[derive(Clone, Copy, Debug, PartialEq, Eq)]
pub struct NoMatch;
