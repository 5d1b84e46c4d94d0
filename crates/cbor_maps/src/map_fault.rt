//! Why a map isn't as its table of keys says.

use mdoc_outside::KeyName;

/// What is wrong with a map whose keys are named by a table.
#[derive(Clone, Copy, Debug, PartialEq, Eq)]
pub enum MapFault {
    /// The map has this key twice or more (RFC 8949, section 5.6).
    Doubled(KeyName),
    /// The map doesn't have this key, or what is under it is of another kind.
    Field(KeyName),
}
