//! Why an item is no response.

use mdoc_outside::KeyName;

/// Why an item is no response (DeviceResponse; ISO/IEC 18013-5, 8.3.2.1.2.2): of all its faults the first in this
/// order, and of keys the one that is read first: maps in the order of the response, keys in that of their table.
#[derive(Clone, Copy, Debug, PartialEq, Eq)]
pub enum ResponseFault {
    /// A map doesn't have this key, or what is under it is of another kind.
    Field(KeyName),
    /// A map has a key of its table twice (RFC 8949, section 5.6).
    Doubled,
    /// The version doesn't begin with `1.`.
    Version,
}
