//! Why an item is no request.

use cbor_view::CborFault;
use mdoc_outside::KeyName;

/// Why an item is no request, in the order of the checks.
#[derive(Clone, Copy, Debug, PartialEq, Eq)]
pub enum RequestFault {
    /// A map doesn't have this key, or what is under it is of another kind.
    Field(KeyName),
    /// A map has a key of its table, a namespace or a name twice or more (RFC 8949, section 5.6).
    Doubled,
    /// The version doesn't begin with `1.`.
    Version,
    /// What is encoded in an items request isn't CBOR.
    Inner(CborFault),
    /// There are not 1 to 16 documents, or not 1 to 512 elements of one.
    Count,
}
