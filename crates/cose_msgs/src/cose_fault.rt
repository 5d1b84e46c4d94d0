//! Why an item is no message.

/// Why an item is no COSE_Sign1 or COSE_Mac0 (RFC 9052, sections 4.2 and 6.2): the first of these that holds.
#[derive(Clone, Copy, Debug, PartialEq, Eq)]
pub enum CoseFault {
    /// It is no array of a string of bytes, a map, a string of bytes or null, and a string of bytes.
    Shape,
    /// The protected bytes aren't one map, or a label is twice in it or in the unprotected map.
    Header,
    /// Label 1 of the protected map is another algorithm than ES256 (-7), or HMAC 256/256 (5).
    Algorithm,
    /// The authentication tag hasn't 32 bytes.
    TagLength,
    /// The signature hasn't 64 bytes.
    SignatureLength,
}
