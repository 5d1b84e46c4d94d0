//! Why an item is no key.

/// Why an item is no COSE_Key of the curve P-256 (RFC 9052, section 7; RFC 9053, section 7.1): the first of
/// these that holds.
#[derive(Clone, Copy, Debug, PartialEq, Eq)]
pub enum KeyFault {
    /// It is no map.
    NotMap,
    /// One of the labels 1, -1, -2 and -3 is there twice.
    Doubled,
    /// Label 1 isn't 2, a key of two coordinates.
    Kind,
    /// Label -1 isn't 1, the curve P-256.
    Curve,
    /// Label -3 is a truth value, the sign of a compressed point.
    Compressed,
    /// Label -2 or -3 isn't a string of 32 bytes.
    Coordinate,
}
