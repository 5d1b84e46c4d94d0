// A public key.

/// A public key: the coordinates of a point of the curve P-256, each 32 bytes big-endian
/// (RFC 9053, section 7.1.1). Nothing says that the point lies on the curve.
#[derive(Clone, Copy, Debug, PartialEq, Eq)]
pub struct Point {
    /// The x coordinate.
    pub x: [u8; 32],
    /// The y coordinate.
    pub y: [u8; 32],
}
