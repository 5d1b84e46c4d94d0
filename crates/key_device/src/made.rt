// A key that a device made.
use crate::Point;

/// A key that a device made: the number by which the device knows it, and its public key.
#[derive(Clone, Copy, Debug, PartialEq, Eq)]
pub struct Made {
    /// The number of the key, within its device.
    pub key: u32,
    /// The public key.
    pub public: Point,
}
