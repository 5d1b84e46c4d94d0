// A question to a key device.
use crate::Point;
use mdoc_outside::Octets;

/// A question to a key device.
#[derive(Drop)]
pub enum Ask {
    /// For a new key.
    Fresh,
    /// For the secret between the device's key of that number and a peer's public key.
    Agree(u32, Point),
    /// For a signature of the message under the device's key of that number.
    Sign(u32, Octets),
    /// Whether the signature, r then s, is the public key's over the message.
    Verify(Point, Octets, [u8; 64]),
}
