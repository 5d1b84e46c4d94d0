//! What a key device is asked of a signature.

use key_device::Point;

/// Whether a signature is that of a public key over a message.
#[derive(Clone, Copy)]
pub struct VerifyAsk<'a> {
    /// The public key.
    pub public: Point,
    /// What is signed.
    pub message: &'a [u8],
    /// r and then s, each in 32 bytes.
    pub signature: [u8; 64],
}
