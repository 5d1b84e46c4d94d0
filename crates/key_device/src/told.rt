// What a key device told.
use crate::Made;

/// What a key device told.
#[derive(Clone, Copy, Debug, PartialEq, Eq)]
pub enum Told {
    /// The key that it made.
    Made(Made),
    /// The secret that both ends agree on, 32 bytes.
    Secret([u8; 32]),
    /// That it refuses the peer's public key.
    Refused,
    /// The signature, r then s, 32 bytes each.
    Signature([u8; 64]),
    /// That the signature is the public key's.
    Yes,
    /// That the signature isn't the public key's.
    No,
    /// That it failed.
    Failed,
}
