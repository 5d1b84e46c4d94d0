//! A signer of documents.

use mdoc_outside::Octets;

/// A signer of documents.
#[derive(Drop)]
pub struct Signer {
    /// The number of its key.
    pub key: u32,
    /// Its certificate (RFC 5280, 4.1).
    pub certificate: Octets,
    /// The certificate of its root, where that was made with it.
    pub root: Option<Octets>,
}
