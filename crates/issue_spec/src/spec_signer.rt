//! Who signs the documents of a spec.

use mdoc_outside::Octets;

/// Who signs the documents.
#[derive(Drop)]
pub enum SpecSigner {
    /// A signer that is made with them, by a root that is made before it.
    New,
    /// The key of this number of the issuer's device, with its certificate (RFC 5280, 4.1).
    Known(u32, Octets),
}
