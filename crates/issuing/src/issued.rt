//! What was issued.

use mdoc_outside::Octets;

/// What was issued by a spec.
#[derive(Drop)]
pub struct Issued {
    /// The package: a store file with one document, whose copies aren't used yet.
    pub package: Octets,
    /// The certificate of the root, where it was made with the signer.
    pub root: Option<Octets>,
}
