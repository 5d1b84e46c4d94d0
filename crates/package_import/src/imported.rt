//! What an import comes to.

use mdoc_outside::{Octets, Rows};
use verdict_model::PackageVerdict;

/// What an import comes to.
#[derive(Drop)]
pub struct Imported {
    /// The bytes of the merged store, where no document is refused.
    pub merged: Option<Octets>,
    /// What is found of each document of the package, in order.
    pub verdicts: Rows<PackageVerdict>,
}
