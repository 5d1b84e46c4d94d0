//! What is found of a document of a package.

use crate::doc_check::DocCheck;
use crate::element_check::ElementCheck;
use crate::named::Named;
use mdoc_outside::Octets;

/// What is found of a document of a package. It is accepted where no check of it and none of its items fails.
#[derive(Drop)]
pub struct PackageVerdict {
    /// The document type, as UTF-8.
    pub doc_type: Octets,
    /// How many copies it has.
    pub copies: u64,
    /// The first check that fails, where it is one of a copy.
    pub refused: Option<DocCheck>,
    /// The item whose check fails first, and the check, where it is one of an item.
    pub item: Option<(Named, ElementCheck)>,
}
