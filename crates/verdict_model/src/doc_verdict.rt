//! What is found of one document.

use crate::{DocCheck, ElementVerdict, Named};
use mdoc_outside::{Octets, Rows};

/// What is found of one document of a response.
#[derive(Drop)]
pub struct DocVerdict {
    /// The document type, as UTF-8.
    pub doc_type: Octets,
    /// The first check that fails, or none where the document is accepted.
    pub refused: Option<DocCheck>,
    /// Its elements, in order; none of a refused document.
    pub elements: Rows<ElementVerdict>,
    /// The elements that the device signed, which are named and never accepted; none of a refused document.
    pub device_elements: Rows<Named>,
}
