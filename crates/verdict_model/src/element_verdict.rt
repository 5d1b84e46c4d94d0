//! What is found of one element.

use crate::ElementCheck;
use mdoc_outside::Octets;

/// What is found of one element of an accepted document.
#[derive(Drop)]
pub struct ElementVerdict {
    /// The namespace, as UTF-8.
    pub ns: Octets,
    /// The element identifier, as UTF-8; empty for an element that is no issuer-signed item.
    pub name: Octets,
    /// The bytes of the element's value; empty likewise.
    pub value: Octets,
    /// The first check that fails, or none where the element is accepted.
    pub refused: Option<ElementCheck>,
}
