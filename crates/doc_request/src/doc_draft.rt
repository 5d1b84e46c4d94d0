//! One document of a request that is being made.

use crate::WishDraft;
use mdoc_outside::{Octets, Rows};

/// One document that a request asks for, with the elements that it wants of it, in order.
#[derive(Drop)]
pub struct DocDraft {
    /// The document type, as UTF-8.
    pub doc_type: Octets,
    /// The elements.
    pub wishes: Rows<WishDraft>,
}
