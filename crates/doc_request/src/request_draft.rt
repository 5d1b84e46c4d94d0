//! A request that is being made.

use crate::DocDraft;
use mdoc_outside::Rows;

/// A request: the documents that it asks for, in order.
#[derive(Drop)]
pub struct RequestDraft {
    /// The documents.
    pub documents: Rows<DocDraft>,
}
