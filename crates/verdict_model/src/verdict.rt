//! What is found of a response.

use crate::{DocVerdict, Named};
use mdoc_outside::Rows;

/// What is found of a response.
#[derive(Drop)]
pub struct Verdict {
    /// Its documents, in order.
    pub documents: Rows<DocVerdict>,
    /// The elements that were asked for of which none is accepted, in the order asked.
    pub unanswered: Rows<Named>,
}
