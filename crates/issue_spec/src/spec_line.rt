//! What a line of a spec file says.

use crate::spec_element::SpecElement;
use crate::spec_header::SpecHeader;

/// What a line of a spec file says.
#[derive(Drop)]
pub(crate) enum SpecLine {
    /// Something of the whole document.
    Header(SpecHeader),
    /// `element NAMESPACE NAME KIND VALUE`: one of its elements.
    Element(SpecElement),
}
