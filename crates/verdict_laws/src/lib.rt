//! Laws alone: of a document and of an element, a check refuses it exactly where it is the first that fails, and it is accepted
//! exactly where none does.
#![tactic(auto)]

mod document_laws;
mod laws;

pub use document_laws::{accepted_document_holds_all, refused_document_fails_first};
pub use laws::{accepted_element_fails_none, refused_element_fails_first};
