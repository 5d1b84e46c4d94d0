//! Views of DER (X.690), borrowed from the bytes that spell them, with no memory taken.
//!
//! The one contract: a view is the element that its bytes spell, at its place, and there is none
//! where bytes spell no element.
#![tactic(auto)]

mod der;
mod der_fault;
mod der_kind;
mod heads;
mod laws;
mod parts;
mod sharing;

pub use der::Der;
pub use der_fault::DerFault;
pub use der_kind::DerKind;
pub use laws::{element_reads, no_prefix, one_element, one_fault, one_list};
pub use parts::Parts;
pub use sharing::types_are_send_and_sync;
