//! Issuing of mobile driving licences (ISO/IEC 18013-5, 9.1.2): from a readable description to the
//! documents of a store.
//!
//! The one contract on the description: what is read is what the definition of a spec file gives, or its
//! first fault in the stated order of checks.
#![tactic(auto)]

mod spec;
mod spec_check;
mod spec_element;
mod spec_element_checks;
mod spec_fault;
mod spec_fields;
mod spec_header;
mod spec_header_lines;
mod spec_headers;
mod spec_laws;
mod spec_line;
mod spec_lines;
mod spec_reading;
mod spec_signer;
mod spec_values;
mod spec_whole_checks;
mod spec_words;

pub use spec::Spec;
pub use spec_check::SpecCheck;
pub use spec_element::SpecElement;
pub use spec_fault::SpecFault;
pub use spec_laws::fault_of_lines_stays;
pub use spec_signer::SpecSigner;
