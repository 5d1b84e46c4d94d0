//! What a reader believes (ISO/IEC 18013-5, 9.1.2, 9.1.3 and 9.3.1): the judge of a response, and the check of a package before
//! it is taken into a store.
//!
//! The one contract: the talk with the reader's key device gains exactly the questions of the definition, and the verdict is the
//! definition's over what was told: of each document the first check that fails, or the elements that are believed.
#![tactic(auto)]

mod accepted;
mod answered;
mod copies;
mod device_proof;
mod device_signed;
mod digest;
mod document;
mod documents;
mod element_names;
mod elements;
mod failure;
mod first_check;
mod items;
mod judge_context;
mod judge_fault;
mod package_documents;
mod requested;
mod response;
mod sharing;
mod shown;
mod stored_digest;

pub use judge_fault::JudgeFault;
pub use package_documents::check_package;
pub use response::judge;
pub use sharing::types_are_send_and_sync;
