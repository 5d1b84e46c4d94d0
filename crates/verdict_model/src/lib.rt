//! Definitions and laws alone: what a reader believes of a response, and what is found of a package before it is taken into a
//! store (ISO/IEC 18013-5, 9.1.2, 9.1.3 and 9.3.1), as plans of questions to the reader's key device.
#![tactic(auto)]

mod doc_check;
mod doc_verdict;
mod element_check;
mod element_verdict;
mod laws;
mod named;
mod package_laws;
mod package_verdict;
mod sharing;
mod verdict;

pub use doc_check::DocCheck;
pub use doc_verdict::DocVerdict;
pub use element_check::ElementCheck;
pub use element_verdict::ElementVerdict;
pub use laws::{accepted_is_requested, accepted_is_signed, accepted_is_sound};
pub use named::Named;
pub use package_laws::accepted_copy_is_covered;
pub use package_verdict::PackageVerdict;
pub use sharing::types_are_send_and_sync;
pub use verdict::Verdict;
