//! The trusted roots of a certificate (RFC 5280, 6.1, in the profile of ISO/IEC 18013-5, annex B): the root that confirms it,
//! and the validities of both.
//!
//! The one contract: a root confirms a certificate where it has the name of its issuer and the key device says that it
//! signed it; a root of another name isn't asked.
#![tactic(auto)]

mod confirming;
mod names;
mod validity;

pub use confirming::confirming_root;
pub use names::has_named_root;
pub use validity::{are_valid, is_valid};
