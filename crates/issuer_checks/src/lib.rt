//! What the issuer says of a document (ISO/IEC 18013-5, 9.1.2.2, 9.1.2.4 and 9.3.1): the checks of its signature, its
//! signer and its security object, in their order, with the questions to the reader's key device.
//!
//! The one contract: the talk with the device gains exactly the questions of the definition, and the answer is the
//! definition's over what was told: the object and the device key, or the first check that fails.
#![tactic(auto)]

mod check_end;
mod issuer_auth;
mod issuer_statement;
mod object;
mod questions;
mod roots;
mod sharing;
mod signer;
mod trusted_roots;

pub use check_end::CheckEnd;
pub use issuer_statement::{IssuerStatement, issuer_says};
pub use questions::ask_signed;
pub use sharing::types_are_send_and_sync;
pub use trusted_roots::TrustedRoots;
