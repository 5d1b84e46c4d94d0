//! Certificates of X.509 (RFC 5280) in the profile of the mobile driving licence, borrowed from the bytes
//! that spell them.
#![tactic(auto)]

mod cert;
mod cert_check;
mod cert_draft;
mod cert_fault;
mod elements;
mod extensions;
mod first_fault;
mod integers;
mod keys;
mod laws;
mod root;
mod root_line;
mod roots;
mod roots_fault;
mod shapes;
mod sharing;
mod signatures;
mod tbs;
mod tbs_parts;
mod times;
mod verify_ask;
mod write_fault;
mod writing;
mod written_laws;
mod written_parts;

pub use cert::Cert;
pub use cert_check::CertCheck;
pub use cert_draft::CertDraft;
pub use cert_fault::CertFault;
pub use laws::{integer_value_is_kept, utc_time_is_of_its_years};
pub use root::Root;
pub use roots::Roots;
pub use roots_fault::RootsFault;
pub use sharing::types_are_send_and_sync;
pub use verify_ask::VerifyAsk;
pub use write_fault::WriteFault;
pub use writing::write_cert;
pub use written_laws::written_is_read;
