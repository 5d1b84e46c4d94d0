//! Device engagement (ISO/IEC 18013-5, 8.2.1): its bytes, its text in a QR code, and the file that holds such a text.
//!
//! The one contract: bytes are read exactly where they spell a device engagement, else with the first check that fails; an
//! engagement that was written is read as its key; a text is read exactly where it is that of some bytes, and a file exactly where
//! its one line says such a text.
#![tactic(auto)]

mod engage_fault;
mod engagement;
mod engagement_file;
mod engagement_file_fault;
mod laws;
mod security;
mod uri;
mod uri_fault;
mod written;

pub use engage_fault::EngageFault;
pub use engagement::Engagement;
pub use engagement_file::{EngagementFile, read_engagement};
pub use engagement_file_fault::EngagementFileFault;
pub use laws::{uri_is_of_one_engagement, uri_is_read_back, written_engagement_is_read};
pub use uri::{from_uri, to_uri};
pub use uri_fault::UriFault;
pub use written::write_engagement;
