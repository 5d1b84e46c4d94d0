//! Mobile security objects (ISO/IEC 18013-5, 9.1.2.4): the digests of a document's items, its device key and its
//! validity, as the issuer signs them.
//!
//! The one contract: a payload is read exactly where it is such an object, else with the first check that fails, an
//! object that was written is read as it was given, and one whose digests are those of items lists these alone.
#![tactic(auto)]

mod contents;
mod digests;
mod doubled;
mod grouped;
mod index;
mod laws;
mod mso;
mod mso_draft;
mod mso_fault;
mod sharing;
mod validity;
mod written;

pub use index::DigestIndex;
pub use laws::object_is_made_from_its_items;
pub use mso::Mso;
pub use mso_draft::MsoDraft;
pub use mso_fault::MsoFault;
pub use sharing::types_are_send_and_sync;
pub use written::write_mso;
