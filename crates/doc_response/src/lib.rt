//! Responses of a wallet (DeviceResponse; ISO/IEC 18013-5, 8.3.2.1.2.2): put together piece by piece and written,
//! and read without memory.
//!
//! The one contract: what is written is the released items and the issuer's signatures as they are stored, with an
//! error of code 0 for all else that was asked for; a response is read exactly where an item is one, else
//! with the first of its faults.
#![tactic(auto)]

mod answered_document;
mod authentication;
mod device_auth;
mod device_part;
mod draft_document;
mod faults;
mod groups;
mod issuer_part;
mod kinds;
mod laws;
mod missing_element;
mod namespaces;
mod reading;
mod released_item;
mod response;
mod response_doc;
mod response_docs;
mod response_draft;
mod response_errors;
mod response_fault;
mod response_items;
mod sharing;
mod writing;

pub use answered_document::AnsweredDocument;
pub use authentication::{device_mac, mac_key};
pub use cose_msgs::device_auth_bytes;
pub use device_auth::DeviceAuth;
pub use groups::{append_document_error, append_errors, append_items};
pub use laws::{written_items_are_read, written_status_is_read};
pub use missing_element::MissingElement;
pub use namespaces::distinct_texts;
pub use released_item::ReleasedItem;
pub use response::Response;
pub use response_doc::ResponseDoc;
pub use response_docs::ResponseDocs;
pub use response_draft::ResponseDraft;
pub use response_errors::ResponseErrors;
pub use response_fault::ResponseFault;
pub use response_items::ResponseItems;
pub use sharing::types_are_send_and_sync;
pub use writing::respond;
