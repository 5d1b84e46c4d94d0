//! What a reader asks for and who it is (ISO/IEC 18013-5, 8.3.2.1.2.1 and 9.1.4).
//!
//! The one contract: a request is read exactly where an item is one, as the documents and wishes in the order of its
//! bytes, else with the first check that fails.
#![tactic(auto)]

mod authentication;
mod checks;
mod doc_ask;
mod doc_draft;
mod documents;
mod element;
mod elements;
mod faults;
mod laws;
mod readers;
mod request;
mod request_draft;
mod request_fault;
mod sharing;
mod spaces;
mod texts;
mod wish_draft;
mod wishes;
mod written;

pub use cose_msgs::reader_auth_bytes;
pub use doc_ask::DocAsk;
pub use doc_draft::DocDraft;
pub use documents::Documents;
pub use element::Element;
pub use elements::Elements;
pub use laws::text_asks_for_its_item;
pub use readers::known_reader;
pub use request::Request;
pub use request_draft::RequestDraft;
pub use request_fault::RequestFault;
pub use sharing::types_are_send_and_sync;
pub use wish_draft::WishDraft;
pub use wishes::Wishes;
pub use written::write_request;
