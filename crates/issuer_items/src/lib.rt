//! Issuer-signed items of a mobile document (ISO/IEC 18013-5, 8.3.2.1.2.2 and 9.1.2.4): one element of a
//! licence with its salt and its digest identifier.
//!
//! The one contract: bytes are read exactly where they spell an item, else with the first check that fails,
//! and an item that was written is read as it was given.
#![tactic(auto)]

mod item;
mod item_fault;
mod laws;
mod sharing;
mod written;

pub use item::Item;
pub use item_fault::ItemFault;
pub use laws::written_item_is_read;
pub use sharing::types_are_send_and_sync;
pub use written::write_item;
