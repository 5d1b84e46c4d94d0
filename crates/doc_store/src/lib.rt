//! The store of a holder: its documents, the copies of each, and the issuer-signed items of a copy
//! as they are stored.
//!
//! The one contract: a file is read exactly where it spells a store within the limits, and what is
//! read of it are the parts that its definition gives, each of which stands in the file's bytes;
//! else it is refused by its first fault in byte order. One walk finds that fault; where there is
//! none, the file is a store.
#![tactic(auto)]

mod copy_faults;
mod copy_fields;
mod copy_items;
mod document;
mod document_faults;
mod document_fields;
mod first_fault;
mod form_faults;
mod form_key;
mod held_item;
mod kind_faults;
mod laws;
mod limit_faults;
mod limits;
mod listing;
mod names;
mod namespace_faults;
mod parts;
mod repeats;
mod sharing;
mod simple_keys;
mod store;
mod store_check;
mod store_fault;
mod store_file;
mod stored_copy;
mod stored_item;

pub use copy_items::CopyItems;
pub use document::Document;
pub use first_fault::Fault;
pub use issuer_items::ItemFault;
pub use laws::{
    EMPTY_STORE, empty_store, first_of_all, same_places, same_presence, store_iff_no_fault,
};
pub use sharing::types_are_send_and_sync;
pub use store::Store;
pub use store_check::StoreCheck;
pub use store_fault::StoreFault;
pub use store_file::StoreFile;
pub use stored_copy::StoredCopy;
