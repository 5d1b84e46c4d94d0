//! Store files that are written, which is also the form of a package: of drafts, or of the documents of a store and a package
//! that are merged.
//!
//! The one contract: the bytes are those of the definition, with items and issuer's signatures as they are stored; a document of
//! a package takes the place of the store's document of its type or goes last; what was written is read as it was given.
#![tactic(auto)]

mod copies;
mod copy_draft;
mod documents;
mod fields;
mod heads;
mod laws;
mod merge_fault;
mod merged_documents;
mod merging;
mod package;
mod room;
mod sharing;

pub use copies::{put_copy, write_copy};
pub use copy_draft::CopyDraft;
pub use documents::write_store;
pub use heads::{put_copy_head, put_package_head};
pub use laws::{read_store_is_storable, stored_parts_are_nested, written_store_is_read};
pub use merge_fault::MergeFault;
pub use merging::{merge, merge_stores};
pub use package::write_package;
pub use sharing::types_are_send_and_sync;
