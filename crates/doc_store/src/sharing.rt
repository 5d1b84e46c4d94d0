//! What may be handed to another thread and shared with it.

use crate::copy_items::CopyItems;
use crate::document::Document;
use crate::store::Store;
use crate::store_file::StoreFile;
use crate::stored_copy::StoredCopy;
use mdoc_outside::{is_send, is_sync};

/// A store and its file, its documents, their copies and the iterator over the items of a copy are Send and Sync.
pub fn types_are_send_and_sync() {
    is_send::<Store<'static>>();
    is_sync::<Store<'static>>();
    is_send::<StoreFile>();
    is_sync::<StoreFile>();
    is_send::<Document<'static>>();
    is_sync::<Document<'static>>();
    is_send::<StoredCopy<'static>>();
    is_sync::<StoredCopy<'static>>();
    is_send::<CopyItems<'static>>();
    is_sync::<CopyItems<'static>>();
}
