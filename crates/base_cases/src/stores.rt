//! Stores.

use doc_store::{Store, StoreFault};
use std::alloc::Global;

/// The first fault of a store, and its place.
pub(crate) fn store_of(alloc: Global, bytes: &[u8]) -> Option<String> {
    match Store::read(alloc, bytes) {
        Ok(_) => String::from_str(alloc, "Ok").ok(),
        Err(StoreFault::Form(fault)) => {
            let (check, at) = (fault.check, fault.at);
            format!(in alloc; "{check:?} {at}").ok()
        }
        Err(_) => None,
    }
}

/// The place of the copy to show of the document of type `d`, and its key.
pub(crate) fn chosen_of(alloc: Global, bytes: &[u8]) -> Option<String> {
    let store = Store::read(alloc, bytes).ok()?;
    let document = store.find("d")?;
    let place = document.chosen();
    let key = document.copy(place).key();
    format!(in alloc; "{place} {key}").ok()
}
