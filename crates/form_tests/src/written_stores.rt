//! Copies and packages that are written, and stores that are written again.

use crate::stores::{
    COPY, EMPTY, ISSUER_AUTH, ITEM, ONE_ITEM, OTHER_SPELLING, OTHER_WRITTEN, THREE, TWO_COPIES,
};
use doc_response::ReleasedItem;
use doc_store::Store;
use mdoc_outside::Memory;
use std::alloc::Global;
use std::process::Abort;
use store_write::{
    CopyDraft, read_store_is_storable, stored_parts_are_nested, types_are_send_and_sync,
    write_copy, write_package, write_store, written_store_is_read,
};

/// Whether the copy of the first store is written as its bytes, and the package of it as the store.
fn copy_and_package(alloc: Global) -> bool {
    let items = [ReleasedItem { ns: "n", raw: ITEM }];
    let draft = CopyDraft {
        key: 0,
        used: false,
        issuer_auth: ISSUER_AUTH,
        items: &items,
    };
    let Ok(copy) = write_copy(alloc, &draft) else {
        return false;
    };
    if copy.as_slice() != COPY {
        return false;
    }
    match write_package(alloc, "d", false, &[copy]) {
        Ok(package) => package.as_slice() == ONE_ITEM,
        Err(Memory) => false,
    }
}

/// Whether a store is written as these bytes.
fn writes(alloc: Global, bytes: &[u8], written: &[u8]) -> bool {
    let Ok(store) = Store::read(alloc, bytes) else {
        return false;
    };
    let mut documents = Vec::new(alloc);
    for place in 0..store.documents() {
        let Ok(()) = documents.push(store.document(place)) else {
            return false;
        };
    }
    match write_store(alloc, &documents) {
        Ok(again) => again.as_slice() == written,
        Err(Memory) => false,
    }
}

/// A store, and its bytes as they are written.
const WRITTEN: [(&[u8], &[u8]); 5] = [
    (EMPTY, EMPTY),
    (ONE_ITEM, ONE_ITEM),
    (OTHER_SPELLING, OTHER_WRITTEN),
    (THREE, THREE),
    (TWO_COPIES, TWO_COPIES),
];

#[test]
fn stores_are_written(rt: HostRuntime) {
    assert!(rt; copy_and_package(rt.alloc()));
    for (store, written) in WRITTEN {
        assert!(rt; writes(rt.alloc(), store, written));
    }
    read_store_is_storable();
    stored_parts_are_nested();
    written_store_is_read();
    types_are_send_and_sync();
}
