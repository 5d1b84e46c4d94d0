//! Packages that are merged into a store.

use crate::stores::{
    EMPTY, ONE_ITEM, ONE_MERGED, OTHER_SPELLING, OTHER_WRITTEN, THREE, THREE_MERGED, TWO_COPIES,
};
use doc_store::Store;
use std::alloc::Global;
use std::process::Abort;
use store_write::{merge, merge_stores};

/// A store, a package, and the merged store.
const MERGES: [(&[u8], &[u8], &[u8]); 10] = [
    (EMPTY, EMPTY, EMPTY),
    (EMPTY, ONE_ITEM, ONE_ITEM),
    (ONE_ITEM, ONE_ITEM, ONE_ITEM),
    (ONE_ITEM, EMPTY, ONE_ITEM),
    (EMPTY, OTHER_SPELLING, OTHER_WRITTEN),
    (OTHER_SPELLING, ONE_ITEM, ONE_ITEM),
    (ONE_ITEM, OTHER_SPELLING, OTHER_WRITTEN),
    (THREE, ONE_ITEM, THREE_MERGED),
    (ONE_ITEM, THREE, ONE_MERGED),
    (EMPTY, TWO_COPIES, TWO_COPIES),
];

/// Whether a package is merged into a store as the bytes say, by both calls.
fn merges(alloc: Global, own: &[u8], received: &[u8], merged: &[u8]) -> bool {
    let Ok(one) = Store::read(alloc, own) else {
        return false;
    };
    let Ok(other) = Store::read(alloc, received) else {
        return false;
    };
    match (
        merge(alloc, own, received),
        merge_stores(alloc, &one, &other),
    ) {
        (Ok(bytes), Ok(same)) => bytes.as_slice() == merged && same.as_slice() == merged,
        _ => false,
    }
}

#[test]
fn packages_are_merged(rt: HostRuntime) {
    for (own, received, merged) in MERGES {
        assert!(rt; merges(rt.alloc(), own, received, merged));
    }
}
