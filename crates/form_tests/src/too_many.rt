//! Stores that are too great once a package is merged.

use doc_store::Store;
use mdoc_outside::Memory;
use std::alloc::Global;
use std::process::Abort;
use store_write::{MergeFault, merge_stores};

/// What is in a document after its type: a copy with the namespace `n`.
const HEAD: &[u8] = b"\x64auth\x00\x66copies\x81\
\xa4\x63key\x00\x64used\xf4\x6aissuerAuth\x84\x40\xa0\xf6\x40\x6anameSpaces\xa1\x61n";

/// An item up to its name of two letters, and its value of 262,139 bytes after their head of five.
const ITEM_HEAD: &[u8] = b"\xd8\x18\x5a\x00\x04\x00\x36\xa4\x68digestID\x00\x66random\x41\x01\
\x71elementIdentifier\x62";

const VALUE_HEAD: &[u8] = b"\x6celementValue\x5a\x00\x03\xff\xfb";

const VALUE_BYTES: usize = 262_139;

/// A store of so many documents, of the types from that letter on, each with that many items of 262,144 bytes.
fn great_store(alloc: Global, first: u8, documents: u8, items: u8) -> Result<Vec<u8>, Memory> {
    let mut bytes = Vec::new(alloc);
    bytes.extend_from_slice(b"\xa2\x67version\x01\x69documents")?;
    bytes.push(0x80_u8.saturating_add(documents))?;
    for document in 0..documents {
        bytes.extend_from_slice(b"\xa3\x67docType\x61")?;
        bytes.push(first.saturating_add(document))?;
        bytes.extend_from_slice(HEAD)?;
        bytes.extend_from_slice(b"\x98")?;
        bytes.push(items)?;
        for item in 0..items {
            bytes.extend_from_slice(ITEM_HEAD)?;
            bytes.extend_from_slice(&[
                b'a'.saturating_add(item / 16),
                b'a'.saturating_add(item % 16),
            ])?;
            bytes.extend_from_slice(VALUE_HEAD)?;
            bytes.resize(bytes.len() + VALUE_BYTES, 0)?;
        }
    }
    Ok(bytes)
}

/// What merging two such stores answers: the number of bytes, or the fault.
fn merged(
    alloc: Global,
    own: (u8, u8, u8),
    received: (u8, u8, u8),
) -> Option<Result<u64, MergeFault>> {
    let one = great_store(alloc, own.0, own.1, own.2).ok()?;
    let other = great_store(alloc, received.0, received.1, received.2).ok()?;
    let one = Store::read(alloc, &one).ok()?;
    let other = Store::read(alloc, &other).ok()?;
    match merge_stores(alloc, &one, &other) {
        Ok(bytes) => Some(Ok(bytes.as_slice().len() as u64)),
        Err(fault) => Some(Err(fault)),
    }
}

/// Two stores, and what merging them answers.
const CASES: [((u8, u8, u8), (u8, u8, u8), Result<u64, MergeFault>); 4] = [
    ((b'a', 16, 0), (b'p', 1, 0), Ok(1_061)),
    ((b'a', 16, 0), (b'q', 1, 0), Err(MergeFault::Documents(17))),
    ((b'a', 9, 0), (b'i', 10, 0), Err(MergeFault::Documents(18))),
    (
        (b'a', 1, 40),
        (b'b', 1, 40),
        Err(MergeFault::Bytes(20_976_559)),
    ),
];

#[test]
fn great_stores_are_refused(rt: HostRuntime) {
    for (own, received, answer) in CASES {
        assert!(rt; merged(rt.alloc(), own, received) == Some(answer));
    }
}
