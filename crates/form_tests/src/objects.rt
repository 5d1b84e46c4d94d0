//! Security objects: one with all its fields, written and read. Its bytes are those that `tests/vectors/security_objects`
//! writes.

use key_device::Point;
use mdoc_outside::{Memory, Octets};
use mso_digests::{Mso, MsoDraft, types_are_send_and_sync, write_mso};
use std::alloc::Global;
use std::test::*;

/// An object with two namespaces of one digest each.
const WHOLE: &[u8] =
    b"\xd8\x18Y\x01~\xa6gversionc1.0odigestAlgorithmgSHA-256lvalueDigests\xa2aa\xa1\x00X\x20\x01\
    \x01\x01\x01\x01\x01\x01\x01\x01\x01\x01\x01\x01\x01\x01\x01\x01\x01\x01\x01\x01\x01\x01\x01\
    \x01\x01\x01\x01\x01\x01\x01\x01ab\xa1\x00X\x20\x02\x02\x02\x02\x02\x02\x02\x02\x02\x02\x02\
    \x02\x02\x02\x02\x02\x02\x02\x02\x02\x02\x02\x02\x02\x02\x02\x02\x02\x02\x02\x02\x02mdevi\
    ceKeyInfo\xa1ideviceKey\xa4\x01\x02\x20\x01!X\x20\x03\x03\x03\x03\x03\x03\x03\x03\x03\x03\
    \x03\x03\x03\x03\x03\x03\x03\x03\x03\x03\x03\x03\x03\x03\x03\x03\x03\x03\x03\x03\x03\x03\x22\
    X\x20\x04\x04\x04\x04\x04\x04\x04\x04\x04\x04\x04\x04\x04\x04\x04\x04\x04\x04\x04\x04\x04\
    \x04\x04\x04\x04\x04\x04\x04\x04\x04\x04\x04gdocTypeadlvalidityInfo\xa4fsigned\xc0t2024-0\
    1-01T00:00:00ZivalidFrom\xc0t2024-01-02T00:00:00ZjvalidUntil\xc0t2029-12-31T23:59:59Znexp\
    ectedUpdate\xc0t2025-01-01T00:00:00Z";

/// The same object, written.
fn write_whole(alloc: Global) -> Result<Octets, Memory> {
    let digests = [
        (Octets::copy_of(alloc, b"a")?, 0, [1; 32]),
        (Octets::copy_of(alloc, b"b")?, 0, [2; 32]),
    ];
    write_mso(
        alloc,
        &MsoDraft {
            doc_type: "d",
            digests: &digests,
            device_key: Point {
                x: [3; 32],
                y: [4; 32],
            },
            signed: 1_704_067_200,
            from: 1_704_153_600,
            until: 1_893_455_999,
            update: Some(1_735_689_600),
        },
    )
}

/// Whether what is written is these bytes.
fn is_written(alloc: Global, bytes: &[u8]) -> bool {
    match write_whole(alloc) {
        Ok(written) => written.as_slice() == bytes,
        Err(Memory) => false,
    }
}

#[test]
fn writes_an_object(rt: HostRuntime) {
    assert!(rt; is_written(rt.alloc(), WHOLE));
}

fn doc_type_of(bytes: &[u8]) -> Option<&str> {
    Some(Mso::read(bytes).ok()?.doc_type())
}

/// When an object was signed, and from when and until when it is valid.
fn moments_of(bytes: &[u8]) -> Option<(i64, i64, i64)> {
    let object = Mso::read(bytes).ok()?;
    Some((object.signed(), object.from(), object.until()))
}

fn device_key_of(bytes: &[u8]) -> Option<&[u8]> {
    Some(Mso::read(bytes).ok()?.device_key().raw())
}

fn digest_of<'a>(bytes: &'a [u8], namespace: &str, number: u64) -> Option<&'a [u8]> {
    Mso::read(bytes).ok()?.digest(namespace, number)
}

/// {1: 2, -1: 1, -2: x, -3: y}
const DEVICE_KEY: &[u8] =
    b"\xa4\x01\x02\x20\x01!X\x20\x03\x03\x03\x03\x03\x03\x03\x03\x03\x03\x03\x03\x03\x03\x03\x03\
    \x03\x03\x03\x03\x03\x03\x03\x03\x03\x03\x03\x03\x03\x03\x03\x03\x22X\x20\x04\x04\x04\x04\
    \x04\x04\x04\x04\x04\x04\x04\x04\x04\x04\x04\x04\x04\x04\x04\x04\x04\x04\x04\x04\x04\x04\x04\
    \x04\x04\x04\x04\x04";

#[test]
fn reads_the_fields(rt: HostRuntime) {
    assert!(rt; doc_type_of(WHOLE) == Some("d"));
    assert!(rt; moments_of(WHOLE) == Some((1_704_067_200, 1_704_153_600, 1_893_455_999)));
    assert!(rt; device_key_of(WHOLE) == Some(DEVICE_KEY));
    types_are_send_and_sync();
}

#[test]
fn finds_digests(rt: HostRuntime) {
    assert!(rt; digest_of(WHOLE, "a", 0) == Some([1; 32].as_slice()));
    assert!(rt; digest_of(WHOLE, "b", 0) == Some([2; 32].as_slice()));
    assert!(rt; digest_of(WHOLE, "a", 1) == None);
    assert!(rt; digest_of(WHOLE, "c", 0) == None);
}
