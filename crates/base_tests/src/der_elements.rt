//! Elements of DER by their bytes.

use der_view::{Der, DerFault, DerKind};
use std::alloc::Global;
use std::test::*;

/// Whether bytes are no element, with that first fault.
fn is_refused(bytes: &[u8], kind: DerKind, at: usize) -> bool {
    Der::read(bytes).err() == Some(DerFault { kind, at })
}

/// The head of an octet string of so many bytes, as OpenSSL writes it.
const HEADS: [(&[u8], usize); 7] = [
    (b"\x04\x00", 0),
    (b"\x04\x7f", 127),
    (b"\x04\x81\x80", 128),
    (b"\x04\x81\xff", 255),
    (b"\x04\x82\x01\x00", 256),
    (b"\x04\x82\xff\xff", 65_535),
    (b"\x04\x83\x01\x00\x00", 65_536),
];

/// A head and so many bytes after it.
fn octets(alloc: Global, head: &[u8], length: usize) -> Result<Vec<u8>, Fail> {
    let mut bytes = head.to_vec(alloc)?;
    bytes.resize(head.len().saturating_add(length), 7)?;
    Ok(bytes)
}

/// Whether bytes are one octet string, of what stands after a head of that length.
fn is_octets(bytes: &[u8], head: usize) -> bool {
    match Der::read(bytes) {
        Ok(element) => {
            element.tag() == 0x04
                && Some(element.body()) == bytes.get(head..)
                && element.raw().len() == bytes.len()
        }
        Err(_) => false,
    }
}

/// Whether bytes without the last are too short.
fn is_short_without_the_last(bytes: &[u8]) -> bool {
    match bytes {
        [front @ .., _] => is_refused(front, DerKind::Short, 0),
        [] => false,
    }
}

#[test]
fn reads_each_length(rt: HostRuntime) -> Result<(), Fail> {
    for (head, length) in &HEADS {
        let bytes = octets(rt.alloc(), head, *length)?;
        assert!(rt; is_octets(&bytes, head.len()), "{length}");
        assert!(rt; is_short_without_the_last(&bytes), "{length}");
    }
    Ok(())
}

/// A sequence that OpenSSL wrote: INTEGER 5, BOOLEAN true, NULL, the identifier of a public key on an
/// elliptic curve, UTF8String "hi".
const SEQUENCE: &[u8] =
    b"\x30\x15\x02\x01\x05\x01\x01\xff\x05\x00\x06\x07\x2a\x86\x48\xce\x3d\x02\x01\x0c\x02\x68\x69";

/// Its parts: tag, place and body.
const INSIDE: [(u8, usize, &[u8]); 5] = [
    (0x02, 2, b"\x05"),
    (0x01, 5, b"\xff"),
    (0x05, 8, b""),
    (0x06, 10, b"\x2a\x86\x48\xce\x3d\x02\x01"),
    (0x0c, 19, b"hi"),
];

/// The tag, the place and the body of an element.
fn fields_of<'a>(element: &Der<'a>) -> (u8, usize, &'a [u8]) {
    (element.tag(), element.at(), element.body())
}

/// The part of a sequence with that number, from 0, or its fault.
fn part_of<'a>(sequence: &Der<'a>, number: usize) -> Option<Result<Der<'a>, DerFault>> {
    sequence.parts().nth(number)
}

/// Whether a sequence has a part with that number, with that tag, place and body.
fn has_part(sequence: &Der<'_>, number: usize, part: &(u8, usize, &[u8])) -> bool {
    match part_of(sequence, number) {
        Some(Ok(element)) => fields_of(&element) == *part,
        _ => false,
    }
}

/// Whether the part with that number has that fault, after which there is none.
fn ends_with(sequence: &Der<'_>, number: usize, kind: DerKind, at: usize) -> bool {
    match part_of(sequence, number) {
        Some(Err(fault)) => fault == DerFault { kind, at }
            && part_of(sequence, number.saturating_add(1)).is_none(),
        _ => false,
    }
}

fn element_of(bytes: &[u8]) -> Result<Der<'_>, Fail> {
    Ok(Der::read(bytes).ok().ok_or("an element")?)
}

#[test]
fn tells_the_parts_in_order(rt: HostRuntime) -> Result<(), Fail> {
    let sequence = element_of(SEQUENCE)?;
    assert!(rt; fields_of(&sequence).0 == 0x30 && sequence.at() == 0);
    for (number, part) in INSIDE.iter().enumerate() {
        assert!(rt; has_part(&sequence, number, part), "{number}");
    }
    assert!(rt; part_of(&sequence, 5).is_none());
    let single = element_of(b"\x30\x03\x02\x01\x05")?;
    assert!(rt; has_part(&single, 0, &(0x02, 2, b"\x05")));
    assert!(rt; part_of(&single, 1).is_none());
    Ok(())
}

#[test]
fn ends_at_the_first_fault(rt: HostRuntime) -> Result<(), Fail> {
    let outer = element_of(b"\x30\x0a\x02\x01\x05\x30\x03\x02\x02\x01\x05\x00")?;
    assert!(rt; has_part(&outer, 0, &(0x02, 2, b"\x05")));
    let nested = part_of(&outer, 1)
        .ok_or("a part")?
        .ok()
        .ok_or("an element")?;
    assert!(rt; ends_with(&nested, 0, DerKind::Short, 7));
    let last = element_of(b"\x30\x06\x05\x00\x02\x81\x01\x05")?;
    assert!(rt; has_part(&last, 0, &(0x05, 2, b"")));
    assert!(rt; ends_with(&last, 1, DerKind::Length, 4));
    Ok(())
}
