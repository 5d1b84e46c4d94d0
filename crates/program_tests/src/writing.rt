// What is written as CBOR: the examples of RFC 8949, appendix A.
use cbor_view::View;
use cbor_write::Build;
use std::alloc::Global;
use std::test::Fail;

const NUMBERS: [(u64, &[u8]); 10] = [
    (0, b"\x00"),
    (10, b"\x0a"),
    (20, b"\x14"),
    (23, b"\x17"),
    (24, b"\x18\x18"),
    (100, b"\x18\x64"),
    (1000, b"\x19\x03\xe8"),
    (1_000_000, b"\x1a\x00\x0f\x42\x40"),
    (1_000_000_000_000, b"\x1b\x00\x00\x00\xe8\xd4\xa5\x10\x00"),
    (u64::MAX, b"\x1b\xff\xff\xff\xff\xff\xff\xff\xff"),
];

const TEXTS: [(&str, &[u8]); 4] = [
    ("", b"\x60"),
    ("a", b"\x61a"),
    ("IETF", b"\x64IETF"),
    ("\u{fc}", b"\x62\xc3\xbc"),
];

const INTEGERS: [(i64, &[u8]); 8] = [
    (0, b"\x00"),
    (1000, b"\x19\x03\xe8"),
    (-1, b"\x20"),
    (-10, b"\x29"),
    (-100, b"\x38\x63"),
    (-1000, b"\x39\x03\xe7"),
    (i64::MAX, b"\x1b\x7f\xff\xff\xff\xff\xff\xff\xff"),
    (i64::MIN, b"\x3b\x7f\xff\xff\xff\xff\xff\xff\xff"),
];

fn number_is(alloc: Global, number: u64, bytes: &[u8]) -> Result<bool, Fail> {
    let mut build = Build::new(alloc);
    build.uint(number)?;
    Ok(build.finish().as_slice() == bytes)
}

fn integer_is(alloc: Global, number: i64, bytes: &[u8]) -> Result<bool, Fail> {
    let mut build = Build::new(alloc);
    build.int(number)?;
    Ok(build.finish().as_slice() == bytes)
}

fn text_is(alloc: Global, text: &str, bytes: &[u8]) -> Result<bool, Fail> {
    let mut build = Build::new(alloc);
    build.text(text)?;
    Ok(build.finish().as_slice() == bytes)
}

#[test]
fn written_items(rt: HostRuntime) -> Result<(), Fail> {
    for (number, bytes) in &NUMBERS {
        assert!(rt; number_is(rt.alloc(), *number, bytes)?, "{number}");
    }
    for (number, bytes) in &INTEGERS {
        assert!(rt; integer_is(rt.alloc(), *number, bytes)?, "{number}");
    }
    for (text, bytes) in &TEXTS {
        assert!(rt; text_is(rt.alloc(), text, bytes)?, "{text}");
    }
    Ok(())
}

// h'', h'01020304', 1(1363896240)
fn add_strings(build: &mut Build) -> Result<(), Fail> {
    build.bytes(b"")?;
    build.bytes(b"\x01\x02\x03\x04")?;
    build.tag(1)?;
    build.uint(1_363_896_240)?;
    Ok(())
}

// 24(h'6449455446'), false, true, null
fn add_simple_values(build: &mut Build) -> Result<(), Fail> {
    build.tag(24)?;
    build.bytes(b"dIETF")?;
    build.boolean(false)?;
    build.boolean(true)?;
    build.null()?;
    Ok(())
}

// [h'', h'01020304', 1(1363896240), 24(h'6449455446'), false, true, null]
const STRINGS: &[u8] =
    b"\x87\x40\x44\x01\x02\x03\x04\xc1\x1a\x51\x4b\x67\xb0\xd8\x18\x45dIETF\xf4\xf5\xf6";

#[test]
fn written_strings(rt: HostRuntime) -> Result<(), Fail> {
    let mut build = Build::new(rt.alloc());
    build.array(7)?;
    add_strings(&mut build)?;
    add_simple_values(&mut build)?;
    assert!(rt; build.finish().as_slice() == STRINGS);
    Ok(())
}

// The heads of an array of 25 items and of a map, the key "a", and a number with a head that is longer than needed, as
// it was read.
#[test]
fn written_structures(rt: HostRuntime) -> Result<(), Fail> {
    let number = View::read(b"\x18\x14").ok().ok_or("a number")?;
    let mut build = Build::new(rt.alloc());
    build.array(25)?;
    build.map(1)?;
    build.text("a")?;
    build.raw(&number)?;
    assert!(rt; build.finish().as_slice() == b"\x98\x19\xa1\x61a\x18\x14".as_slice());
    Ok(())
}
