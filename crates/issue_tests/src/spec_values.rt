//! What a spec file says: its header lines, and the values of its elements as CBOR.

use issue_spec::{Spec, SpecSigner};
use std::alloc::Global;
use std::test::*;

/// A kind and a value, and the CBOR (RFC 8949, appendix A, and RFC 8943, section 1.1).
const VALUES: [(&str, &[u8]); 14] = [
    ("uint 0", b"\x00"),
    ("uint 23", b"\x17"),
    ("uint 24", b"\x18\x18"),
    ("uint 1000000", b"\x1a\x00\x0f\x42\x40"),
    (
        "uint 18446744073709551615",
        b"\x1b\xff\xff\xff\xff\xff\xff\xff\xff",
    ),
    ("bool false", b"\xf4"),
    ("bool true", b"\xf5"),
    ("bytes -", b"\x40"),
    ("bytes 01020304", b"\x44\x01\x02\x03\x04"),
    ("text IETF", b"\x64IETF"),
    ("text  a b", b"\x64 a b"),
    ("date 1940-10-09", b"\xd9\x03\xec\x6a1940-10-09"),
    ("cbor 826161a161626163", b"\x82\x61a\xa1\x61b\x61c"),
    ("cbor 1900FF", b"\x19\x00\xff"),
];

/// A spec with eight header lines, the moments of which are the seconds 0 to 2 after 1970 and one in 2029, and one
/// element of this kind and value.
fn spec_with(alloc: Global, value: &str) -> Option<Spec> {
    let text = format!(in alloc;
        "until 2029-01-01T00:00:00Z\ntype a.b\nauth mac\nsigner new\ncopies 3\nupdate 1970-01-01T00:00:02Z\nsigned 1970-01-01T00:00:00Z\nfrom 1970-01-01T00:00:01Z\nelement n.m e_f {value}"
    ).ok()?;
    Spec::read(alloc, text.as_bytes()).ok()
}

/// Whether the element of such a spec has its names and these bytes as its value.
fn has_value(alloc: Global, value: &str, bytes: &[u8]) -> bool {
    match spec_with(alloc, value) {
        Some(spec) => match spec.elements() {
            [element] => {
                element.ns.as_slice() == b"n.m".as_slice()
                    && element.name.as_slice() == b"e_f".as_slice()
                    && element.value.as_slice() == bytes
            }
            _ => false,
        },
        None => false,
    }
}

/// Whether the headers of such a spec are those of its lines.
fn has_headers(alloc: Global) -> bool {
    match spec_with(alloc, "uint 0") {
        Some(spec) => {
            spec.doc_type() == b"a.b".as_slice()
                && spec.uses_mac()
                && spec.copies() == 3
                && matches!(spec.signer(), SpecSigner::New)
        }
        None => false,
    }
}

/// When such a spec is signed, from and until when it is valid, and when it is to be issued anew.
fn moments(alloc: Global) -> Option<(i64, i64, i64, Option<i64>)> {
    let spec = spec_with(alloc, "uint 0")?;
    Some((spec.signed(), spec.from(), spec.until(), spec.update()))
}

#[test]
fn values_are_cbor(rt: HostRuntime) {
    for (value, bytes) in &VALUES {
        assert!(rt; has_value(rt.alloc(), value, bytes), "{value}");
    }
}

#[test]
fn headers_are_read(rt: HostRuntime) {
    assert!(rt; has_headers(rt.alloc()));
    assert!(rt; moments(rt.alloc()) == Some((0, 1, 1_861_920_000, Some(2))));
}
