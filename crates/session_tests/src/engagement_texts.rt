// The text of a QR code: worked ones, those of RFC 4648, section 10, and what is none.
use engagement::{EngageFault, Engagement, UriFault, from_uri, to_uri};
use mdoc_outside::Octets;
use std::alloc::Global;

// What is reported of a text, the bytes that it is read as, and the text.
const TEXTS: &str = "\
Ok a10063312e30 mdoc:oQBjMS4w\n\
Ok fbff mdoc:-_8\n\
Ok  mdoc:\n\
Ok 66 mdoc:Zg\n\
Ok 666f mdoc:Zm8\n\
Ok 666f6f mdoc:Zm9v\n\
Ok 666f6f62 mdoc:Zm9vYg\n\
Ok 666f6f6261 mdoc:Zm9vYmE\n\
Ok 666f6f626172 mdoc:Zm9vYmFy\n\
Base64  mdoc:oQ==\n\
Base64  mdoc:oQ=\n\
Base64  mdoc:Zm9vYg==\n\
Base64  mdoc:+_8\n\
Base64  mdoc:-/8\n\
Base64  mdoc:oR\n\
Base64  mdoc:-_9\n\
Base64  mdoc:o\n\
Base64  mdoc:oQBjM\n\
Base64  mdoc:oQ BjMS4w\n\
Base64  mdoc:oQBjMS4w \n\
Base64  mdoc: oQ\n\
Base64  mdoc:mdoc:oQ\n\
Base64  mdoc://oQ\n\
Base64  mdoc:=\n\
Prefix  oQ\n\
Prefix  \n\
Prefix  mdoc\n\
Prefix  mdo:oQ\n\
Prefix  MDOC:oQBjMS4w\n\
Prefix  Mdoc:oQBjMS4w\n\
Prefix   mdoc:oQ\n\
Prefix  mdoc;oQ\n\
Prefix  https://mdoc:oQ\n\
";

// What is reported of a text.
fn told(read: &Result<Octets, UriFault>) -> &'static str {
    match read {
        Ok(_) => "Ok",
        Err(UriFault::Prefix) => "Prefix",
        Err(UriFault::Base64) => "Base64",
        Err(UriFault::Memory) => "Memory",
    }
}

// Whether a text, where it is one, is read as these bytes, and they are written as it.
fn is_of_bytes(
    alloc: Global,
    read: &Result<Octets, UriFault>,
    bytes: &[u8],
    text: &str,
) -> Option<bool> {
    match read {
        Ok(octets) => Some(
            octets.as_slice() == bytes && to_uri(alloc, bytes).ok()?.as_slice() == text.as_bytes(),
        ),
        Err(_) => Some(true),
    }
}

// Whether that is reported which a line says.
fn is_told(alloc: Global, line: &str) -> Option<bool> {
    let (wanted, rest) = line.split_once(" ")?;
    let (digits, text) = rest.split_once(" ")?;
    let bytes = hex::decode(alloc, digits.as_bytes()).ok()?;
    let read = from_uri(alloc, text.as_bytes());
    let is_same = is_of_bytes(alloc, &read, &bytes, text)?;
    Some(is_same && told(&read) == wanted)
}

#[test]
fn texts(rt: HostRuntime) {
    for line in TEXTS.lines() {
        assert!(rt; is_told(rt.alloc(), line) == Some(true), "{line}");
    }
}

// Whether a text is that of an engagement without a security.
fn is_without_a_security(alloc: Global, text: &[u8]) -> Option<bool> {
    let bytes = from_uri(alloc, text).ok()?;
    let fault = Engagement::read(bytes.as_slice()).err();
    Some(matches!(fault, Some(EngageFault::Field(1))))
}

#[test]
fn text_without_a_security(rt: HostRuntime) {
    assert!(rt; is_without_a_security(rt.alloc(), b"mdoc:oQBjMS4w") == Some(true));
}
