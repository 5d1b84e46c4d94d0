// Responses, a key and a code that another implementation made, as `tests/vectors/responses` writes them.
use cbor_view::View;
use doc_response::{
    DeviceAuth, Response, ResponseDoc, ResponseDraft, device_auth_bytes, device_mac, mac_key,
    respond,
};
use issuer_items::Item;
use std::alloc::Global;

const RESPONSE: &[u8] =
    b"\xa4\x67\x76\x65\x72\x73\x69\x6f\x6e\x63\x31\x2e\x30\x69\x64\x6f\x63\x75\x6d\x65\x6e\x74\x73\x82\
    \xa4\x67\x64\x6f\x63\x54\x79\x70\x65\x61\x64\x6c\x69\x73\x73\x75\x65\x72\x53\x69\x67\x6e\x65\x64\
    \xa2\x6a\x6e\x61\x6d\x65\x53\x70\x61\x63\x65\x73\xa2\x61\x6e\x82\xd8\x18\x58\x37\xa4\x68\x64\x69\
    \x67\x65\x73\x74\x49\x44\x00\x66\x72\x61\x6e\x64\x6f\x6d\x41\x01\x71\x65\x6c\x65\x6d\x65\x6e\x74\
    \x49\x64\x65\x6e\x74\x69\x66\x69\x65\x72\x61\x61\x6c\x65\x6c\x65\x6d\x65\x6e\x74\x56\x61\x6c\x75\
    \x65\x61\x78\xd8\x18\x58\x36\xa4\x68\x64\x69\x67\x65\x73\x74\x49\x44\x01\x66\x72\x61\x6e\x64\x6f\
    \x6d\x41\x01\x71\x65\x6c\x65\x6d\x65\x6e\x74\x49\x64\x65\x6e\x74\x69\x66\x69\x65\x72\x61\x62\x6c\
    \x65\x6c\x65\x6d\x65\x6e\x74\x56\x61\x6c\x75\x65\x07\x61\x6d\x81\xd8\x18\x58\x36\xa4\x68\x64\x69\
    \x67\x65\x73\x74\x49\x44\x00\x66\x72\x61\x6e\x64\x6f\x6d\x41\x01\x71\x65\x6c\x65\x6d\x65\x6e\x74\
    \x49\x64\x65\x6e\x74\x69\x66\x69\x65\x72\x61\x63\x6c\x65\x6c\x65\x6d\x65\x6e\x74\x56\x61\x6c\x75\
    \x65\xf5\x6a\x69\x73\x73\x75\x65\x72\x41\x75\x74\x68\x84\x40\xa0\xf6\x40\x6c\x64\x65\x76\x69\x63\
    \x65\x53\x69\x67\x6e\x65\x64\xa2\x6a\x6e\x61\x6d\x65\x53\x70\x61\x63\x65\x73\xd8\x18\x41\xa0\x6a\
    \x64\x65\x76\x69\x63\x65\x41\x75\x74\x68\xa1\x6f\x64\x65\x76\x69\x63\x65\x53\x69\x67\x6e\x61\x74\
    \x75\x72\x65\x84\x43\xa1\x01\x26\xa0\xf6\x58\x40\x00\x01\x02\x03\x04\x05\x06\x07\x08\x09\x0a\x0b\
    \x0c\x0d\x0e\x0f\x10\x11\x12\x13\x14\x15\x16\x17\x18\x19\x1a\x1b\x1c\x1d\x1e\x1f\x20\x21\x22\x23\
    \x24\x25\x26\x27\x28\x29\x2a\x2b\x2c\x2d\x2e\x2f\x30\x31\x32\x33\x34\x35\x36\x37\x38\x39\x3a\x3b\
    \x3c\x3d\x3e\x3f\x66\x65\x72\x72\x6f\x72\x73\xa2\x61\x6e\xa2\x61\x65\x00\x61\x66\x00\x61\x6d\xa1\
    \x61\x65\x00\xa3\x67\x64\x6f\x63\x54\x79\x70\x65\x61\x66\x6c\x69\x73\x73\x75\x65\x72\x53\x69\x67\
    \x6e\x65\x64\xa2\x6a\x6e\x61\x6d\x65\x53\x70\x61\x63\x65\x73\xa1\x61\x6e\x81\xd8\x18\x58\x37\xa4\
    \x68\x64\x69\x67\x65\x73\x74\x49\x44\x00\x66\x72\x61\x6e\x64\x6f\x6d\x41\x01\x71\x65\x6c\x65\x6d\
    \x65\x6e\x74\x49\x64\x65\x6e\x74\x69\x66\x69\x65\x72\x61\x61\x6c\x65\x6c\x65\x6d\x65\x6e\x74\x56\
    \x61\x6c\x75\x65\x61\x78\x6a\x69\x73\x73\x75\x65\x72\x41\x75\x74\x68\x84\x40\xa0\xf6\x40\x6c\x64\
    \x65\x76\x69\x63\x65\x53\x69\x67\x6e\x65\x64\xa2\x6a\x6e\x61\x6d\x65\x53\x70\x61\x63\x65\x73\xd8\
    \x18\x41\xa0\x6a\x64\x65\x76\x69\x63\x65\x41\x75\x74\x68\xa1\x69\x64\x65\x76\x69\x63\x65\x4d\x61\
    \x63\x84\x43\xa1\x01\x05\xa0\xf6\x58\x20\x00\x01\x02\x03\x04\x05\x06\x07\x08\x09\x0a\x0b\x0c\x0d\
    \x0e\x0f\x10\x11\x12\x13\x14\x15\x16\x17\x18\x19\x1a\x1b\x1c\x1d\x1e\x1f\x6e\x64\x6f\x63\x75\x6d\
    \x65\x6e\x74\x45\x72\x72\x6f\x72\x73\x82\xa1\x61\x65\x00\xa1\x61\x67\x00\x66\x73\x74\x61\x74\x75\
    \x73\x00";

/// A document with an item, one without, and a type of which nothing is returned.
const ONE_GIVEN: &[u8] =
    b"\xa4\x67\x76\x65\x72\x73\x69\x6f\x6e\x63\x31\x2e\x30\x69\x64\x6f\x63\x75\x6d\x65\x6e\x74\x73\x81\
    \xa3\x67\x64\x6f\x63\x54\x79\x70\x65\x61\x66\x6c\x69\x73\x73\x75\x65\x72\x53\x69\x67\x6e\x65\x64\
    \xa2\x6a\x6e\x61\x6d\x65\x53\x70\x61\x63\x65\x73\xa1\x61\x6e\x81\xd8\x18\x58\x37\xa4\x68\x64\x69\
    \x67\x65\x73\x74\x49\x44\x00\x66\x72\x61\x6e\x64\x6f\x6d\x41\x01\x71\x65\x6c\x65\x6d\x65\x6e\x74\
    \x49\x64\x65\x6e\x74\x69\x66\x69\x65\x72\x61\x61\x6c\x65\x6c\x65\x6d\x65\x6e\x74\x56\x61\x6c\x75\
    \x65\x61\x78\x6a\x69\x73\x73\x75\x65\x72\x41\x75\x74\x68\x84\x40\xa0\xf6\x40\x6c\x64\x65\x76\x69\
    \x63\x65\x53\x69\x67\x6e\x65\x64\xa2\x6a\x6e\x61\x6d\x65\x53\x70\x61\x63\x65\x73\xd8\x18\x41\xa0\
    \x6a\x64\x65\x76\x69\x63\x65\x41\x75\x74\x68\xa1\x69\x64\x65\x76\x69\x63\x65\x4d\x61\x63\x84\x43\
    \xa1\x01\x05\xa0\xf6\x58\x20\x00\x01\x02\x03\x04\x05\x06\x07\x08\x09\x0a\x0b\x0c\x0d\x0e\x0f\x10\
    \x11\x12\x13\x14\x15\x16\x17\x18\x19\x1a\x1b\x1c\x1d\x1e\x1f\x6e\x64\x6f\x63\x75\x6d\x65\x6e\x74\
    \x45\x72\x72\x6f\x72\x73\x82\xa1\x61\x64\x00\xa1\x61\x67\x00\x66\x73\x74\x61\x74\x75\x73\x00";

const KEY: [u8; 32] = [
    0xf4, 0x00, 0x10, 0x72, 0xd9, 0x9a, 0xde, 0x41, 0xce, 0x9e, 0x35, 0xc7, 0x51, 0xba, 0x69, 0xca,
    0x10, 0x30, 0xac, 0x06, 0x5c, 0xc3, 0xa1, 0x92, 0x51, 0x53, 0x69, 0x7f, 0x1a, 0xa2, 0xf4, 0x73,
];

const CODE: [u8; 32] = [
    0x1c, 0xd0, 0x77, 0x8b, 0x19, 0xe2, 0x24, 0x95, 0xc1, 0x1b, 0x53, 0x19, 0x5a, 0x2f, 0xc7, 0x9d,
    0xf2, 0x4d, 0xf8, 0xaa, 0x8b, 0x83, 0x86, 0xa8, 0x5b, 0x1e, 0xc2, 0x83, 0x47, 0xc5, 0x53, 0xa4,
];

/// Adds an item that is read as one.
fn put_item<'a>(draft: &mut ResponseDraft<'a>, ns: &'a str, raw: &'a [u8]) -> Option<()> {
    if Item::read(raw).is_err() || !draft.has_document() {
        return None;
    }
    draft.item(ns, raw).ok()
}

/// Adds an element that isn't released.
fn put_missing<'a>(draft: &mut ResponseDraft<'a>, ns: &'a str, name: &'a str) -> Option<()> {
    if !draft.has_document() || draft.has_missing(ns, name) {
        return None;
    }
    draft.missing(ns, name).ok()
}

/// Adds a document with an issuer's signature that is one item.
fn put_document<'a>(
    draft: &mut ResponseDraft<'a>,
    document: &ResponseDoc<'a>,
    auth: DeviceAuth,
) -> Option<()> {
    let issuer_auth = document.issuer_auth();
    if issuer_auth.depth() > 28 {
        return None;
    }
    draft
        .document(document.doc_type(), issuer_auth.raw(), auth)
        .ok()
}

fn bytes_from_zero<const N: usize>() -> [u8; N] {
    let mut bytes = [0; N];
    for (place, byte) in bytes.iter_mut().enumerate() {
        *byte = (place % 256) as u8;
    }
    bytes
}

/// The two documents.
fn documents() -> Option<(ResponseDoc<'static>, ResponseDoc<'static>)> {
    let response = Response::read(View::read(RESPONSE).ok()?).ok()?;
    let mut documents = response.documents();
    let first = documents.next()?;
    let second = documents.next()?;
    if documents.next().is_some() || response.status() != 0 {
        return None;
    }
    Some((first, second))
}

/// The bytes of the items of a document.
fn items(document: &ResponseDoc<'static>) -> Option<(&'static [u8], &'static [u8], &'static [u8])> {
    let mut items = document.items();
    let (n, a) = items.next()?;
    let (other, b) = items.next()?;
    let (m, c) = items.next()?;
    if items.next().is_some() || n != "n" || other != "n" || m != "m" {
        return None;
    }
    Some((a.raw(), b.raw(), c.raw()))
}

/// Adds the first document, whose items' namespaces alternate.
fn put_first(draft: &mut ResponseDraft<'static>, first: &ResponseDoc<'static>) -> Option<()> {
    let (a, b, c) = items(first)?;
    put_document(draft, first, DeviceAuth::Signature(bytes_from_zero()))?;
    put_item(draft, "n", a)?;
    put_missing(draft, "n", "e")?;
    put_item(draft, "m", c)?;
    put_missing(draft, "m", "e")?;
    put_item(draft, "n", b)?;
    put_missing(draft, "n", "f")
}

/// Adds the second document.
fn put_second(draft: &mut ResponseDraft<'static>, second: &ResponseDoc<'static>) -> Option<()> {
    let (_, a) = second.items().next()?;
    put_document(draft, second, DeviceAuth::Mac(bytes_from_zero()))?;
    put_item(draft, "n", a.raw())
}

/// Whether the response is written as the other implementation did.
fn is_written_back(alloc: Global) -> Option<bool> {
    let (first, second) = documents()?;
    let mut draft = ResponseDraft::new(alloc, 0);
    draft.nothing("e").ok()?;
    put_first(&mut draft, &first)?;
    put_second(&mut draft, &second)?;
    draft.nothing("g").ok()?;
    Some(respond(alloc, &draft).ok()?.as_slice() == RESPONSE)
}

/// Whether a document that is given no item is written as an error.
fn is_one_given(alloc: Global) -> Option<bool> {
    let (first, second) = documents()?;
    let mut draft = ResponseDraft::new(alloc, 0);
    draft.nothing("g").ok()?;
    put_document(&mut draft, &first, DeviceAuth::Mac(bytes_from_zero()))?;
    put_missing(&mut draft, "n", "a")?;
    put_second(&mut draft, &second)?;
    Some(respond(alloc, &draft).ok()?.as_slice() == ONE_GIVEN)
}

/// Whether no element of the first document is signed by the device.
fn signs_no_element() -> Option<bool> {
    let (first, _) = documents()?;
    Some(first.device_namespaces() == b"\xa0".as_slice())
}

/// Whether the errors are of those types, with code 0.
fn are_errors_of(types: &[&str]) -> Option<bool> {
    let response = Response::read(View::read(RESPONSE).ok()?).ok()?;
    let mut errors = response.errors();
    for doc_type in types {
        let (own, code) = errors.next()?;
        if own != *doc_type || code.uint() != Some(0) {
            return Some(false);
        }
    }
    Some(errors.next().is_none())
}

#[test]
fn response_of_another_implementation(rt: HostRuntime) {
    assert!(rt; is_written_back(rt.alloc()) == Some(true));
    assert!(rt; is_one_given(rt.alloc()) == Some(true));
    assert!(rt; signs_no_element() == Some(true));
    assert!(rt; are_errors_of(&["e", "g"]) == Some(true));
}

/// Whether the key and the code are those of the other implementation.
fn is_code_of_another(alloc: Global) -> Option<bool> {
    let key = mac_key(alloc, &bytes_from_zero(), b"\x83\xf6\xf6\xf6").ok()?;
    Some(key == KEY && device_mac(alloc, &key, b"\x01").ok()? == CODE)
}

/// Whether the payload has the received map of namespaces.
fn is_payload_of(alloc: Global, namespaces: &[u8], payload: &[u8]) -> Option<bool> {
    let made = device_auth_bytes(alloc, b"\x83\xf6\xf6\xf6", "d", namespaces).ok()?;
    Some(made.as_slice() == payload)
}

#[test]
fn code_of_another_implementation(rt: HostRuntime) {
    assert!(rt; is_code_of_another(rt.alloc()) == Some(true));
    let payload =
        b"\xd8\x18\x58\x20\x84\x74DeviceAuthentication\x83\xf6\xf6\xf6\x61d\xd8\x18\x41\xa0";
    assert!(rt; is_payload_of(rt.alloc(), b"\xa0", payload) == Some(true));
}
