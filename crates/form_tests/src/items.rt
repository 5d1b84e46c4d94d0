// Issuer-signed items: a worked one and one of the examples.
use cbor_view::View;
use issuer_items::{Item, ItemFault, write_item};
use std::alloc::Global;
use std::process::Abort;

// {"digestID": 0, "random": h'01', "elementIdentifier": "a", "elementValue": "x"}
const WORKED: &[u8] =
    b"\xd8\x18\x58\x37\xa4\x68\x64\x69\x67\x65\x73\x74\x49\x44\x00\x66\x72\x61\x6e\x64\x6f\x6d\x41\x01\
    \x71\x65\x6c\x65\x6d\x65\x6e\x74\x49\x64\x65\x6e\x74\x69\x66\x69\x65\x72\x61\x61\x6c\x65\x6c\x65\
    \x6d\x65\x6e\x74\x56\x61\x6c\x75\x65\x61\x78";

// The family name in examples/licence.store.
const FAMILY_NAME: &[u8] =
    b"\xd8\x18\x58\x66\xa4\x68\x64\x69\x67\x65\x73\x74\x49\x44\x00\x66\x72\x61\x6e\x64\x6f\x6d\x58\x20\
    \x5a\x42\x5e\xcc\x1e\x8a\x5f\xbb\x7c\x60\x35\x48\x2f\xff\x77\xbe\x68\x97\xf3\xbb\xc3\xb8\x0a\xd3\
    \x75\xef\xa8\x39\xe4\x2b\x0b\x99\x71\x65\x6c\x65\x6d\x65\x6e\x74\x49\x64\x65\x6e\x74\x69\x66\x69\
    \x65\x72\x6b\x66\x61\x6d\x69\x6c\x79\x5f\x6e\x61\x6d\x65\x6c\x65\x6c\x65\x6d\x65\x6e\x74\x56\x61\
    \x6c\x75\x65\x66\x4d\x75\x73\x74\x65\x72";

// Whether an item has these fields, the last a text.
fn has_fields(item: &Item<'_>, id: u64, salt: &[u8], name: &str, text: &str) -> bool {
    item.id() == id
        && item.salt() == salt
        && item.name() == name
        && item.value().text() == Some(text)
}

// Whether an item is written as these bytes.
fn is_written(alloc: Global, item: &Item<'_>, bytes: &[u8]) -> bool {
    let value = item.value();
    if value.depth() > 31 {
        return false;
    }
    match write_item(alloc, item.id(), item.salt(), item.name(), value) {
        Ok(written) => written.as_slice() == bytes,
        Err(_) => false,
    }
}

// Whether the worked item is read as it is, and written again.
fn is_worked(alloc: Global) -> Option<bool> {
    let item = Item::read(WORKED).ok()?;
    Some(
        item.raw() == WORKED
            && has_fields(&item, 0, b"\x01", "a", "x")
            && is_written(alloc, &item, WORKED),
    )
}

#[test]
fn worked_item(rt: HostRuntime) {
    assert!(rt; is_worked(rt.alloc()) == Some(true));
}

// Whether the item of the examples is read as it is, and written again.
fn is_family_name(alloc: Global) -> Option<bool> {
    let item = Item::read(FAMILY_NAME).ok()?;
    let salt = FAMILY_NAME.get(24..56)?;
    let is_read = has_fields(&item, 0, salt, "family_name", "Muster");
    Some(is_read && is_written(alloc, &item, FAMILY_NAME))
}

#[test]
fn item_of_the_examples(rt: HostRuntime) {
    assert!(rt; is_family_name(rt.alloc()) == Some(true));
}

// Whether bytes that are cut short are not tagged, wherever they are cut.
fn are_cuts_refused(bytes: &[u8]) -> bool {
    for cut in 0..bytes.len() {
        if Item::read(&bytes[..cut]).err() != Some(ItemFault::NotTagged) {
            return false;
        }
    }
    true
}

// Reads bytes with another byte at each place; none where memory is wanting.
fn read_changed(alloc: Global, bytes: &[u8], byte: u8) -> Option<()> {
    for place in 0..bytes.len() {
        let mut changed = bytes.to_vec(alloc).ok()?;
        *changed.get_mut(place)? = byte;
        let _ = Item::read(&changed);
    }
    Some(())
}

// The bytes of a value that is nested 31 levels deep, which it may be.
fn deep_value(alloc: Global) -> Option<Vec<u8>> {
    let mut bytes = [0x81; 31].to_vec(alloc).ok()?;
    bytes.push(0x00).ok()?;
    Some(bytes)
}

// Whether an item with such a value is written, and read again.
fn is_deep_item(alloc: Global) -> Option<bool> {
    let bytes = deep_value(alloc)?;
    let value = View::read(&bytes).ok()?;
    if value.depth() != 31 {
        return None;
    }
    let written = write_item(alloc, u64::MAX, b"", "\u{e4}", value).ok()?;
    let read = Item::read(written.as_slice()).ok()?;
    Some(read.value().raw() == bytes.as_slice() && read.name() == "\u{e4}")
}

#[test]
fn damaged_items(rt: HostRuntime) {
    assert!(rt; are_cuts_refused(WORKED));
    assert!(rt; read_changed(rt.alloc(), WORKED, 0x00).is_some());
    assert!(rt; read_changed(rt.alloc(), WORKED, 0xff).is_some());
    assert!(rt; is_deep_item(rt.alloc()) == Some(true));
}
